// How transactions end, and how a call is undone.
ghost use Rattle.std.specs.Prelude.{◌≡◌, ℕ, Some, Ok, IsOk, IfOk, IfErr};
ghost use Rattle.ft_posix.specs.Posix.{posix_calls};
ghost use Rattle.ft_history.specs.History.Fate.{Live};
ghost use Rattle.ft_history.specs.Undoing.{undo_target};
ghost use Rattle.ft_history.specs.Undoing.Target.{Found};
ghost use Rattle.ft_core.specs.declared.request.Request.TheVariants.{Commit, Abort, Undo};
ghost use Rattle.ft_core.specs.declared.request.Answer.TheVariants.{Committed, Aborted, Undone};
ghost use Rattle.ft_core.specs.Histories.{Granted};
ghost use Rattle.ft_core.specs.States.{State as StateOf, history, fate_of, tree_of, after_abort, count_standing, count_live, count_owned};
ghost use Rattle.ft_core.specs.Promises.{IsJustMade, RanAlone};
ghost use Rattle.ft_core.specs.Steps.{IsStep, exact_rule, answer_with, fault_of_target};

use crate::fault::Fault;
use crate::manager::Core;
use crate::past::Turn;
use crate::request::FullAbort;
use ft_forest::TxnId;

impl Core {
    /// Commits a transaction: its locks and the inverses of its calls are its parent's from then
    /// on. At the top level its locks are released, and its calls can no longer be undone. Takes no
    /// memory.
    ///
    /// Refuses NoTxn, Ended, and ChildLive if it has a live child, in this order.
    pub fn commit(&mut self, txn: TxnId) -> Result<(), Fault>
        ensures { IsStep exact_rule
            self.old.state (Commit txn) (answer_with (λ done. Committed) result) self.new.state }
    {
        let parent = self.parts.forest.commit(txn)?;
        self.parts.hand_up(txn, &parent);
        self.memo.forget(); // (its locks are others' now)
        self.journal.note_sub(parent);
        self.journal.forget(txn);
        self.journal.tell(&Turn::Commit { txn });
        Ok(())
    }

    /// Aborts a transaction with all that is live below it, and returns how many standing calls it
    /// undoes. Takes no memory.
    ///
    /// Refuses NoTxn and Ended, in this order.
    pub fn abort(&mut self, txn: TxnId) -> Result<u64, Fault>
        ensures step { IsStep exact_rule self.old.state (Abort txn) (answer_with Aborted result)
            self.new.state }

        // If it ran alone, the tree is that of its begin.
        ensures alone { (before : StateOf) → RanAlone before self.old.state txn
            → (result ≡ Ok (count_standing self.old.state txn))
            × (tree_of self.new.state ≡ tree_of before) }
    {
        Ok(self.abort_in_full(txn)?.calls)
    }

    /// Aborts a transaction as `abort` does, and also returns how many transactions it ends.
    pub fn abort_in_full(&mut self, txn: TxnId) -> Result<FullAbort, Fault>
        ensures step { IsStep exact_rule
            self.old.state (Abort txn) (answer_with (λ abort. Aborted abort.calls) result)
            self.new.state }
        ensures calls { IfOk result (λ abort. abort.calls ≡ count_standing self.old.state txn) }
        ensures transactions { IfOk result
            (λ abort. abort.transactions ≡ count_live self.old.state txn) }

        // If it ran alone, the tree is that of its begin.
        ensures alone { (before : StateOf) → RanAlone before self.old.state txn → IsOk result
            × (tree_of self.new.state ≡ tree_of before) }
    {
        self.check_live(txn)?;
        Ok(self.abort_live(txn))
    }

    /// Undoes what the live transactions at or below a live one have done, each before its parent,
    /// and ends them.
    fn abort_live(&mut self, txn: TxnId) -> FullAbort
        requires { fate_of self.old.state txn ≡ Some Live }
        ensures calls { result.calls ≡ count_standing self.old.state txn }
        ensures transactions { result.transactions ≡ count_live self.old.state txn }
        ensures ended { self.new.state ≡ after_abort self.old.state txn }
        ensures alone { (before : StateOf) → RanAlone before self.old.state txn
            → tree_of (after_abort self.old.state txn) ≡ tree_of before }
    {
        // (no more calls are standing than stamps are given, and each transaction has a number of
        // its own)
        let mut calls = 0;
        let mut transactions = 0;
        let mut last = txn;
        while let Some(next) = self.parts.forest.abort_next(txn, last) {
            calls += self.parts.take_list(next);
            self.parts.logs.close(next.0);
            self.parts.locks.release(next);
            self.journal.forget(next);
            transactions += 1;
            last = next;
        }
        self.memo.forget(); // (what they had made is gone)
        self.journal.tell(&Turn::Abort { txn });
        FullAbort {
            transactions,
            calls,
        }
    }

    /// Returns how many standing calls a transaction owns: its own, and those that it got when
    /// subtransactions committed. They can be undone until it has ended, and no longer if it
    /// commits at the top level.
    ///
    /// Takes time in proportion to that number.
    pub fn count_owned(&self, txn: TxnId) -> u64
        ensures { result ≡ count_owned self.now.state txn }
    {
        self.parts.logs.len(txn.0) as u64
    }

    /// Undoes the last of a transaction's own standing calls, and returns its stamp. It may be one
    /// that only looked, as a stat, or that failed. Takes no memory.
    ///
    /// Refuses, in this order, NoTxn, Ended, ChildLive, and then NothingToUndo if there is none or
    /// SubSince if a child has committed since.
    pub fn undo_call(&mut self, txn: TxnId) -> Result<u64, Fault>
        ensures step { IsStep exact_rule self.old.state (Undo txn) (answer_with Undone result)
            self.new.state }

        // The call just made is undone, and the tree is the one before it.
        ensures just_made { (before : StateOf) (k : ℕ) → IsJustMade before self.old.state txn k
            → (result ≡ Ok k) × (tree_of self.new.state ≡ tree_of before) }
    {
        self.check_live(txn)?;
        if self.parts.forest.live_children(txn) > 0 {
            return Err(Fault::ChildLive);
        }
        let stamp = self.undo_target(txn)?;
        self.parts.take_newest(txn);
        self.memo.forget(); // (what the call had made is gone)
        self.journal.tell(&Turn::Undo { stamp });
        Ok(stamp)
    }

    /// Returns the stamp of the call that an undo would undo: the newest of the transaction's list,
    /// unless a child has committed since.
    fn undo_target(&self, txn: TxnId) -> Result<u64, Fault>
        requires { fate_of self.now.state txn ≡ Some Live }
        ensures found { IfOk result
            (λ stamp. (d : Granted) × (undo_target posix_calls (history self.now.state) txn
            ≡ Found d) × (d.call.stamp ≡ stamp)) }
        ensures refused { IfErr result
            (λ fault. fault_of_target (undo_target posix_calls (history self.now.state) txn)
            ≡ Some fault) }
    {
        let last_sub = self.journal.last_sub(txn);
        match self.parts.logs.newest(txn.0) {
            Some(stamp) => match last_sub {
                Some(sub) if stamp <= sub => Err(Fault::SubSince),
                _ => Ok(stamp),
            },
            None => match last_sub {
                Some(_) => Err(Fault::SubSince),
                None => Err(Fault::NothingToUndo),
            },
        }
    }
}

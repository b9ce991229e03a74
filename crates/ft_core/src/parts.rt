// The parts of a core: the tree, and what is kept alongside it.
ghost use Rattle.std.specs.Prelude.{◌≡◌, ◌<◌, ◌≤◌, ◌^◌, ◌+◌, ◌∷◌, List, [], Some, None, cond, true, false, length, take, IfOk, OnOk, OnErr};
ghost use Rattle.ft_owned_lists.specs.OwnedLists.{list_in};
ghost use Rattle.ft_tree.specs.Sound.{AreSoundCells, IsFree};
ghost use Rattle.ft_posix.specs.Computes.{reply_of, writes_of};
ghost use Rattle.ft_posix.specs.Edits.{CanEditAll, Apart};
ghost use Rattle.ft_undo.specs.declared.logs.LogRecord.{LogRecord as LoggedOf};
ghost use Rattle.ft_undo.specs.Logs.{is_open, AreLists, AreOpen};
ghost use Rattle.ft_undo.specs.Undone.{CanGiveAllBack};
ghost use Rattle.ft_lock_rules.specs.Locks.{is_opened, AreGranted, AreBlockers};
ghost use Rattle.ft_lock_rules.specs.Rules.{is_strict};
ghost use Rattle.ft_lock_rules.specs.Surveys.{HasNoHolderAbove};
ghost use Rattle.ft_history.specs.Logs.{put, popped, handed};
ghost use Rattle.ft_core.specs.Handing.{AreHandedUp, MayHandUp};
ghost use Rattle.ft_core.specs.Makes.{IsMadeOn, IsUnmade};
ghost use Rattle.ft_core.specs.Surveys.{IsAloneIfChildless};
ghost use Rattle.ft_core.specs.Taking.{taken_back, CanTakeBack, TakesNewest};
ghost use Rattle.std.specs.Option.{option_copied};
ghost use Rattle.ft_core.specs.Memos.{IsTrueOf, IsHeldIfAny, IsAloneIfAny};
ghost use Rattle.ft_core.specs.Tries.{IsTried, IsWhole};
ghost use Rattle.ft_core.specs.FullOutcomes.{IsTwice};

use crate::memo::Memo;
use ft_base::Memory;
use ft_calls::{Access, Call, Edits, Looked, PlannedReply, Reply, look_behind};
use ft_forest::{Forest, TxnId};
use ft_lock_rules::Rule;
use ft_locks::{LockCheck, Locks};
use ft_tree::{Front, Tree};
use ft_undo::{LogRecord, Logs, revert};
use std::alloc::Global;

/// The tree, the transactions on it, their locks, and what takes their calls back.
#[derive(Drop)]
pub(crate) struct Parts {
    pub tree: Tree,
    pub forest: Forest,
    pub locks: Locks,
    pub logs: Logs,
}

/// The asker, the stamp of the call, and whether its reply is wanted twice.
#[derive(Clone, Copy)]
pub(crate) struct Asker {
    pub txn: TxnId,
    pub stamp: u64,
    pub twice: bool,
}

/// The parts that are made of a call: its reply, a second time if that is wanted, and its accesses.
#[derive(Drop)]
pub(crate) struct Made {
    pub reply: Reply,
    pub kept: Option<Reply>,
    pub accesses: Vec<Access>,
}

/// The result of a call that was tried.
#[derive(Drop)]
pub(crate) enum Tried {
    /// It is made, and the asker has its locks.
    Made,
    /// These block it, in rising order. Nothing has changed.
    Blocked(Vec<TxnId>),
}

impl Made {
    /// Returns the parts of a call that has no effect. Takes no memory.
    pub(crate) fn nothing(alloc: Global) -> Made
        ensures { result.kept ≡ None }
    {
        Made {
            reply: Reply::Done,
            kept: None,
            accesses: Vec::new(alloc),
        }
    }

    /// Writes the reply that a call got, a second time too if that is wanted.
    fn tell(
        &mut self,
        alloc: Global,
        tree: &Tree,
        told: &PlannedReply,
        twice: bool,
    ) -> Result<(), Memory>
        requires { self.old.kept ≡ None }
        ensures reply { OnOk result (self.new.reply ≡ reply_of tree.now told.now) }
        ensures kept { OnOk result (self.new.kept ≡ cond twice (Some self.new.reply) None) }
    {
        self.reply = told.reply(alloc, tree)?;
        if twice {
            self.kept = Some(self.reply.copy(alloc)?);
        }
        Ok(())
    }
}

impl Parts {
    /// Returns the blockers of a call with these accesses by a rule, and for how many of them, from
    /// the first on, the asker holds the locks already. If it has live children they may share its
    /// cells, and then none is reported as held.
    pub(crate) fn check(
        &self,
        txn: TxnId,
        accesses: &[Access],
        rule: Rule,
    ) -> Result<LockCheck, Memory>
        requires alone { IsAloneIfChildless self.now.locks self.now.forest txn }
        requires no_holder { is_strict rule ≡ true
            → HasNoHolderAbove self.now.locks self.now.forest }
        ensures blockers { IfOk result
            (λ check. AreBlockers rule self.now.locks self.now.forest txn accesses.now
            check.blockers.items) }
        ensures within { IfOk result (λ check. check.held ≤ length accesses.now) }
        ensures held { IfOk result
            (λ check. AreGranted self.now.locks self.now.locks txn (take check.held accesses.now)) }
    {
        if self.forest.live_children(txn) != 0 {
            let blockers = self.locks.blockers(&self.forest, txn, accesses, rule)?;
            return Ok(LockCheck { blockers, held: 0 });
        }
        self.locks.check(&self.forest, txn, accesses, rule)
    }

    /// Returns the front after which a call may begin, if one is known for its asker: it has no
    /// live children, and not all of its accesses are wanted.
    fn front_for<'m>(&self, asker: &Asker, memo: &'m Memo) -> Option<&'m Front>
        requires known { IsTrueOf memo.now self.now.tree self.now.locks }
        requires alone { IsAloneIfChildless self.now.locks self.now.forest asker.now.txn }
        ensures held { IsHeldIfAny self.now.tree self.now.locks asker.now.txn
            (option_copied result) }
        ensures alone { IsAloneIfAny self.now.locks self.now.forest asker.now.txn
            (option_copied result) }
        ensures none { asker.now.twice ≡ true → option_copied result ≡ None }
    {
        if asker.twice || self.forest.live_children(asker.txn) != 0 {
            return None;
        }
        memo.front_of(asker.txn)
    }

    /// Makes a call if nobody blocks it, and writes into `made` what is made of it. If there is not
    /// enough memory, nothing has changed except that.
    pub(crate) fn try_call(
        &mut self,
        alloc: Global,
        asker: Asker,
        call: &Call,
        rule: Rule,
        memo: &mut Memo,
        made: &mut Made,
    ) -> Result<Tried, Memory>
        requires sound { AreSoundCells self.old.tree }
        requires free { IsFree self.old.tree asker.stamp }
        requires locks { is_opened self.old.locks asker.txn ≡ true }
        requires log { is_open self.old.logs asker.txn ≡ true }
        requires alone { IsAloneIfChildless self.old.locks self.old.forest asker.txn }
        requires no_holder { is_strict rule ≡ true
            → HasNoHolderAbove self.old.locks self.old.forest }
        requires none_kept { made.old.kept ≡ None }
        requires known { IsTrueOf memo.old self.old.tree self.old.locks }
        ensures known { IsTrueOf memo.new self.new.tree self.new.locks }
        ensures whole { asker.twice ≡ true
            → IfOk result (IsWhole self.old asker.stamp call.now made.new) }
        ensures twice { IfOk result (IsTwice asker.twice made.new) }
        ensures tried { IfOk result
            (IsTried rule self.old self.new asker.txn asker.stamp call.now made.new) }
        ensures unmade { OnErr result (IsUnmade self.old self.new) }
    {
        // (they are released in one place, after all that may end the call)
        let mut edits = Edits::new(alloc);
        self.try_with(alloc, asker, call, rule, &mut edits, memo, made)
    }

    /// Makes a call as `try_call` does, with its edits put into a list.
    fn try_with<'c>(
        &mut self,
        alloc: Global,
        asker: Asker,
        call: &'c Call,
        rule: Rule,
        edits: &mut Edits<'c>,
        memo: &mut Memo,
        made: &mut Made,
    ) -> Result<Tried, Memory>
        requires sound { AreSoundCells self.old.tree }
        requires free { IsFree self.old.tree asker.stamp }
        requires locks { is_opened self.old.locks asker.txn ≡ true }
        requires log { is_open self.old.logs asker.txn ≡ true }
        requires alone { IsAloneIfChildless self.old.locks self.old.forest asker.txn }
        requires no_holder { is_strict rule ≡ true
            → HasNoHolderAbove self.old.locks self.old.forest }
        requires no_edits { edits.old ≡ [] }
        requires none_kept { made.old.kept ≡ None }
        requires known { IsTrueOf memo.old self.old.tree self.old.locks }
        ensures known { IsTrueOf memo.new self.new.tree self.new.locks }
        ensures whole { asker.twice ≡ true
            → IfOk result (IsWhole self.old asker.stamp call.now made.new) }
        ensures twice { IfOk result (IsTwice asker.twice made.new) }
        ensures tried { IfOk result
            (IsTried rule self.old self.new asker.txn asker.stamp call.now made.new) }
        ensures unmade { OnErr result (IsUnmade self.old self.new) }
    {
        memo.learn_from(alloc, self, rule, asker.txn, call);
        let front = self.front_for(&asker, memo);
        let Looked { accesses, told } = look_behind(
            alloc,
            &self.tree,
            front,
            asker.stamp,
            call,
            edits,
        )?;
        let LockCheck { blockers, held } = self.check(asker.txn, accesses.as_slice(), rule)?;
        if !blockers.is_empty() {
            return Ok(Tried::Blocked(blockers));
        }
        // (what wants memory is made before any edit)
        made.tell(alloc, &self.tree, &told, asker.twice)?;
        memo.forget_if_passed(edits);
        self.make(alloc, asker, edits, accesses.as_slice(), held)?;
        made.accesses = accesses;
        Ok(Tried::Made)
    }

    /// Makes the edits of a call on the tree, gives its asker its locks, of which it holds those of
    /// so many accesses, from the first on, already, and keeps what undoes it. If there is not
    /// enough memory, nothing has changed.
    fn make(
        &mut self,
        alloc: Global,
        asker: Asker,
        edits: &Edits<'_>,
        accesses: &[Access],
        held: usize,
    ) -> Result<(), Memory>
        requires places { CanEditAll self.old.tree edits.now }
        requires apart { Apart edits.now }
        requires locks { is_opened self.old.locks asker.txn ≡ true }
        requires log { is_open self.old.logs asker.txn ≡ true }
        requires within { held ≤ length accesses.now }
        requires held { AreGranted self.old.locks self.old.locks asker.txn
            (take held accesses.now) }
        ensures made { OnOk result
            (IsMadeOn self.old self.new (writes_of self.old.tree edits.now) asker.txn asker.stamp
            accesses.now) }
        ensures unmade { OnErr result (IsUnmade self.old self.new) }
    {
        self.logs
            .apply(alloc, asker.txn.0, asker.stamp, &mut self.tree, edits)?;
        if self.locks.grant(asker.txn, &accesses[held..]).is_err() {
            if let Some(LogRecord { stamp: _, undo }) = self.logs.take_last(asker.txn.0) {
                undo.roll_back(&mut self.tree);
            }
            return Err(Memory);
        }
        Ok(())
    }

    /// Undoes a transaction's list, from its newest end, and returns how many calls that were.
    /// Takes no memory.
    pub(crate) fn take_list(&mut self, txn: TxnId) -> u64
        requires can { CanTakeBack (list_in self.old.logs txn) self.old.tree }
        requires few { length (list_in self.old.logs txn) < 2 ^ 64 }
        ensures others { self.new ≡ record self.old { tree = self.new.tree; logs = self.new.logs } }
        ensures cells { self.new.tree ≡ taken_back (list_in self.old.logs txn) self.old.tree }
        ensures lists { AreLists self.new.logs (put (list_in self.old.logs) txn []) }
        ensures opened { AreOpen self.new.logs (is_open self.old.logs) }
        ensures count { result ≡ length (list_in self.old.logs txn) }
    {
        let mut count = 0;
        while let Some(logged) = self.logs.take_last(txn.0) {
            revert(&mut self.tree, logged.undo);
            count += 1;
        }
        count
    }

    /// Undoes the newest call of a transaction's list, if there is one. Takes no memory.
    pub(crate) fn take_newest(&mut self, txn: TxnId)
        requires { (x : LoggedOf) (xs : List LoggedOf) → list_in self.old.logs txn ≡ x ∷ xs
            → CanGiveAllBack self.old.tree x.undo }
        ensures others { self.new ≡ record self.old { tree = self.new.tree; logs = self.new.logs } }
        ensures cells { TakesNewest (list_in self.old.logs txn) self.old.tree self.new.tree }
        ensures lists { AreLists self.new.logs (popped (list_in self.old.logs) (Some txn)) }
        ensures opened { AreOpen self.new.logs (is_open self.old.logs) }
    {
        if let Some(logged) = self.logs.take_last(txn.0) {
            revert(&mut self.tree, logged.undo);
        }
    }

    /// Gives the parent of a transaction that commits its locks and the inverses of its calls.
    /// Without a parent, the locks are released and the inverses are dropped. Takes no memory.
    pub(crate) fn hand_up(&mut self, txn: TxnId, parent: &Option<TxnId>)
        requires locks { is_opened self.old.locks txn ≡ true }
        requires logs { is_open self.old.logs txn ≡ true }
        requires parent { MayHandUp self.old.locks self.old.logs txn parent.now }
        ensures others { self.new ≡ record self.old {
          locks = self.new.locks;
          logs = self.new.logs;
        } }
        ensures locks { AreHandedUp self.old.locks self.new.locks txn parent.now }
        ensures lists { AreLists self.new.logs (handed (list_in self.old.logs) txn parent.now) }
        ensures opened { AreOpen self.new.logs (put (is_open self.old.logs) txn false) }
    {
        match *parent {
            Some(parent) => {
                self.locks.inherit(txn, parent);
                self.logs.splice(txn.0, parent.0);
            }
            None => {
                self.locks.release(txn);
                self.logs.close(txn.0);
            }
        }
    }
}

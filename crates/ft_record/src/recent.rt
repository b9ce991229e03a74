// A core that keeps what has happened since it last forgot.
ghost use Rattle.std.specs.Prelude.{◌≡◌, drop, length, OnOk, OnErr, MatchBool};
ghost use Rattle.ft_tree.specs.Sweep.{places_in};
ghost use Rattle.std.specs.Prelude.{◌<◌, ◌+◌, ◌-◌, ◌^◌};
ghost use Rattle.ft_core.specs.declared.request.Request.TheVariants.{Begin, Sub, Ask, Retry, Drop as DropAsk, Commit, Abort, Undo, Checkpoint};
ghost use Rattle.ft_core.specs.declared.request.Answer.TheVariants.{Txn, Dropped, Committed, Aborted, Undone, Cleared};
ghost use Rattle.ft_core.specs.States.{at_base};
ghost use Rattle.ft_core.specs.Living.{NoneIsLive};
ghost use Rattle.ft_core.specs.Promises.{RestoresIfAlone, RestoresIfJustMade};
ghost use Rattle.ft_core.specs.Steps.{IsStep, exact_rule, answer_with, outcome_answer};
ghost use Rattle.ft_core.specs.Sweeps.{HasNoUselessPlace, EachUselessIsLocked};
ghost use Rattle.ft_record.specs.Recent.{freed_by_commit};

use crate::record::Record;
use ft_calls::Call;
use ft_core::{Core, Event, Fault, FullAbort, Outcome, TxnId};
use std::marker::Model;
use std::snapshot::Snapshot;

/// A core with what has happened since it last forgot.
///
/// Clauses see the core, and how many events since its base it has forgotten.
pub struct Recent {
    core: Core,
    past: Record,
    // The core as it was when it last forgot. It has no bytes.
    since: Option<Snapshot<Core>>,
}

impl Drop for Recent {
    fn drop(self) {
        let Recent {
            core: _,
            past: _,
            since: _,
        } = self;
    }
}

impl Model for Recent {
    ghost use Rattle.ft_record.specs.Recent.{Remembered, coded_remembered, forgotten_by, IsRecent};

    ghost Value = { Remembered };

    ghost coded = { coded_remembered };

    ghost view = { λ a. record { core = a.core; forgotten = forgotten_by a.since } };

    ghost invariant = { λ a. IsRecent a.core.state a.past (forgotten_by a.since) };
}

impl Recent {
    /// Returns a core on which nothing has happened since its base. Takes no memory.
    pub fn of(core: Core) -> Recent
        requires { core.state ≡ at_base core.state.rule core.state.limits core.state.base }
        ensures core { result.core ≡ core }
        ensures forgotten { result.forgotten ≡ 0 }
    {
        let past = Record::new(core.alloc());
        Recent {
            core,
            past,
            since: None,
        }
    }

    /// Returns the core, as it is now, and forgets what has happened.
    pub fn into_core(self) -> Core
        ensures { result ≡ self.core }
    {
        let Recent {
            core,
            past: _,
            since: _,
        } = self;
        core
    }

    /// Returns the core, for what only looks at it.
    pub fn core(&self) -> &Core
        ensures { result.now ≡ self.now.core }
    {
        &self.core
    }

    /// Returns the events since it last forgot, in order.
    pub fn events(&self) -> &[Event]
        ensures { result.now ≡ drop self.now.forgotten self.now.core.state.events }
    {
        self.past.events()
    }

    /// Forgets all that has happened. Takes no memory.
    pub fn forget(&mut self)
        ensures core { self.new.core ≡ self.old.core }
        ensures forgotten { self.new.forgotten ≡ length self.old.core.state.events }
    {
        self.past.forget();
        self.since = Some(Snapshot::of(&self.core));
    }

    /// Begins a top-level transaction, as `Core::begin` does.
    pub fn begin(&mut self) -> Result<TxnId, Fault>
        ensures step { IsStep exact_rule self.old.core.state Begin (answer_with Txn result)
            self.new.core.state }
        ensures forgotten { self.new.forgotten ≡ self.old.forgotten }
    {
        self.core.may_begin()?;
        self.past.reserve()?;
        let txn = self.core.begin()?;
        self.past.add(Event::Begin { txn, parent: None });
        Ok(txn)
    }

    /// Begins a subtransaction, as `Core::sub` does.
    pub fn sub(&mut self, txn: TxnId) -> Result<TxnId, Fault>
        ensures step { IsStep exact_rule self.old.core.state (Sub txn) (answer_with Txn result)
            self.new.core.state }
        ensures forgotten { self.new.forgotten ≡ self.old.forgotten }
    {
        self.core.may_sub(txn)?;
        self.past.reserve()?;
        let child = self.core.sub(txn)?;
        let parent = Some(txn);
        self.past.add(Event::Begin { txn: child, parent });
        Ok(child)
    }

    /// Makes a call in a transaction, or returns which transactions it waits for, as `Core::ask`
    /// does.
    pub fn ask(&mut self, txn: TxnId, call: Call) -> Result<Outcome, Fault>
        ensures step { IsStep exact_rule self.old.core.state (Ask txn call)
            (answer_with outcome_answer result) self.new.core.state }
        ensures forgotten { self.new.forgotten ≡ self.old.forgotten }
    {
        self.core.may_ask(txn)?;
        self.past.reserve()?;
        let outcome = self.core.ask_in_full(txn, call)?;
        Ok(self.past.add_outcome(txn, outcome))
    }

    /// Makes a copy of a call, as `ask` makes the call.
    pub fn ask_copy(&mut self, txn: TxnId, call: &Call) -> Result<Outcome, Fault>
        ensures step { IsStep exact_rule self.old.core.state (Ask txn call.now)
            (answer_with outcome_answer result) self.new.core.state }
        ensures forgotten { self.new.forgotten ≡ self.old.forgotten }
    {
        self.core.may_ask(txn)?;
        let copy = call.copy(self.core.alloc())?;
        self.ask(txn, copy)
    }

    /// Makes the call that a transaction waits for, or returns again which transactions it waits
    /// for, as `Core::retry` does.
    pub fn retry(&mut self, txn: TxnId) -> Result<Outcome, Fault>
        ensures step { IsStep exact_rule self.old.core.state (Retry txn)
            (answer_with outcome_answer result) self.new.core.state }
        ensures forgotten { self.new.forgotten ≡ self.old.forgotten }
    {
        self.core.may_retry(txn)?;
        self.past.reserve()?;
        let outcome = self.core.retry_in_full(txn)?;
        Ok(self.past.add_outcome(txn, outcome))
    }

    /// Forgets the call that a transaction waits for, as `Core::drop_ask` does.
    pub fn drop_ask(&mut self, txn: TxnId) -> Result<(), Fault>
        ensures step { IsStep exact_rule
            self.old.core.state (DropAsk txn) (answer_with (λ done. Dropped) result)
            self.new.core.state }
        ensures forgotten { self.new.forgotten ≡ self.old.forgotten }
    {
        self.core.drop_ask(txn)
    }

    /// Commits a transaction, as `Core::commit` does.
    pub fn commit(&mut self, txn: TxnId) -> Result<(), Fault>
        ensures step { IsStep exact_rule
            self.old.core.state (Commit txn) (answer_with (λ done. Committed) result)
            self.new.core.state }
        ensures forgotten { self.new.forgotten ≡ self.old.forgotten }
    {
        let freed = self.freed_by_commit(txn);
        self.core.commit(txn)?;
        self.past.tell(Event::Commit { txn });
        self.past.give_back(freed);
        Ok(())
    }

    /// Returns how many calls can no longer be undone once a transaction has committed: at the top
    /// level those that it owns, and below it none.
    fn freed_by_commit(&self, txn: TxnId) -> u64
        ensures { result ≡ freed_by_commit self.now.core.state txn }
    {
        match self.core.parent(txn) {
            Some(_) => 0,
            None => self.core.count_owned(txn),
        }
    }

    /// Aborts a transaction with all that is live below it, as `Core::abort` does.
    pub fn abort(&mut self, txn: TxnId) -> Result<u64, Fault>
        ensures step { IsStep exact_rule self.old.core.state (Abort txn)
            (answer_with Aborted result) self.new.core.state }
        ensures forgotten { self.new.forgotten ≡ self.old.forgotten }

        // If it ran alone, the tree is that of its begin.
        ensures alone { RestoresIfAlone self.old.core.state self.new.core.state txn result }
    {
        let FullAbort {
            transactions,
            calls,
        } = self.core.abort_in_full(txn)?;
        self.past.tell(Event::Abort { txn });
        // (those below it have ended without an event of their own)
        self.past.give_back(transactions - 1);
        self.past.give_back(calls);
        Ok(calls)
    }

    /// Undoes the last of a transaction's own standing calls, as `Core::undo_call` does.
    pub fn undo_call(&mut self, txn: TxnId) -> Result<u64, Fault>
        ensures step { IsStep exact_rule self.old.core.state (Undo txn) (answer_with Undone result)
            self.new.core.state }
        ensures forgotten { self.new.forgotten ≡ self.old.forgotten }

        // The call just made is undone, and the tree is the one before it.
        ensures just_made { RestoresIfJustMade self.old.core.state self.new.core.state txn result }
    {
        let stamp = self.core.undo_call(txn)?;
        self.past.tell(Event::Undo { stamp });
        Ok(stamp)
    }

    /// Makes the present tree the base, and forgets what has happened, as `Core::checkpoint` does.
    pub fn checkpoint(&mut self) -> Result<(), Fault>
        ensures step { IsStep exact_rule
            self.old.core.state Checkpoint (answer_with (λ done. Cleared) result)
            self.new.core.state }
        ensures ok { OnOk result (self.new.forgotten ≡ 0) }
        ensures err { OnErr result (self.new.forgotten ≡ self.old.forgotten) }
    {
        self.core.checkpoint()?;
        self.past = Record::new(self.core.alloc());
        self.since = None;
        Ok(())
    }

    /// Drops places of the tree that are of no use any more, as `Core::sweep` does.
    pub fn sweep(&mut self) -> u64
        ensures same { self.new.core.state ≡ self.old.core.state }
        ensures forgotten { self.new.forgotten ≡ self.old.forgotten }
        ensures count { places_in self.old.core.cells < 2 ^ 64 - 1
            → places_in self.old.core.cells ≡ result + places_in self.new.core.cells }
        ensures locked { EachUselessIsLocked self.old.core.state self.new.core.cells }
        ensures none_left { NoneIsLive self.old.core.state → HasNoUselessPlace self.new.core.cells }
    {
        self.core.sweep()
    }
}

// Cores that threads may share.
ghost use Rattle.std.specs.Prelude.{◌≡◌, ◌≤◌, ◌<◌, ◌+◌, ◌-◌, ◌^◌, ℕ, Bool, true, false, Option, Some, None, cond, length};
ghost use Rattle.ft_tree.specs.Tidy.{tidy};
ghost use Rattle.ft_forest.specs.declared.TheConstants.{LAST_NUMBER as last_number};
ghost use Rattle.ft_core.specs.declared.request.Request.TheVariants.{Begin, Sub, Ask, Retry, Drop as DropAsk, Commit};
ghost use Rattle.ft_core.specs.declared.request.Answer.TheVariants.{Txn, Dropped, Committed, Aborted, Undone};
ghost use Rattle.ft_core.specs.Journals.{IsBaseTree};
ghost use Rattle.ft_core.specs.States.{StoredState, at_base};
ghost use Rattle.ft_core.specs.Steps.{IsStep, exact_rule, answer_with, outcome_answer};
ghost use Rattle.ft_core.specs.Sweeps.{HasNoUselessPlace};
ghost use Rattle.ft_shared.specs.Guarded.{IsAborted, IsUndone};
ghost use Rattle.ft_shared.specs.Sharing.{events_kept};

use ft_calls::Call;
use ft_core::{Core, Event, Fault, Outcome, TxnId};
use ft_record::{Recent, Recorded};
use ft_tree::Tree;

/// A core that threads may share, with what it keeps of what has happened. A `Core` keeps nothing,
/// a `Recent` what came since it last forgot, a `Recorded` all.
pub trait Shareable {
    // Its core.
    ghost stored: { Self → StoredState };

    // How many events since its base it has forgotten; none if it keeps no events.
    ghost forgotten: { Self → Option ℕ };

    // Whether it forgets events when it is asked to.
    ghost forgets: { Bool };

    // Whether it knows the tree of its base.
    ghost knows_base: { Self → Type 0 };

    /// Returns the core, for what only looks at it.
    fn core(&self) -> &Core
        ensures { result.now ≡ stored self.now };

    /// Returns the events that it keeps, in order: those since it last forgot.
    fn events(&self) -> &[Event]
        ensures { result.now ≡ events_kept (forgotten self.now) (stored self.now).state };

    /// Returns the tree of the base, in which no place is of no use.
    fn base(&self) -> &Tree
        requires { knows_base self.now }
        ensures tree { tidy result.now ≡ (stored self.now).state.base.tree }
        ensures base { IsBaseTree result.now (stored self.now).state.base.last_stamp }
        ensures last { (stored self.now).state.base.last_stamp ≤ last_number }
        ensures bare { HasNoUselessPlace result.now };

    /// Forgets what has happened, if it ever forgets, and returns whether it does. Takes no memory.
    fn forget(&mut self) -> bool
        ensures core { stored self.new ≡ stored self.old }
        ensures told { result ≡ forgets }
        ensures forgotten { forgotten self.new
            ≡ cond result (Some (length (stored self.old).state.events)) (forgotten self.old) };

    /// Begins a top-level transaction, as `Core::begin` does.
    fn begin(&mut self) -> Result<TxnId, Fault>
        ensures step { IsStep exact_rule (stored self.old).state Begin (answer_with Txn result)
            (stored self.new).state }
        ensures forgotten { forgotten self.new ≡ forgotten self.old };

    /// Begins a subtransaction, as `Core::sub` does.
    fn sub(&mut self, parent: TxnId) -> Result<TxnId, Fault>
        ensures step { IsStep exact_rule (stored self.old).state (Sub parent)
            (answer_with Txn result) (stored self.new).state }
        ensures forgotten { forgotten self.new ≡ forgotten self.old };

    /// Makes a call, as `Core::ask` does.
    fn ask(&mut self, txn: TxnId, call: Call) -> Result<Outcome, Fault>
        ensures step { IsStep exact_rule (stored self.old).state (Ask txn call)
            (answer_with outcome_answer result) (stored self.new).state }
        ensures forgotten { forgotten self.new ≡ forgotten self.old };

    /// Makes a copy of a call, as `Core::ask_copy` does.
    fn ask_copy(&mut self, txn: TxnId, call: &Call) -> Result<Outcome, Fault>
        ensures step { IsStep exact_rule (stored self.old).state (Ask txn call.now)
            (answer_with outcome_answer result) (stored self.new).state }
        ensures forgotten { forgotten self.new ≡ forgotten self.old };

    /// Makes the call that a transaction waits for, as `Core::retry` does.
    fn retry(&mut self, txn: TxnId) -> Result<Outcome, Fault>
        ensures step { IsStep exact_rule (stored self.old).state (Retry txn)
            (answer_with outcome_answer result) (stored self.new).state }
        ensures forgotten { forgotten self.new ≡ forgotten self.old };

    /// Forgets the call that a transaction waits for, as `Core::drop_ask` does.
    fn drop_ask(&mut self, txn: TxnId) -> Result<(), Fault>
        ensures step { IsStep exact_rule
            (stored self.old).state (DropAsk txn) (answer_with (λ done. Dropped) result)
            (stored self.new).state }
        ensures forgotten { forgotten self.new ≡ forgotten self.old };

    /// Commits a transaction, as `Core::commit` does.
    fn commit(&mut self, txn: TxnId) -> Result<(), Fault>
        ensures step { IsStep exact_rule
            (stored self.old).state (Commit txn) (answer_with (λ done. Committed) result)
            (stored self.new).state }
        ensures forgotten { forgotten self.new ≡ forgotten self.old };

    /// Aborts a transaction, as `Core::abort` does.
    fn abort(&mut self, txn: TxnId) -> Result<u64, Fault>
        ensures step { IsAborted (stored self.old).state txn (answer_with Aborted result)
            (stored self.new).state }
        ensures forgotten { forgotten self.new ≡ forgotten self.old };

    /// Undoes a transaction's last call, as `Core::undo_call` does.
    fn undo_call(&mut self, txn: TxnId) -> Result<u64, Fault>
        ensures step { IsUndone (stored self.old).state txn (answer_with Undone result)
            (stored self.new).state }
        ensures forgotten { forgotten self.new ≡ forgotten self.old };

    /// Drops places of the tree that are of no use any more, as `Core::sweep` does.
    fn sweep(&mut self) -> u64
        ensures state { (stored self.new).state ≡ (stored self.old).state }
        ensures forgotten { forgotten self.new ≡ forgotten self.old };
}

impl Shareable for Core {
    ghost stored = { λ core. core };

    ghost forgotten = { λ _. None };

    ghost forgets = { false };

    // Nothing has happened since.
    ghost knows_base = { λ core. core.state
        ≡ at_base core.state.rule core.state.limits core.state.base };

    fn core(&self) -> &Core {
        self
    }

    fn events(&self) -> &[Event] {
        &[]
    }

    fn base(&self) -> &Tree {
        self.tree()
    }

    fn forget(&mut self) -> bool {
        false
    }

    fn begin(&mut self) -> Result<TxnId, Fault> {
        self.begin()
    }

    fn sub(&mut self, parent: TxnId) -> Result<TxnId, Fault> {
        self.sub(parent)
    }

    fn ask(&mut self, txn: TxnId, call: Call) -> Result<Outcome, Fault> {
        self.ask(txn, call)
    }

    fn ask_copy(&mut self, txn: TxnId, call: &Call) -> Result<Outcome, Fault> {
        self.ask_copy(txn, call)
    }

    fn retry(&mut self, txn: TxnId) -> Result<Outcome, Fault> {
        self.retry(txn)
    }

    fn drop_ask(&mut self, txn: TxnId) -> Result<(), Fault> {
        self.drop_ask(txn)
    }

    fn commit(&mut self, txn: TxnId) -> Result<(), Fault> {
        self.commit(txn)
    }

    #[tactic(auto, using(crate::proofs::Ends::aborted_is))]
    fn abort(&mut self, txn: TxnId) -> Result<u64, Fault> {
        self.abort(txn)
    }

    fn undo_call(&mut self, txn: TxnId) -> Result<u64, Fault> {
        self.undo_call(txn)
    }

    fn sweep(&mut self) -> u64 {
        self.sweep()
    }
}

impl Shareable for Recent {
    ghost stored = { λ recent. recent.core };

    ghost forgotten = { λ recent. Some recent.forgotten };

    ghost forgets = { true };

    // Nothing has happened since.
    ghost knows_base = { λ recent. recent.core.state
        ≡ at_base recent.core.state.rule recent.core.state.limits recent.core.state.base };

    fn core(&self) -> &Core {
        self.core()
    }

    fn events(&self) -> &[Event] {
        self.events()
    }

    fn base(&self) -> &Tree {
        self.core().tree()
    }

    fn forget(&mut self) -> bool {
        self.forget();
        true
    }

    fn begin(&mut self) -> Result<TxnId, Fault> {
        self.begin()
    }

    fn sub(&mut self, parent: TxnId) -> Result<TxnId, Fault> {
        self.sub(parent)
    }

    fn ask(&mut self, txn: TxnId, call: Call) -> Result<Outcome, Fault> {
        self.ask(txn, call)
    }

    fn ask_copy(&mut self, txn: TxnId, call: &Call) -> Result<Outcome, Fault> {
        self.ask_copy(txn, call)
    }

    fn retry(&mut self, txn: TxnId) -> Result<Outcome, Fault> {
        self.retry(txn)
    }

    fn drop_ask(&mut self, txn: TxnId) -> Result<(), Fault> {
        self.drop_ask(txn)
    }

    fn commit(&mut self, txn: TxnId) -> Result<(), Fault> {
        self.commit(txn)
    }

    #[tactic(auto, using(crate::proofs::Ends::aborted_is))]
    fn abort(&mut self, txn: TxnId) -> Result<u64, Fault> {
        self.abort(txn)
    }

    fn undo_call(&mut self, txn: TxnId) -> Result<u64, Fault> {
        self.undo_call(txn)
    }

    fn sweep(&mut self) -> u64 {
        self.sweep()
    }
}

impl Shareable for Recorded {
    ghost stored = { λ core. core };

    ghost forgotten = { λ _. Some 0 };

    ghost forgets = { false };

    ghost knows_base = { λ _. Unit {0} };

    fn core(&self) -> &Core {
        self.core()
    }

    fn events(&self) -> &[Event] {
        self.history()
    }

    fn base(&self) -> &Tree {
        self.base()
    }

    fn forget(&mut self) -> bool {
        false
    }

    fn begin(&mut self) -> Result<TxnId, Fault> {
        self.begin()
    }

    fn sub(&mut self, parent: TxnId) -> Result<TxnId, Fault> {
        self.sub(parent)
    }

    fn ask(&mut self, txn: TxnId, call: Call) -> Result<Outcome, Fault> {
        self.ask(txn, call)
    }

    fn ask_copy(&mut self, txn: TxnId, call: &Call) -> Result<Outcome, Fault> {
        self.ask_copy(txn, call)
    }

    fn retry(&mut self, txn: TxnId) -> Result<Outcome, Fault> {
        self.retry(txn)
    }

    fn drop_ask(&mut self, txn: TxnId) -> Result<(), Fault> {
        self.drop_ask(txn)
    }

    fn commit(&mut self, txn: TxnId) -> Result<(), Fault> {
        self.commit(txn)
    }

    #[tactic(auto, using(crate::proofs::Ends::aborted_is))]
    fn abort(&mut self, txn: TxnId) -> Result<u64, Fault> {
        self.abort(txn)
    }

    fn undo_call(&mut self, txn: TxnId) -> Result<u64, Fault> {
        self.undo_call(txn)
    }

    fn sweep(&mut self) -> u64 {
        self.sweep()
    }
}

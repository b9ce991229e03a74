// A core that keeps what has happened.
ghost use Rattle.std.specs.Prelude.{◌≡◌, ◌<◌, ◌≤◌, ◌+◌, ◌-◌, ◌^◌, true, cond, MatchBool, OnOk, OnErr, IfOk, IfErr};
ghost use Rattle.ft_tree.specs.Tidy.{tidy};
ghost use Rattle.ft_tree.specs.Sound.{IsSoundTree, AreSoundCells};
ghost use Rattle.ft_tree.specs.Sweep.{places_in};
ghost use Rattle.ft_forest.specs.declared.TheConstants.{LAST_NUMBER as last_number};
ghost use Rattle.ft_lock_rules.specs.declared.rule.Rule.TheVariants.{Profile};
ghost use Rattle.ft_core.specs.declared.request.Request.TheVariants.{Begin, Sub, Ask, Retry, Drop as DropAsk, Commit, Abort, Undo, Checkpoint};
ghost use Rattle.ft_core.specs.declared.request.Answer.TheVariants.{Txn, Dropped, Committed, Aborted, Undone, Cleared};
ghost use Rattle.ft_core.specs.declared.fault.Fault.TheVariants.{Memory as MemoryFault, BadLimits};
ghost use Rattle.ft_core.specs.Limits.{default_limits, greatest_limits, are_within};
ghost use Rattle.ft_core.specs.States.{at_base, first_state, limits_of, has_live, fate_in, fate_of, history};
ghost use Rattle.ft_posix.specs.Posix.{posix_calls};
ghost use Rattle.ft_history.specs.History.{parent as parent_of};
ghost use Rattle.ft_core.specs.Journals.{IsBaseTree};
ghost use Rattle.ft_core.specs.Living.{SomeIsLive, NoneIsLive};
ghost use Rattle.ft_core.specs.Promises.{IsHeadline, RestoresIfAlone, RestoresIfJustMade};
ghost use Rattle.ft_core.specs.Reached.{IsReached};
ghost use Rattle.ft_core.specs.Steps.{IsStep, exact_rule, answer_with, outcome_answer};
ghost use Rattle.ft_core.specs.Sweeps.{HasNoUselessPlace, EachUselessIsLocked};

use crate::recent::Recent;
use ft_base::Memory;
use ft_calls::Call;
use ft_core::laws::reached;
use ft_core::{Core, Event, Fault, Limits, Outcome, Rule, State, TxnId};
use ft_tree::Tree;
use std::alloc::Global;
use std::marker::Model;

/// A core with what has happened since its base, and the tree of the base.
///
/// Clauses see of it what they see of a core.
pub struct Recorded {
    recent: Recent,
    base: Tree,
}

impl Drop for Recorded {
    fn drop(self) {
        let Recorded { recent: _, base: _ } = self;
    }
}

impl Model for Recorded {
    ghost use Rattle.ft_core.specs.States.{StoredState, coded_stored};
    ghost use Rattle.ft_record.specs.Recorded.{IsRecorded};

    ghost Value = { StoredState };

    ghost coded = { coded_stored };

    ghost view = { λ a. a.recent.core };

    ghost invariant = { λ a. IsRecorded a.recent a.base };
}

impl Recorded {
    /// Returns a core over the empty tree, which is only the root. Its rule is `Rule::Profile`, and
    /// its limits are the default ones.
    pub fn new(alloc: Global) -> Result<Recorded, Memory>
        ensures { IfOk result (λ core. core.state ≡ first_state Profile default_limits) }
    {
        Recorded::with_rule(alloc, Rule::Profile)
    }

    /// Returns a core over the empty tree that grants calls by this rule. Its limits are the
    /// default ones.
    pub fn with_rule(alloc: Global, rule: Rule) -> Result<Recorded, Memory>
        ensures { IfOk result (λ core. core.state ≡ first_state rule default_limits) }
    {
        let core = Core::with_rule(alloc, rule)?;
        Recorded::of(core)
    }

    /// Returns a core over the empty tree that grants calls by this rule, with these limits.
    ///
    /// Refuses BadLimits if one of them is above the greatest, and then Memory.
    pub fn with(alloc: Global, rule: Rule, limits: Limits) -> Result<Recorded, Fault>
        ensures state { IfOk result (λ core. core.state ≡ first_state rule limits) }
        ensures within { OnOk result (are_within limits greatest_limits ≡ true) }
        ensures refused { IfErr result
            (λ fault. fault ≡ cond (are_within limits greatest_limits) MemoryFault BadLimits) }
    {
        let core = Core::with(alloc, rule, limits)?;
        let recorded = Recorded::of(core)?;
        Ok(recorded)
    }

    /// Returns a core on which nothing has happened since its base, with a record from there on.
    pub fn of(core: Core) -> Result<Recorded, Memory>
        requires { core.state ≡ at_base core.state.rule core.state.limits core.state.base }
        ensures { IfOk result (λ recorded. recorded.state ≡ core.state) }
    {
        let base = core.tree().copy()?;
        let recent = Recent::of(core);
        Ok(Recorded { recent, base })
    }

    /// Returns the core, as it is now, and forgets what has happened.
    pub fn into_core(self) -> Core
        ensures { result ≡ self }
    {
        let Recorded { recent, base: _ } = self;
        recent.into_core()
    }

    /// Returns the allocator of its memory.
    pub fn alloc(&self) -> Global {
        self.core().alloc()
    }

    /// Returns by which rule calls are granted. It never changes.
    pub fn rule(&self) -> Rule
        ensures { result ≡ self.now.state.rule }
    {
        self.core().rule()
    }

    /// Returns the limits of the core. They never change.
    pub fn limits(&self) -> Limits
        ensures are { result ≡ limits_of self.now.state }
        ensures within { are_within result greatest_limits ≡ true }
    {
        self.core().limits()
    }

    /// Returns whether a transaction is live.
    pub fn has_live(&self) -> bool
        ensures found { MatchBool result (SomeIsLive self.now.state) (NoneIsLive self.now.state) }
        ensures listed { result ≡ has_live self.now.state }
    {
        self.core().has_live()
    }

    /// Returns the state of a transaction, if there is one of this number since the base.
    pub fn fate(&self, txn: TxnId) -> Option<State>
        ensures { fate_in result ≡ fate_of self.now.state txn }
    {
        self.core().fate(txn)
    }

    /// Returns the parent of a subtransaction; none of a top-level one, nor if there is no
    /// transaction of this number since the base.
    pub fn parent(&self, txn: TxnId) -> Option<TxnId>
        ensures { result ≡ parent_of posix_calls (history self.now.state) txn }
    {
        self.core().parent(txn)
    }

    /// Returns the core, for what only looks at it.
    pub fn core(&self) -> &Core
        ensures { result.now ≡ self.now }
    {
        self.recent.core()
    }

    /// Begins a top-level transaction, as `Core::begin` does.
    pub fn begin(&mut self) -> Result<TxnId, Fault>
        ensures { IsStep exact_rule self.old.state Begin (answer_with Txn result) self.new.state }
    {
        self.recent.begin()
    }

    /// Begins a subtransaction, as `Core::sub` does.
    pub fn sub(&mut self, txn: TxnId) -> Result<TxnId, Fault>
        ensures { IsStep exact_rule self.old.state (Sub txn) (answer_with Txn result)
            self.new.state }
    {
        self.recent.sub(txn)
    }

    /// Makes a call in a transaction, or returns which transactions it waits for, as `Core::ask`
    /// does.
    pub fn ask(&mut self, txn: TxnId, call: Call) -> Result<Outcome, Fault>
        ensures { IsStep exact_rule self.old.state (Ask txn call)
            (answer_with outcome_answer result) self.new.state }
    {
        self.recent.ask(txn, call)
    }

    /// Makes a copy of a call, as `ask` makes the call.
    pub fn ask_copy(&mut self, txn: TxnId, call: &Call) -> Result<Outcome, Fault>
        ensures { IsStep exact_rule self.old.state (Ask txn call.now)
            (answer_with outcome_answer result) self.new.state }
    {
        self.recent.ask_copy(txn, call)
    }

    /// Makes the call that a transaction waits for, or returns again which transactions it waits
    /// for, as `Core::retry` does.
    pub fn retry(&mut self, txn: TxnId) -> Result<Outcome, Fault>
        ensures { IsStep exact_rule self.old.state (Retry txn) (answer_with outcome_answer result)
            self.new.state }
    {
        self.recent.retry(txn)
    }

    /// Forgets the call that a transaction waits for, as `Core::drop_ask` does.
    pub fn drop_ask(&mut self, txn: TxnId) -> Result<(), Fault>
        ensures { IsStep exact_rule
            self.old.state (DropAsk txn) (answer_with (λ done. Dropped) result) self.new.state }
    {
        self.recent.drop_ask(txn)
    }

    /// Commits a transaction, as `Core::commit` does.
    pub fn commit(&mut self, txn: TxnId) -> Result<(), Fault>
        ensures { IsStep exact_rule
            self.old.state (Commit txn) (answer_with (λ done. Committed) result) self.new.state }
    {
        self.recent.commit(txn)
    }

    /// Aborts a transaction with all that is live below it, as `Core::abort` does.
    pub fn abort(&mut self, txn: TxnId) -> Result<u64, Fault>
        ensures step { IsStep exact_rule self.old.state (Abort txn) (answer_with Aborted result)
            self.new.state }

        // If it ran alone, the tree is that of its begin.
        ensures alone { RestoresIfAlone self.old.state self.new.state txn result }
    {
        self.recent.abort(txn)
    }

    /// Undoes the last of a transaction's own standing calls, as `Core::undo_call` does.
    pub fn undo_call(&mut self, txn: TxnId) -> Result<u64, Fault>
        ensures step { IsStep exact_rule self.old.state (Undo txn) (answer_with Undone result)
            self.new.state }

        // The call just made is undone, and the tree is the one before it.
        ensures just_made { RestoresIfJustMade self.old.state self.new.state txn result }
    {
        self.recent.undo_call(txn)
    }

    /// Makes the present tree the base, and forgets what has happened, as `Core::checkpoint` does.
    /// Takes the memory and the time of a copy of the tree.
    pub fn checkpoint(&mut self) -> Result<(), Fault>
        ensures { IsStep exact_rule self.old.state Checkpoint (answer_with (λ done. Cleared) result)
            self.new.state }
    {
        self.recent.core().may_checkpoint()?;
        // (what is of no use is not copied)
        self.recent.sweep();
        let base = self.recent.core().tree().copy()?;
        self.recent.checkpoint()?;
        self.base = base;
        Ok(())
    }

    /// Drops places of the tree that are of no use any more, as `Core::sweep` does.
    pub fn sweep(&mut self) -> u64
        ensures same { self.new.state ≡ self.old.state }
        ensures count { places_in self.old.cells < 2 ^ 64 - 1
            → places_in self.old.cells ≡ result + places_in self.new.cells }
        ensures locked { EachUselessIsLocked self.old.state self.new.cells }
        ensures none_left { NoneIsLive self.old.state → HasNoUselessPlace self.new.cells }
    {
        self.recent.sweep()
    }

    /// Returns the tree.
    pub fn tree(&self) -> &Tree
        ensures stored { result.now ≡ self.now.cells }
        ensures headline { IsHeadline self.now.state result.now }
        ensures sound { AreSoundCells result.now }
        ensures plain_sound { IsSoundTree (tidy result.now) }
    {
        self.core().tree()
    }

    /// Returns the tree of the base: only the root, until a checkpoint. No number above the base's
    /// last stamp is in it, and that stamp is no greater than `LAST_NUMBER`. No place in it is of
    /// no use.
    pub fn base(&self) -> &Tree
        ensures tree { tidy result.now ≡ self.now.state.base.tree }
        ensures base { IsBaseTree result.now self.now.state.base.last_stamp }
        ensures last { self.now.state.base.last_stamp ≤ last_number }
        ensures bare { HasNoUselessPlace result.now }
    {
        &self.base
    }

    /// Returns the events since the base, in order: a legal history from a sound tree.
    pub fn history(&self) -> &[Event]
        ensures events { result.now ≡ self.now.state.events }
        ensures reached { IsReached self.now }
    {
        reached(self.core());
        self.recent.events()
    }
}

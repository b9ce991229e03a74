// The core: nested transactions over one tree.
ghost use Rattle.std.specs.Prelude.{◌≡◌, ◌<◌, ◌≤◌, ◌+◌, [], true, cond, Some, None, Option, MatchBool, IfOk, IfErr, OnOk, OnErr};
ghost use Rattle.ft_body.specs.declared.TheConstants.{LARGEST_SIZE};
ghost use Rattle.ft_tree.specs.Tidy.{tidy};
ghost use Rattle.ft_forest.specs.declared.TheConstants.{LAST_NUMBER as last_number};
ghost use Rattle.ft_tree.specs.Sound.{IsSoundTree, AreSoundCells};
ghost use Rattle.ft_core.specs.declared.fault.Fault.{Fault as FaultOf};
ghost use Rattle.ft_core.specs.declared.fault.Fault.TheVariants.{Memory as MemoryFault, BadLimits};
ghost use Rattle.ft_lock_rules.specs.declared.rule.Rule.TheVariants.{Profile};
ghost use Rattle.ft_posix.specs.Posix.{posix_calls};
ghost use Rattle.ft_history.specs.History.{parent as parent_of};
ghost use Rattle.ft_history.specs.History.Fate.{Live};
ghost use Rattle.ft_core.specs.declared.request.Request.TheVariants.{Begin, Sub, Drop as DropAsk};
ghost use Rattle.ft_core.specs.declared.request.Answer.TheVariants.{Txn, Dropped};
ghost use Rattle.ft_core.specs.Limits.{default_limits, greatest_limits, are_within};
ghost use Rattle.ft_core.specs.States.{first_state, limits_of, fate_in, fate_of, has_live, history, next_txn, after_begin};
ghost use Rattle.ft_core.specs.Journals.{IsBaseTree};
ghost use Rattle.ft_core.specs.Living.{SomeIsLive, NoneIsLive};
ghost use Rattle.ft_core.specs.Promises.{IsHeadline};
ghost use Rattle.ft_core.specs.Reached.{IsReached};
ghost use Rattle.ft_core.specs.Sweeps.{HasNoUselessPlace};
ghost use Rattle.ft_core.specs.Steps.{IsStep, exact_rule, fault_of_fate, answer_with, refusal_of, refused_with, begin_request};
ghost use Rattle.ft_core.specs.Opens.{AreAsBefore, IsOpenFor, add_refusal};
ghost use Rattle.ft_forest.specs.Transactions.{last_in, HasBegun};
ghost use Rattle.ft_forest.specs.Refusals.{IsRefusal};

use crate::fault::Fault;
use crate::journal::{Journal, Terms};
use crate::limits::Limits;
use crate::memo::Memo;
use crate::parts::Parts;
use ft_base::Memory;
use ft_forest::{Forest, ForestFault, ForestLimits, State, TxnId};
use ft_lock_rules::Rule;
use ft_locks::Locks;
use ft_tree::{Tree, TreeLimits};
use ft_undo::Logs;
use std::alloc::Global;
use std::marker::Model;

/// A tree with its transactions.
///
/// Clauses see its state: the base, what has happened since, the pending asks and the last numbers.
/// Its tree is that of its state: what a plain tree holds after only the standing calls, in the
/// order of their stamps.
pub struct Core {
    pub(crate) alloc: Global,
    /// The hashes of cells and names are mixed with it.
    pub(crate) seed: u64,
    pub(crate) journal: Journal,
    pub(crate) parts: Parts,
    pub(crate) memo: Memo,
}

impl Drop for Core {
    fn drop(self) {
        let Core {
            alloc: _,
            seed: _,
            journal: _,
            parts: _,
            memo: _,
        } = self;
    }
}

impl Model for Core {
    ghost use Rattle.ft_core.specs.States.{StoredState, coded_stored};
    ghost use Rattle.ft_core.specs.Journals.{state_of};
    ghost use Rattle.ft_core.specs.Kept.{IsCoreOf};
    ghost use Rattle.ft_core.specs.Memos.{IsTrueOf};

    ghost Value = { StoredState };

    ghost coded = { coded_stored };

    ghost view = { λ a. record {
      state = state_of a.parts.forest a.journal;
      cells = a.parts.tree;
    } };

    ghost invariant = { λ a. IsCoreOf (state_of a.parts.forest a.journal) a.parts a.journal
        × IsTrueOf a.memo a.parts.tree a.parts.locks };
}

impl Core {
    /// Returns a core over the empty tree, which is only the root. Its rule is `Rule::Profile`, and
    /// its limits are the default ones.
    pub fn new(alloc: Global) -> Result<Core, Memory>
        ensures { IfOk result (λ core. core.state ≡ first_state Profile default_limits) }
    {
        Core::with_rule(alloc, Rule::Profile)
    }

    /// Returns a core over the empty tree that grants calls by this rule. Its limits are the
    /// default ones.
    pub fn with_rule(alloc: Global, rule: Rule) -> Result<Core, Memory>
        ensures { IfOk result (λ core. core.state ≡ first_state rule default_limits) }
    {
        Core::within(alloc, rule, Limits::default())
    }

    /// Returns a core over the empty tree that grants calls by this rule, with these limits.
    ///
    /// Refuses BadLimits if one of them is above the greatest, and then Memory.
    pub fn with(alloc: Global, rule: Rule, limits: Limits) -> Result<Core, Fault>
        ensures state { IfOk result (λ core. core.state ≡ first_state rule limits) }
        ensures within { OnOk result (are_within limits greatest_limits ≡ true) }
        ensures refused { IfErr result
            (λ fault. fault ≡ cond (are_within limits greatest_limits) MemoryFault BadLimits) }
    {
        if !limits.are_within(&Limits::greatest()) {
            return Err(Fault::BadLimits);
        }
        let core = Core::within(alloc, rule, limits)?;
        Ok(core)
    }

    /// Returns a core over the empty tree with limits that it may have.
    fn within(alloc: Global, rule: Rule, limits: Limits) -> Result<Core, Memory>
        requires { are_within limits greatest_limits ≡ true }
        ensures { IfOk result (λ core. core.state ≡ first_state rule limits) }
    {
        let tree = Tree::with_limits(alloc, limits.of_tree())?;
        let terms = Terms {
            rule,
            calls: limits.calls,
        };
        let journal = Journal::new(alloc, terms, &tree, 1);
        let memo = Memo::new(alloc);
        Ok(Core {
            alloc,
            seed: 0,
            journal,
            parts: Parts {
                tree,
                forest: Forest::new(alloc, 0, limits.of_forest()),
                locks: Locks::new(alloc),
                logs: Logs::new(alloc),
            },
            memo,
        })
    }

    /// Mixes a number into the hashes by which cells and names are found, so that whoever can't
    /// guess it can't choose names that collide. It is to be called before the first request: later
    /// it may change nothing. Nothing is seen of it.
    pub fn seed(&mut self, seed: u64)
        ensures { self.new ≡ self.old }
    {
        self.seed = seed;
        self.parts.tree.seed(seed);
        self.parts.locks.seed(seed);
    }

    /// Returns the allocator of its memory. The contract is what is true of every core.
    pub fn alloc(&self) -> Global
        ensures { IsReached self.now }
    {
        self.alloc
    }

    /// Returns by which rule calls are granted. It never changes.
    pub fn rule(&self) -> Rule
        ensures { result ≡ self.now.state.rule }
    {
        self.journal.rule()
    }

    /// Returns the limits of the core. They never change.
    pub fn limits(&self) -> Limits
        ensures are { result ≡ limits_of self.now.state }
        ensures within { are_within result greatest_limits ≡ true }
        ensures size { result.file_size ≤ LARGEST_SIZE }
    {
        let TreeLimits { file_size, links } = self.parts.tree.limits();
        let ForestLimits {
            transactions,
            depth,
        } = self.parts.forest.limits();
        Limits {
            file_size,
            links,
            depth,
            transactions,
            calls: self.journal.terms().calls,
        }
    }

    /// Begins a top-level transaction.
    ///
    /// Refuses Full if there are as many transactions as there may be.
    pub fn begin(&mut self) -> Result<TxnId, Fault>
        ensures { IsStep exact_rule self.old.state Begin (answer_with Txn result) self.new.state }
    {
        self.may_begin()?;
        self.start(None)
    }

    /// Refuses what `begin` refuses, except for being out of memory.
    pub fn may_begin(&self) -> Result<(), Fault>
        ensures { refusal_of self.now.state Begin ≡ refused_with result }
    {
        self.parts.forest.check_begin()?;
        Ok(())
    }

    /// Refuses what `sub` refuses, in its order, except for being out of memory.
    pub fn may_sub(&self, txn: TxnId) -> Result<(), Fault>
        ensures { refusal_of self.now.state (Sub txn) ≡ refused_with result }
    {
        self.parts.forest.check_sub(txn)?;
        Ok(())
    }

    /// Begins a subtransaction.
    ///
    /// Refuses NoTxn, Ended, Deep if the parent is as deep as one may be, and Full, in this order.
    pub fn sub(&mut self, txn: TxnId) -> Result<TxnId, Fault>
        ensures { IsStep exact_rule self.old.state (Sub txn) (answer_with Txn result)
            self.new.state }
    {
        self.may_sub(txn)?;
        self.start(Some(txn))
    }

    /// Forgets the call that a transaction waits for. Takes no memory.
    ///
    /// Refuses NoTxn, Ended and NoAsk, in this order.
    pub fn drop_ask(&mut self, txn: TxnId) -> Result<(), Fault>
        ensures { IsStep exact_rule
            self.old.state (DropAsk txn) (answer_with (λ done. Dropped) result) self.new.state }
    {
        self.check_live(txn)?;
        if self.journal.pending(txn).is_none() {
            return Err(Fault::NoAsk);
        }
        self.journal.drop_ask(txn);
        Ok(())
    }

    /// Returns the tree. Tidied it is what a plain tree holds after only the standing calls, each
    /// with the reply that it got. If nothing has happened since the base, no place in it is of no
    /// use.
    pub fn tree(&self) -> &Tree
        ensures stored { result.now ≡ self.now.cells }
        ensures headline { IsHeadline self.now.state result.now }
        ensures sound { AreSoundCells result.now }
        ensures base { IsBaseTree result.now self.now.state.last_stamp }
        ensures last { self.now.state.last_stamp ≤ last_number }
        ensures plain_sound { IsSoundTree (tidy result.now) }
        ensures bare { self.now.state.events ≡ [] → HasNoUselessPlace result.now }
    {
        &self.parts.tree
    }

    /// Returns whether a transaction is live.
    pub fn has_live(&self) -> bool
        ensures found { MatchBool result (SomeIsLive self.now.state) (NoneIsLive self.now.state) }
        ensures listed { result ≡ has_live self.now.state }
    {
        self.parts.forest.youngest_child(None).is_some()
    }

    /// Returns the state of a transaction, if there is one of this number since the base.
    pub fn fate(&self, txn: TxnId) -> Option<State>
        ensures { fate_in result ≡ fate_of self.now.state txn }
    {
        self.parts.forest.state(txn)
    }

    /// Returns the parent of a subtransaction; none of a top-level one, nor if there is no
    /// transaction of this number since the base.
    pub fn parent(&self, txn: TxnId) -> Option<TxnId>
        ensures { result ≡ parent_of posix_calls (history self.now.state) txn }
    {
        self.parts.forest.parent(txn)
    }

    /// Refuses a transaction that is not live.
    pub(crate) fn check_live(&self, txn: TxnId) -> Result<(), Fault>
        ensures live { OnOk result (fate_of self.now.state txn ≡ Some Live) }
        ensures refused { IfErr result
            (λ fault. (later : Option FaultOf)
            → fault_of_fate (fate_of self.now.state txn) later ≡ Some fault) }
    {
        match self.fate(txn) {
            None => Err(Fault::NoTxn),
            Some(State::Live) => Ok(()),
            Some(State::Committed | State::Aborted) => Err(Fault::Ended),
        }
    }

    /// Begins a transaction if there may be one more.
    fn start(&mut self, parent: Option<TxnId>) -> Result<TxnId, Fault>
        requires { refusal_of self.old.state (begin_request parent) ≡ None }
        ensures txn { IfOk result (λ txn. txn ≡ next_txn self.old.state) }
        ensures begun { OnOk result (self.new.state ≡ after_begin self.old.state parent) }
        ensures memory { IfErr result (λ fault. fault ≡ MemoryFault) }
        ensures same { OnErr result (self.new.state ≡ self.old.state) }
    {
        self.memo.forget();
        let parts = &mut self.parts;
        let next = parts.forest.last() + 1;
        open(&mut self.journal, &mut parts.locks, &mut parts.logs, next)?;
        let txn = add(&mut parts.forest, &parent)?;
        self.journal.begin(txn, parent);
        Ok(txn)
    }
}

/// Begins a transaction in the forest, at the top or below its parent.
fn add(forest: &mut Forest, parent: &Option<TxnId>) -> Result<TxnId, ForestFault>
    ensures begun { OnOk result (HasBegun forest.old forest.new parent.now) }
    ensures number { IfOk result (λ txn. txn ≡ last_in forest.old + 1) }
    ensures refused { IfErr result (IsRefusal (add_refusal forest.old parent.now)) }
    ensures same { OnErr result (forest.new ≡ forest.old) }
{
    match *parent {
        Some(up) => forest.sub(up),
        None => forest.begin(),
    }
}

/// Makes the places of a transaction that is to begin: in the journal, in the locks and in the
/// logs. If there is not enough memory, those that are made stay; nothing is seen of them.
fn open(journal: &mut Journal, locks: &mut Locks, logs: &mut Logs, next: u64) -> Result<(), Memory>
    requires { 0 < next }
    ensures same { AreAsBefore journal.old journal.new locks.old locks.new logs.old logs.new next }
    ensures ready { OnOk result (IsOpenFor journal.new locks.new logs.new next) }
{
    journal.open(next)?;
    locks.open(TxnId(next))?;
    logs.open(next)?;
    Ok(())
}

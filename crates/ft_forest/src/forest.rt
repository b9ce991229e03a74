// The transactions of a core.
ghost use Rattle.std.specs.Prelude.{◌≡◌, ◌≢◌, ◌<◌, ◌≤◌, ◌+◌, ◌^◌, ◌==◌, ℕ, false, true, Some, None, Option, IsSome, IfSome, IfNone, IfOk, IfErr, OnOk, OnErr, MatchResult, length, Contains, ◌⊎◌};
ghost use Rattle.std.specs.List.{IsDistinct};
ghost use Rattle.std.specs.List.Sorted.{IsStrictlyIncreasing};
ghost use Rattle.std.specs.Option.{option_map, ForSome};
ghost use Rattle.ft_history.specs.Forest.{IsForest};
ghost use Rattle.ft_forest.specs.declared.TheConstants.{MOST_TRANSACTIONS as most_transactions};
ghost use Rattle.ft_forest.specs.declared.fault.ForestFault.{ForestFault as FaultOf};
ghost use Rattle.ft_forest.specs.declared.fault.ForestFault.TheVariants.{Memory as MemoryFault};
ghost use Rattle.ft_forest.specs.declared.state.State.TheVariants.{Live, Committed, Aborted};
ghost use Rattle.ft_forest.specs.Transactions.{none_since, parent_in, state_in, last_in, over_in, depth_in, is_live_state, live_children_in, IsLiveChild, IsLiveUnder, HasBegun, HasEnded, HasAborted, IsNextToEnd, IsYoungestChild, Transactions, live_count, IsAborting, IsLastOf};
ghost use Rattle.ft_forest.specs.Refusals.{refusal_of, begin_refusal, sub_refusal, commit_refusal, abort_refusal, IsRefusal};
ghost use Rattle.ft_forest.specs.Records.{number_at};
ghost use Rattle.ft_forest.specs.Places.{IsDepthBelow, number_of, HasChildrenBehind};

use crate::LAST_NUMBER;
use crate::fault::ForestFault;
use crate::limits::ForestLimits;
use crate::records::Records;
use crate::state::State;
use crate::txn::TxnId;
use ft_base::Memory;
use std::alloc::Global;
use std::marker::Model;

/// The transactions begun since a base: how they are nested, and the state of each.
///
/// Their numbers continue from the base's last one. A function takes the same time however many
/// transactions there are, unless its comment says otherwise.
pub struct Forest {
    limits: ForestLimits,
    base: u64,
    records: Records,
}

/// The room for a new subtransaction: the place of its parent, and its own depth.
#[derive(Drop)]
struct Room {
    parent: usize,
    depth: u64,
}

impl Drop for Forest {
    fn drop(self) {
        let Forest {
            limits: _,
            base: _,
            records: _,
        } = self;
    }
}

impl Model for Forest {
    ghost use Rattle.ft_forest.specs.Transactions.{Transactions};
    ghost use Rattle.ft_forest.specs.Records.{transactions_of, AreRecords};

    ghost Value = { Transactions };

    ghost view = { λ a. transactions_of a.limits a.base a.records };

    ghost invariant = { λ a. AreRecords a.limits a.base a.records };
}

impl Forest {
    /// Returns a forest without transactions. `base` is the last number that was given before.
    /// Takes no memory.
    ///
    /// The caller chooses the limits: up to 2^62 transactions, and any depth.
    /// `ForestLimits::default()` allows 100,000 transactions and a depth of 64.
    pub fn new(alloc: Global, base: u64, limits: ForestLimits) -> Forest
        requires { limits.transactions ≤ most_transactions }
        ensures { result ≡ none_since limits base }
    {
        Forest {
            limits,
            base,
            records: Records::new(alloc),
        }
    }

    /// Returns the limits that the forest was made with.
    pub fn limits(&self) -> ForestLimits
        ensures { result ≡ self.now.limits }
    {
        self.limits
    }

    /// Forgets all transactions and frees their memory. None of them may be live. The numbers
    /// continue from the last one, and the limits stay. Takes no memory.
    pub fn restart(&mut self)
        requires { (x : ℕ) → state_in self.old x ≢ Some Live }
        ensures { self.new ≡ none_since self.old.limits (last_in self.old) }
    {
        let alloc = self.records.list.allocator();
        self.base = self.last();
        self.records = Records::new(alloc);
    }

    /// Returns the last transaction's number, or the base's last one if there is no transaction
    /// yet.
    pub fn last(&self) -> u64
        ensures { result ≡ last_in self.now }
    {
        self.base + self.records.list.len() as u64
    }

    /// Returns the state of a transaction, if there is one with this number since the base.
    pub fn state(&self, txn: TxnId) -> Option<State>
        ensures { result ≡ state_in self.now txn }
    {
        let place = place_of(self.base, self.records.list.len(), txn)?;
        Some(self.records.state_of(place))
    }

    /// Returns the parent of a transaction. Returns `None` for a top-level transaction, and if
    /// there is no transaction with this number.
    pub fn parent(&self, txn: TxnId) -> Option<TxnId>
        ensures parent { result ≡ parent_in self.now txn }

        // A parent was begun before its child, and is live if its child is.
        ensures forest { IsForest (parent_in self.now) }
        ensures live { (x p : ℕ) → parent_in self.now x ≡ Some p → state_in self.now x ≡ Some Live
            → state_in self.now p ≡ Some Live }
    {
        let place = place_of(self.base, self.records.list.len(), txn)?;
        numbered(self.base, self.records.parent_of(place))
    }

    /// Returns whether a transaction is `upper` or below it. Takes the time of the transaction's
    /// depth.
    pub fn is_below(&self, txn: TxnId, upper: TxnId) -> bool
        ensures { result ≡ over_in self.now upper txn }
    {
        let mut at = txn;
        while let Some(parent) = self.parent(at) {
            if at == upper {
                return true;
            }
            at = parent;
        }
        at == upper
    }

    /// Returns the number of live children of a transaction, 0 if there is no transaction with this
    /// number.
    pub fn live_children(&self, txn: TxnId) -> u64
        ensures count { result ≡ live_children_in self.now txn }
        ensures some { 0 < result → (x : ℕ) × IsLiveChild self.now txn x }
        ensures none { result ≡ 0 → (x : ℕ) → IsLiveChild self.now txn x → ⊥ }
    {
        match place_of(self.base, self.records.list.len(), txn) {
            Some(place) => self.records.children_of(place),
            None => 0,
        }
    }

    /// Returns the youngest live child of a transaction. Without a parent, it returns the youngest
    /// live top-level transaction.
    pub fn youngest_child(&self, parent: Option<TxnId>) -> Option<TxnId>
        ensures { IsYoungestChild self.now parent result }
    {
        match parent {
            Some(txn) => {
                let place = place_of(self.base, self.records.list.len(), txn)?;
                numbered(self.base, self.records.youngest_of(Some(place)))
            }
            None => numbered(self.base, self.records.youngest),
        }
    }

    /// Returns all live transactions, in rising order.
    ///
    /// Takes the time to sort them. Deep transactions take no more stack than others.
    pub fn live(&self, alloc: Global) -> Result<Vec<TxnId>, Memory>
        ensures rising { IfOk result (λ live. IsStrictlyIncreasing live.items) }
        ensures sound { IfOk result
            (λ live. (x : ℕ) → Contains live.items x → state_in self.now x ≡ Some Live) }
        ensures all { IfOk result
            (λ live. (x : ℕ) → state_in self.now x ≡ Some Live → Contains live.items x) }
    {
        let mut live = Vec::new(alloc);
        self.list_children(None, &mut live)?;
        let mut index = 0;
        while index < live.len() {
            let place = begun_place(self.base, live[index]);
            self.list_children(Some(place), &mut live)?;
            index += 1;
        }
        live.sort()?;
        Ok(live)
    }

    /// Adds the live children of the transaction at a place to a list. Without a place, it adds the
    /// live top-level transactions.
    fn list_children(&self, parent: Option<usize>, live: &mut Vec<TxnId>) -> Result<(), Memory>
        requires fresh { (x : ℕ) → IsLiveUnder self.now (number_of self.now parent) x
            → Contains live.old.items x → ⊥ }
        requires once { IsDistinct ◌==◌ live.old.items }
        ensures { OnOk result (HasChildrenBehind self.now (number_of self.now parent) live.old.items
            live.new.items) }
    {
        let mut next = self.records.youngest_of(parent);
        while let Some(place) = next {
            live.push(TxnId(self.base + 1 + place as u64))?;
            next = self.records.older_of(place);
        }
        Ok(())
    }

    /// Returns the next transaction that an abort of `txn` ends: a live one at or below `txn` that
    /// has no live child. Returns `None` if nothing at or below `txn` is live.
    ///
    /// Takes the time of its depth below `txn`. A caller that ends one after another asks at the
    /// parent of the one before. All these calls together take the time of all transactions that
    /// are ended.
    pub fn next_to_end(&self, txn: TxnId) -> Option<TxnId>
        ensures next { IfSome result (λ next. IsNextToEnd self.now txn next) }
        ensures none { IfNone result ((x : ℕ) → over_in self.now txn x ≡ true
            → state_in self.now x ≢ Some Live) }
    {
        let records = &self.records;
        let Ok(mut place) = self.live_place(txn) else {
            return None;
        };
        while let Some(child) = records.youngest_of(Some(place)) {
            place = child;
        }
        Some(TxnId(self.base + 1 + place as u64))
    }

    /// Returns the refusal of `begin`, except out of memory, and begins nothing.
    pub fn check_begin(&self) -> Result<(), ForestFault>
        ensures { MatchResult result
            (λ _. begin_refusal self.now ≡ None)
            (λ fault. begin_refusal self.now ≡ Some fault) }
    {
        let count = self.records.list.len() as u64;
        if count >= self.limits.transactions || self.last() >= LAST_NUMBER {
            return Err(ForestFault::Full);
        }
        Ok(())
    }

    /// Begins a top-level transaction, with the next number.
    ///
    /// Refuses with `Full` if there are as many transactions since the base as the limits allow. It
    /// also does so if the number 2^63 - 1 is used up. If there is not enough memory, nothing has
    /// changed.
    pub fn begin(&mut self) -> Result<TxnId, ForestFault>
        ensures begun { OnOk result (HasBegun self.old self.new None) }
        ensures number { IfOk result (λ txn. txn ≡ last_in self.old + 1) }
        ensures refused { MatchResult result
            (λ _. begin_refusal self.old ≡ None)
            (λ fault. IsRefusal (begin_refusal self.old) fault) }
        ensures same { OnErr result (self.new ≡ self.old) }
    {
        self.check_begin()?;
        self.add(None, 1)
    }

    /// Returns the refusal of `sub`, except out of memory, and begins nothing.
    pub fn check_sub(&self, txn: TxnId) -> Result<(), ForestFault>
        ensures { MatchResult result
            (λ _. sub_refusal self.now txn ≡ None)
            (λ fault. sub_refusal self.now txn ≡ Some fault) }
    {
        self.room_below(txn)?;
        Ok(())
    }

    /// Begins a subtransaction, with the next number.
    ///
    /// Refuses with `NoTxn`, `Ended`, `Deep` or `Full`, in this order. `Deep` means that the parent
    /// is as deep as the limits allow. If there is not enough memory, nothing has changed.
    pub fn sub(&mut self, txn: TxnId) -> Result<TxnId, ForestFault>
        ensures begun { OnOk result (HasBegun self.old self.new (Some txn)) }
        ensures number { IfOk result (λ child. child ≡ last_in self.old + 1) }
        ensures refused { MatchResult result
            (λ _. sub_refusal self.old txn ≡ None)
            (λ fault. IsRefusal (sub_refusal self.old txn) fault) }
        ensures same { OnErr result (self.new ≡ self.old) }
    {
        let Room { parent, depth } = self.room_below(txn)?;
        self.add(Some(parent), depth)
    }

    /// Commits a transaction, relative to its parent: an abort above it still removes its calls.
    /// Returns its parent, if it has one.
    ///
    /// Refuses with `NoTxn`, `Ended`, or `ChildLive` if it has a live child, in this order. Takes
    /// no memory.
    pub fn commit(&mut self, txn: TxnId) -> Result<Option<TxnId>, ForestFault>
        ensures committed { OnOk result (HasEnded self.old self.new txn Committed) }
        ensures parent { IfOk result (λ parent. parent ≡ parent_in self.old txn) }
        ensures refused { MatchResult result
            (λ _. commit_refusal self.old txn ≡ None)
            (λ fault. commit_refusal self.old txn ≡ Some fault) }
        ensures same { OnErr result (self.new ≡ self.old) }
    {
        let place = self.live_place(txn)?;
        if self.records.children_of(place) > 0 {
            return Err(ForestFault::ChildLive);
        }
        let parent = numbered(self.base, self.records.parent_of(place));
        self.end(txn, State::Committed);
        Ok(parent)
    }

    /// Aborts a transaction and every live one below it, each before its parent. A transaction that
    /// had committed stays committed.
    ///
    /// Refuses with `NoTxn` and `Ended`, in this order. Takes no memory, and the time of the live
    /// transactions at or below it.
    pub fn abort(&mut self, txn: TxnId) -> Result<(), ForestFault>
        ensures aborted { OnOk result (HasAborted self.old self.new txn) }
        ensures refused { MatchResult result
            (λ _. abort_refusal self.old txn ≡ None)
            (λ fault. abort_refusal self.old txn ≡ Some fault) }
        ensures same { OnErr result (self.new ≡ self.old) }
    {
        self.live_place(txn)?;
        let mut last = txn;
        while let Some(next) = self.abort_next(txn, last) {
            last = next;
        }
        Ok(())
    }

    /// Aborts the next transaction that an abort of `txn` ends, and returns it: a live one at or
    /// below `txn` that has no live child. Returns `None` if nothing at or below `txn` is live.
    ///
    /// `last` is the one that was ended before, and at first `txn` itself. Takes no memory. All
    /// these calls together take the time of all transactions that are ended.
    pub fn abort_next(&mut self, txn: TxnId, last: TxnId) -> Option<TxnId>
        requires { IsLastOf self.old txn last }
        ensures next { IfSome result (λ next. IsNextToEnd self.old txn next) }
        ensures lowest { IfSome result
            (λ next. (x : ℕ) → over_in self.old next x ≡ true → state_in self.old x ≡ Some Live
            → x ≡ next) }
        ensures aborted { IfSome result (λ next. HasEnded self.old self.new next Aborted) }
        ensures last { IfSome result (λ next. IsLastOf self.new txn next) }
        ensures fewer { IfSome result (λ _. live_count self.new < live_count self.old) }
        ensures none { IfNone result ((x : ℕ) → over_in self.new txn x ≡ true
            → state_in self.new x ≢ Some Live) }
        ensures same { IfNone result (self.new ≡ self.old) }

        // An abort in progress continues, and in the end it has happened.
        ensures way { IfSome result
            (λ _. (start : Transactions) → IsAborting start self.old txn
            → IsAborting start self.new txn) }
        ensures done { IfNone result ((start : Transactions) → IsAborting start self.old txn
            → HasAborted start self.new txn) }
    {
        let from = self.search_from(txn, last);
        let Some(next) = self.next_to_end(from) else {
            return None;
        };
        self.end(next, State::Aborted);
        Some(next)
    }

    /// Returns the transaction from which an abort of `txn` searches for the next one to end: the
    /// parent of `last`, which it ended before, and at first `txn`.
    fn search_from(&self, txn: TxnId, last: TxnId) -> TxnId
        requires { IsLastOf self.now txn last }
        ensures below { over_in self.now txn result ≡ true }
        ensures live { result ≢ txn → state_in self.now result ≡ Some Live }
        ensures forest { IsForest (parent_in self.now) }
        ensures live_parent { (x p : ℕ) → parent_in self.now x ≡ Some p
            → state_in self.now x ≡ Some Live → state_in self.now p ≡ Some Live }
    {
        match self.parent(last) {
            Some(parent) if last != txn => parent,
            _ => txn,
        }
    }

    /// Returns the room for a transaction below another. Refuses as `sub` does, except out of
    /// memory.
    fn room_below(&self, txn: TxnId) -> Result<Room, ForestFault>
        ensures place { IfOk result (λ room. txn ≡ number_at self.now.base room.parent) }
        ensures live { OnOk result (state_in self.now txn ≡ Some Live) }
        ensures deeper { IfOk result
            (λ room. IsDepthBelow self.now (Some room.parent) room.depth) }
        ensures room { OnOk result (begin_refusal self.now ≡ None) }
        ensures refused { MatchResult result
            (λ _. sub_refusal self.now txn ≡ None)
            (λ fault. sub_refusal self.now txn ≡ Some fault) }
    {
        let parent = self.live_place(txn)?;
        let depth = self.records.depth_of(parent);
        let is_deepest = depth >= self.limits.depth;
        if is_deepest {
            return Err(ForestFault::Deep);
        }
        self.check_begin()?;
        Ok(Room {
            parent,
            depth: depth + 1,
        })
    }

    /// Returns the place of a live transaction. Refuses with `NoTxn` or `Ended`.
    fn live_place(&self, txn: TxnId) -> Result<usize, ForestFault>
        ensures place { IfOk result (λ place. txn ≡ number_at self.now.base place) }
        ensures within { IfOk result (λ place. place < length self.now.list) }
        ensures live { OnOk result (state_in self.now txn ≡ Some Live) }
        ensures refused { IfErr result
            (λ fault. (later : Option FaultOf)
            → refusal_of (state_in self.now txn) later ≡ Some fault) }
    {
        if txn.0 <= self.base {
            return Err(ForestFault::NoTxn);
        }
        let place = begun_place(self.base, txn);
        if self.records.is_live(place) {
            return Ok(place);
        }
        if place < self.records.list.len() {
            return Err(ForestFault::Ended);
        }
        Err(ForestFault::NoTxn)
    }

    /// Begins a transaction, if the limits allow one more. Out of memory is the only refusal.
    fn add(&mut self, parent: Option<usize>, depth: u64) -> Result<TxnId, ForestFault>
        requires room { begin_refusal self.old ≡ None }
        requires live { (p : ℕ) → parent ≡ Some p
            → state_in self.old (number_at self.old.base p) ≡ Some Live }
        requires deeper { IsDepthBelow self.old parent depth }
        ensures begun { OnOk result
            (HasBegun self.old self.new (option_map (number_at self.old.base) parent)) }
        ensures number { IfOk result (λ txn. txn ≡ last_in self.old + 1) }
        ensures memory { IfErr result (λ fault. fault ≡ MemoryFault) }
        ensures same { OnErr result (self.new ≡ self.old) }
    {
        let txn = TxnId(self.last() + 1);
        self.records.begin(parent, depth)?;
        Ok(txn)
    }

    /// Ends a live transaction that has no live child.
    fn end(&mut self, txn: TxnId, state: State)
        requires live { state_in self.old txn ≡ Some Live }
        requires no_child { (x : ℕ) → IsLiveChild self.old txn x → ⊥ }
        requires ended { is_live_state state ≡ false }
        ensures { HasEnded self.old self.new txn state }
    {
        let place = begun_place(self.base, txn);
        self.records.end(place, state);
    }
}

/// Returns the place of a transaction, if there is one with this number.
fn place_of(base: u64, count: usize, txn: TxnId) -> Option<usize>
    ensures there { IfSome result (λ place. txn ≡ number_at base place) }
    ensures within { IfSome result (λ place. place < count) }
    ensures none { IfNone result ((place : ℕ) → place < count → txn ≢ number_at base place) }
{
    let past = txn.0.checked_sub(base)?.checked_sub(1)?;
    if past < count as u64 {
        Some(past as usize)
    } else {
        None
    }
}

/// Returns the place of a transaction that has begun since the base.
fn begun_place(base: u64, txn: TxnId) -> usize
    requires { base < txn }
    ensures { txn ≡ number_at base result }
{
    (txn.0 - base - 1) as usize
}

/// Returns the number of the transaction at a place, if there is a place.
fn numbered(base: u64, place: Option<usize>) -> Option<TxnId>
    requires { ForSome place (λ p. number_at base p < 2 ^ 64) }
    ensures { result ≡ option_map (number_at base) place }
{
    match place {
        Some(place) => Some(TxnId(base + 1 + place as u64)),
        None => None,
    }
}

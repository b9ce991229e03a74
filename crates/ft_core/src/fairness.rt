// Fair waiting: a call that nothing blocks waits for older asks that conflict with it.
ghost use Rattle.std.specs.Prelude.{◌≡◌, ◌↔◌, ◌++◌, ◌==◌, ◌<◌, false, Some, IfOk, IfErr, IfSome, OnOk, OnErr, IsSome, IsTrue, is_some, length, map, position, true};
ghost use Rattle.std.specs.List.{list_any};
ghost use Rattle.std.specs.FinMap as finite;
ghost use Rattle.ft_history.specs.History.Fate.{Live};
ghost use Rattle.ft_core.specs.declared.fault.Fault.TheVariants.{Memory as MemoryFault};
ghost use Rattle.ft_core.specs.declared.request.Request.TheVariants.{Ask, Retry};
ghost use Rattle.ft_core.specs.Fairness.{are_related, fair_rule, holders, holds_back, in_front, waits_behind, waits_behind_from, AreBlockersBehind};
ghost use Rattle.ft_core.specs.Journals.{asked_for};
ghost use Rattle.ft_core.specs.Reports.{as_wait, AddsWaits};
ghost use Rattle.ft_core.specs.States.{accesses_now, fate_of, has_most_calls, next_stamp};
ghost use Rattle.ft_core.specs.Steps.{IsStep, answer_with, outcome_answer};
ghost use Rattle.ft_core.specs.Requested.{IsRequested, WaitsFor, holders_among};

use crate::conflicts::some_conflict;
use crate::fault::Fault;
use crate::manager::Core;
use crate::reports::Pending;
use crate::request::Outcome;
use ft_base::{Memory, Sequence, Table};
use ft_calls::{Access, Call, accesses};
use ft_forest::TxnId;

/// A call of a transaction by its accesses, and the transactions that are ahead of it.
#[derive(Clone, Copy)]
struct Behind<'a> {
    txn: TxnId,
    touched: &'a [Access],
    ahead: &'a [TxnId],
}

impl Core {
    /// Makes a call in a transaction as `ask` does, or answers which transactions it waits for, in
    /// rising order: those for which it would wait by `ask` and, if there are none, those of
    /// `ahead` that hold it back. Such a one waits for a call that conflicts with this one on what
    /// is there already, and is neither the asker nor above or below it.
    ///
    /// Refuses what `ask` refuses, in its order.
    pub fn ask_behind(&mut self, txn: TxnId, call: Call, ahead: &[TxnId]) -> Result<Outcome, Fault>
        ensures { IsStep (fair_rule ahead.now) self.old.state (Ask txn call)
            (answer_with outcome_answer result) self.new.state }
    {
        self.may_ask(txn)?;
        self.request_behind(txn, Some(call), ahead)
    }

    /// Makes the call that a transaction waits for, or answers again which transactions it waits
    /// for, as `ask_behind` does.
    ///
    /// Refuses what `retry` refuses, in its order.
    pub fn retry_behind(&mut self, txn: TxnId, ahead: &[TxnId]) -> Result<Outcome, Fault>
        ensures { IsStep (fair_rule ahead.now) self.old.state (Retry txn)
            (answer_with outcome_answer result) self.new.state }
    {
        self.may_retry(txn)?;
        self.request_behind(txn, None, ahead)
    }

    /// Returns each transaction that waits for a call, in rising order, with its blockers now, if
    /// it waits in turn for those in front of it in a queue. If it is not in the queue, all of the
    /// queue is in front of it.
    pub fn pending_behind(&self, queue: &[TxnId]) -> Result<Vec<Pending>, Memory>
        ensures { IfOk result (λ list. map as_wait list.items
            ≡ waits_behind self.now.state queue.now) }
    {
        let mut list = Vec::new(self.alloc);
        list_behind(self, self.journal.asks(), queue, &mut list)?;
        Ok(list)
    }

    /// Returns the blockers of the call that a transaction waits for, in rising order, if it waits
    /// in turn for these; none if it waits for no call.
    pub fn blockers_behind(&self, txn: TxnId, ahead: &[TxnId]) -> Result<Vec<TxnId>, Memory>
        ensures { IfOk result
            (λ blockers. AreBlockersBehind ahead.now self.now.state txn blockers.items) }
    {
        match self.journal.pending(txn) {
            None => Ok(Vec::new(self.alloc)),
            Some(call) => self.fair_blockers(txn, call, ahead),
        }
    }

    /// Returns whether a transaction waits for a call.
    pub fn is_waiting(&self, txn: TxnId) -> bool
        ensures { result ≡ is_some (finite.get self.now.state.asks txn) }
    {
        self.journal.pending(txn).is_some()
    }

    /// Returns whether a transaction waits for this call.
    #[tactic(auto, using(crate::proofs::Same::same_calls))]
    pub fn is_waiting_for(&self, txn: TxnId, call: &Call) -> bool
        ensures { IsTrue result ↔ (finite.get self.now.state.asks txn ≡ Some call.now) }
    {
        match self.journal.pending(txn) {
            None => false,
            Some(pending) => *pending == *call,
        }
    }

    /// Makes a call if there may be one more, or notes that the transaction waits for it, as
    /// `request` does, in turn after others.
    fn request_behind(
        &mut self,
        txn: TxnId,
        asked: Option<Call>,
        ahead: &[TxnId],
    ) -> Result<Outcome, Fault>
        requires few { has_most_calls self.old.state ≡ false }
        requires live { fate_of self.old.state txn ≡ Some Live }
        requires some { IsSome (asked_for asked (finite.get self.old.state.asks txn)) }
        ensures asked { IfOk result
            (IsRequested (fair_rule ahead.now) self.old.state self.new.state txn asked) }
        ensures memory { IfErr result (λ fault. fault ≡ MemoryFault) }
        ensures same { OnErr result (self.new.state ≡ self.old.state) }
    {
        if ahead.is_empty() {
            return self.request(txn, asked);
        }
        let call = self.journal.wanted(txn, &asked);
        let blockers = self.fair_blockers(txn, call, ahead)?;
        if blockers.is_empty() {
            return self.request(txn, asked);
        }
        self.wait_for(txn, asked)?;
        let blockers = Sequence::from(blockers);
        Ok(Outcome::Waits { blockers })
    }

    /// Notes that a transaction waits for a call that is requested now. Without one it waits on.
    fn wait_for(&mut self, txn: TxnId, asked: Option<Call>) -> Result<(), Memory>
        requires live { fate_of self.old.state txn ≡ Some Live }
        ensures ok { OnOk result (WaitsFor self.old.state self.new.state txn asked) }
        ensures err { OnErr result (self.new.state ≡ self.old.state) }
    {
        self.journal.wait(txn, asked)?;
        Ok(())
    }

    /// Returns the blockers of a call that waits in turn for others, in rising order.
    fn fair_blockers(&self, txn: TxnId, call: &Call, ahead: &[TxnId]) -> Result<Vec<TxnId>, Memory>
        ensures { IfOk result (λ blockers. blockers.items
            ≡ fair_rule ahead.now self.now.state txn (accesses_now self.now.state call.now)) }
    {
        let blockers = self.blockers_now(txn, call)?;
        if !blockers.is_empty() {
            return Ok(blockers);
        }
        let touched = self.touched(call)?;
        let touched = touched.as_slice();
        let holders = self.holders(&Behind {
            txn,
            touched,
            ahead,
        })?;
        Ok(holders)
    }

    /// Returns the transactions that hold a call back, in rising order.
    fn holders(&self, behind: &Behind<'_>) -> Result<Vec<TxnId>, Memory>
        ensures { IfOk result (λ list. list.items
            ≡ holders behind.now.ahead.now self.now.state behind.now.txn behind.now.touched.now) }
    {
        let mut list = Vec::new(self.alloc);
        list_holders(self, self.journal.asks(), behind, &mut list)?;
        Ok(list)
    }

    /// Returns whether a transaction that waits for a call holds another call back.
    fn holds_back(&self, behind: &Behind<'_>, txn: TxnId, call: &Call) -> Result<bool, Memory>
        ensures { IfOk result (λ holds. holds
            ≡ holds_back behind.now.ahead.now self.now.state behind.now.txn behind.now.touched.now
            txn call.now) }
    {
        let is_ahead = is_among(behind.ahead, txn);
        let is_related = self.are_related(behind.txn, txn);
        if !is_ahead || is_related {
            return Ok(false);
        }
        let touched = self.touched(call)?;
        let next = self.next_number();
        Ok(some_conflict(touched.as_slice(), behind.touched, next))
    }

    /// Returns the number that the next call gives to what it makes.
    fn next_number(&self) -> u64
        ensures { result ≡ next_stamp self.now.state }
    {
        self.journal.next_stamp()
    }

    /// Returns whether one of two transactions is the other or above it.
    fn are_related(&self, txn: TxnId, other: TxnId) -> bool
        ensures { result ≡ are_related self.now.state txn other }
    {
        let forest = &self.parts.forest;
        let is_below = forest.is_below(other, txn);
        let is_above = forest.is_below(txn, other);
        is_below || is_above
    }

    /// Returns what a call would access now.
    fn touched(&self, call: &Call) -> Result<Vec<Access>, Memory>
        ensures { IfOk result (λ list. list.items ≡ accesses_now self.now.state call.now) }
    {
        let stamp = self.journal.next_stamp();
        let touched = accesses(self.alloc, &self.parts.tree, stamp, call)?;
        Ok(touched)
    }
}

/// Lists each of these asks with its blockers, if each waits in turn for those in front of it in a
/// queue.
fn list_behind(
    core: &Core,
    asks: &Table<Call>,
    queue: &[TxnId],
    list: &mut Vec<Pending>,
) -> Result<(), Memory>
    ensures { OnOk result (AddsWaits list.old.items list.new.items
        (waits_behind_from core.now.state queue.now (finite.entries asks.now))) }
{
    for (txn, call) in asks.sorted(core.alloc)? {
        let txn = TxnId(txn);
        let blockers = core.fair_blockers(txn, call, in_front(queue, txn))?;
        list.push(Pending { txn, blockers })?;
    }
    Ok(())
}

/// Lists the transactions, among these asks, that hold a call back.
fn list_holders(
    core: &Core,
    asks: &Table<Call>,
    behind: &Behind<'_>,
    list: &mut Vec<TxnId>,
) -> Result<(), Memory>
    ensures { OnOk result (list.new.items ≡ list.old.items
        ++ holders_among core.now.state behind.now (finite.entries asks.now)) }
{
    for (txn, call) in asks.sorted(core.alloc)? {
        let txn = TxnId(txn);
        if !core.holds_back(behind, txn, call)? {
            continue;
        }
        list.push(txn)?;
    }
    Ok(())
}

/// Returns whether a transaction is in a list.
fn is_among(list: &[TxnId], txn: TxnId) -> bool
    ensures { result ≡ list_any (λ x. x == txn) list.now }
{
    list.iter().any(|other| *other == txn)
}

/// Returns those in front of a transaction in a queue; all of it if the transaction is not in it.
pub fn in_front<'a>(queue: &'a [TxnId], txn: TxnId) -> &'a [TxnId]
    ensures { result.now ≡ in_front queue.now txn }
{
    match place_in(queue, txn) {
        None => queue,
        Some(place) => &queue[..place],
    }
}

/// Returns the place of a transaction in a queue.
fn place_in(queue: &[TxnId], txn: TxnId) -> Option<usize>
    ensures place { result ≡ position (λ x. x == txn) queue.now }
    ensures within { IfSome result (λ place. place < length queue.now) }
{
    queue.iter().position(|other| *other == txn)
}

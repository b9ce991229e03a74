// Reports of a core: its locks, which transaction waits for which, and live children.
ghost use Rattle.std.specs.Prelude.{◌≡◌, ◌<◌, ◌++◌, map, IfOk, OnOk};
ghost use Rattle.std.specs.FinMap as finite;
ghost use Rattle.ft_laws.specs.Lists.{Each, Pairs};
ghost use Rattle.ft_core.specs.Reports.{AreLockLines, HasRisingBlockers, blockers_now, waits_from, waits, as_wait, AreLiveChildren, with_parents, AddsWaits};

use crate::manager::Core;
use ft_base::{Memory, Table};
use ft_calls::{Call, accesses};
use ft_forest::{Forest, TxnId};
use ft_locks::{LockCheck, LockLine};

/// A transaction that waits for a call, with those that block it.
#[derive(Debug, Drop)]
pub struct Pending {
    pub txn: TxnId,
    pub blockers: Vec<TxnId>,
}

/// A live transaction, and a live child of it. They are in the order of parents, and then of
/// children.
#[derive(Clone, Copy, Debug, PartialEq, Eq, PartialOrd, Ord)]
pub struct LiveChild {
    pub parent: TxnId,
    pub child: TxnId,
}

impl Core {
    /// Returns the locks, by cell, owner, mode and kind.
    pub fn lock_lines(&self) -> Result<Vec<LockLine>, Memory>
        ensures { IfOk result (λ lines. AreLockLines self.now.state lines.items) }
    {
        self.parts.locks.lines()
    }

    /// Returns each transaction that waits for a call, in rising order, with those that block it
    /// now. There may be none any more: then a retry makes the call.
    pub fn pending(&self) -> Result<Vec<Pending>, Memory>
        ensures list { IfOk result (λ list. map as_wait list.items ≡ waits self.now.state) }
        ensures rising { IfOk result (λ list. Each HasRisingBlockers list.items) }
    {
        let mut list = Vec::new(self.alloc);
        list_pending(self, self.journal.asks(), &mut list)?;
        Ok(list)
    }

    /// Returns each live transaction with each live child, in their order. Takes the time to sort
    /// the live transactions.
    pub fn children(&self) -> Result<Vec<LiveChild>, Memory>
        ensures { IfOk result (λ list. AreLiveChildren self.now.state list.items) }
    {
        let live = self.parts.forest.live(self.alloc)?;
        let mut list = Vec::new(self.alloc);
        list_with_parents(&self.parts.forest, live.as_slice(), &mut list)?;
        list.sort()?;
        Ok(list)
    }

    /// Returns the transactions that block a call now, in rising order.
    pub(crate) fn blockers_now(&self, txn: TxnId, call: &Call) -> Result<Vec<TxnId>, Memory>
        ensures blockers { IfOk result
            (λ blockers. blockers.items ≡ blockers_now self.now.state txn call.now) }
        ensures rising { IfOk result (λ blockers. Pairs (λ x y. x < y) blockers.items) }
    {
        let stamp = self.journal.next_stamp();
        let touched = accesses(self.alloc, &self.parts.tree, stamp, call)?;
        let rule = self.journal.rule();
        let LockCheck { blockers, .. } = self.parts.check(txn, touched.as_slice(), rule)?;
        Ok(blockers)
    }
}

/// Lists each of these asks with those that block it.
fn list_pending(core: &Core, asks: &Table<Call>, list: &mut Vec<Pending>) -> Result<(), Memory>
    ensures rising { OnOk result (Each HasRisingBlockers list.old.items
        → Each HasRisingBlockers list.new.items) }
    ensures list { OnOk result (AddsWaits list.old.items list.new.items
        (waits_from core.now.state (finite.entries asks.now))) }
{
    for (txn, call) in asks.sorted(core.alloc)? {
        let txn = TxnId(txn);
        let blockers = core.blockers_now(txn, call)?;
        list.push(Pending { txn, blockers })?;
    }
    Ok(())
}

/// Lists each of these transactions that has a parent, with its parent.
fn list_with_parents(
    forest: &Forest,
    txns: &[TxnId],
    list: &mut Vec<LiveChild>,
) -> Result<(), Memory>
    ensures { OnOk result (list.new.items ≡ list.old.items ++ with_parents forest.now txns.now) }
{
    for child in txns {
        let child = *child;
        if let Some(parent) = forest.parent(child) {
            list.push(LiveChild { parent, child })?;
        }
    }
    Ok(())
}

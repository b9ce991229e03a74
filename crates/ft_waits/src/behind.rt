// The transactions ahead of one that requests a call, if calls wait for older asks.
ghost use Rattle.std.specs.Prelude.{◌≡◌, IfOk, filter, not};
ghost use Rattle.std.specs.FinMap as finite;
ghost use Rattle.ft_waits.specs.Behind.{AreAhead, AreEdgesBehind, AreWhoWait, IsPass};

use crate::edge::Edge;
use crate::listing::{list_children, list_waits};
use ft_base::{Memory, Table};
use ft_core::{Core, TxnId, in_front};
use std::alloc::Global;

/// Returns those ahead of a transaction: they are in front of it in a queue, and do not wait for
/// it, through others or not. If it is not in the queue, all of the queue is in front of it.
///
/// Out of memory is the only refusal. If any are in front of it, it takes the time to list all
/// waits of the core.
pub fn ahead_of(core: &Core, queue: &[TxnId], txn: TxnId) -> Result<Vec<TxnId>, Memory>
    ensures { IfOk result (λ ahead. AreAhead core.now.state queue.now txn ahead.items) }
{
    let front = in_front(queue, txn);
    if front.is_empty() {
        return Ok(Vec::new(core.alloc()));
    }
    let edges = edges_behind(core, queue)?;
    let waiting = who_wait(core.alloc(), edges, txn)?;
    let ahead = others(core.alloc(), front, &waiting)?;
    Ok(ahead)
}

/// Returns an edge for each transaction that may wait for another, if calls wait in turn for those
/// in front of them in a queue.
fn edges_behind(core: &Core, queue: &[TxnId]) -> Result<Vec<Edge>, Memory>
    ensures { IfOk result (λ edges. AreEdgesBehind core.now.state queue.now edges.items) }
{
    let waits = core.pending_behind(queue)?;
    let pairs = core.children()?;
    let mut edges = Vec::new(core.alloc());
    list_waits(&mut edges, waits.as_slice())?;
    list_children(&mut edges, pairs.as_slice())?;
    Ok(edges)
}

/// Returns the transactions from which edges lead to one, through others or not, and itself.
fn who_wait(alloc: Global, edges: Vec<Edge>, txn: TxnId) -> Result<Table<()>, Memory>
    ensures { IfOk result (λ found. AreWhoWait edges.items txn (λ u. finite.contains_key found u)) }
{
    let mut found = Table::new(alloc);
    found.insert(txn.0, ())?;
    let mut rest = edges;
    loop {
        let before = rest.len();
        rest = pass(alloc, rest, &mut found)?;
        if rest.len() == before {
            return Ok(found);
        }
    }
}

/// Finds those from which edges lead to one that was found, and leaves the edges that do not.
fn pass(alloc: Global, rest: Vec<Edge>, found: &mut Table<()>) -> Result<Vec<Edge>, Memory>
    ensures { IfOk result (λ left. IsPass rest.items
        left.items (λ u. finite.contains_key found.old u) (λ u. finite.contains_key found.new u)) }
{
    let mut left = Vec::new(alloc);
    for edge in rest {
        if found.contains(edge.to.0) {
            found.insert(edge.from.0, ())?;
            continue;
        }
        left.push(edge)?;
    }
    Ok(left)
}

/// Returns those of some transactions that are not among others.
fn others(alloc: Global, txns: &[TxnId], among: &Table<()>) -> Result<Vec<TxnId>, Memory>
    ensures { IfOk result (λ list. list.items
        ≡ filter (λ u. not (finite.contains_key among.now u)) txns.now) }
{
    let list = txns
        .iter()
        .copied()
        .filter(|txn| !among.contains(txn.0))
        .collect(alloc)?;
    Ok(list)
}

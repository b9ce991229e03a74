// Verdicts by worked examples, and printed names.
use ft_base::Memory;
use ft_core::TxnId;
use ft_waits::{Edge, EdgeKind, Verdict, judge};
use std::alloc::{AllocError, Global};
use std::test::Fail;

/// Returns an edge for a lock.
fn lock(from: u64, to: u64) -> Edge {
    Edge {
        from: TxnId(from),
        to: TxnId(to),
        kind: EdgeKind::Lock,
    }
}

/// Returns an edge to a child.
fn child(from: u64, to: u64) -> Edge {
    Edge {
        kind: EdgeKind::Child,
        ..lock(from, to)
    }
}

/// Returns whether the verdict on these edges is this cycle.
fn is_cycle(alloc: Global, edges: &[Edge], wanted: &[u64]) -> Result<bool, Memory> {
    match &judge(alloc, edges)? {
        Verdict::Cycle(members) => Ok(
            members
                .as_slice()
                .iter()
                .map(|txn| txn.0)
                .eq(wanted.iter().copied()),
        ),
        Verdict::Ranked(_) => Ok(false),
    }
}

/// Returns whether the verdict on these edges is these ranks.
fn is_ranked(alloc: Global, edges: &[Edge], wanted: &[(TxnId, u64)]) -> Result<bool, Memory> {
    match &judge(alloc, edges)? {
        Verdict::Cycle(_) => Ok(false),
        Verdict::Ranked(ranks) => Ok(ranks.as_slice() == wanted),
    }
}

#[test]
fn single_calls(rt: HostRuntime) -> Result<(), Fail> {
    assert!(rt; is_ranked(rt.alloc(), &[], &[])?);
    Ok(())
}

#[test]
fn deadlock_is_reported(rt: HostRuntime) -> Result<(), Fail> {
    let alloc = rt.alloc();
    assert!(rt; is_cycle(alloc, &[lock(1, 2), lock(2, 1)], &[1, 2])?);
    let ranks = [(TxnId(1), 1), (TxnId(3), 0)];
    assert!(rt; is_ranked(alloc, &[child(1, 3)], &ranks)?);
    Ok(())
}

#[test]
fn cycle_of_three_amid_others(rt: HostRuntime) -> Result<(), Fail> {
    let edges = [
        lock(9, 5),
        lock(3, 1),
        lock(5, 7),
        child(1, 2),
        lock(3, 5),
        lock(7, 3),
        lock(9, 2),
        lock(5, 7),
    ];
    assert!(rt; is_cycle(rt.alloc(), &edges, &[3, 5, 7])?);
    Ok(())
}

#[test]
fn edge_to_itself(rt: HostRuntime) -> Result<(), Fail> {
    let last = u64::MAX;
    assert!(rt; is_cycle(rt.alloc(), &[child(1, last), lock(last, last)], &[last])?);
    Ok(())
}

/// The ranks of a chain in which each waits for the next.
fn chain_ranks(alloc: Global, count: u64) -> Result<Vec<(TxnId, u64)>, AllocError> {
    let mut ranks = Vec::new(alloc);
    for txn in 1..=count {
        ranks.push((TxnId(txn), count.saturating_sub(txn)))?;
    }
    Ok(ranks)
}

#[test]
fn thousand_in_a_chain(rt: HostRuntime) -> Result<(), Fail> {
    let alloc = rt.alloc();
    let mut edges = Vec::new(alloc);
    for txn in 1..1000 {
        edges.push(lock(txn, txn + 1))?;
    }
    let ranks = chain_ranks(alloc, 1000)?;
    assert!(rt; is_ranked(alloc, &edges, &ranks)?);
    Ok(())
}

#[test]
fn kinds_have_names(rt: HostRuntime) -> Result<(), Fail> {
    let names = format!(in rt.alloc(); "{} {}", EdgeKind::Lock, EdgeKind::Child)?;
    assert_eq!(rt; names.as_str(), "lock child");
    Ok(())
}

#[test]
fn edges_have_an_order(rt: HostRuntime) {
    assert!(rt; lock(1, 9) < lock(2, 1));
    assert!(rt; child(1, 2) < lock(1, 3));
    assert!(rt; lock(1, 2) < child(1, 2));
}

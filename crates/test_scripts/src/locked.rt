// A core behind a lock, and two transactions that wait for each other there.
use ft_core::TxnId;
use ft_record::Recorded;
use ft_shared::Shared;
use ft_waits::{Edge, EdgeKind, Verdict};
use std::alloc::Global;
use std::marker::Brand;
use std::test::Fail;

/// A new core behind a lock.
pub fn new_shared(alloc: Global) -> Result<Shared, Fail> {
    match Shared::<Brand>::new(Recorded::new(alloc)?) {
        Ok(shared) => Ok(shared),
        Err(_) => Err(Fail::from("a transaction is live")),
    }
}

/// Returns whether transactions 1 and 2 wait for each other's locks, and nobody else waits.
pub fn is_deadlock(edges: &[Edge], verdict: &Verdict) -> bool {
    let (one, two) = (TxnId(1), TxnId(2));
    let lock = |from, to| Edge {
        from,
        to,
        kind: EdgeKind::Lock,
    };
    let is_cycle = match verdict {
        Verdict::Cycle(members) => members.as_slice() == [one, two].as_slice(),
        Verdict::Ranked(_) => false,
    };
    is_cycle && edges == [lock(one, two), lock(two, one)].as_slice()
}

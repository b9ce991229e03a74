// Threads in which transactions wait for each other, and one that is let go on by its parent.
use ft_calls::{Call, Reply};
use ft_core::{Fault, Outcome, TxnId};
use ft_path::{Errno, FilePath};
use ft_shared::Shared;
use ft_waits::{Edge, EdgeKind, Verdict};
use std::alloc::Global;
use std::sync::Wait;
use std::test::Fail;
use std::thread::{self, Threads};
use std::time::{Clock, Duration};
use test_scripts::{is_deadlock, new_shared};

/// How often calls are asked for that wait in vain.
pub const FEW_TURNS: u64 = 3;

/// How often a call is asked for that is to be granted in the end.
pub const MANY_TURNS: u64 = 400;

/// The reply if what a call names is missing.
const MISSING: Reply = Reply::Failed(Errno::ENOENT);

/// Returns a call that looks at a path.
pub fn stat_call(alloc: Global, path: &[u8]) -> Result<Call, Fail> {
    let path = FilePath::new(alloc, path)?;
    Ok(Call::Stat { path })
}

/// A transaction makes a directory.
fn make<R: Wait>(
    rt: &R,
    alloc: Global,
    shared: &Shared,
    txn: TxnId,
    path: &[u8],
) -> Result<(), Fail> {
    let path = FilePath::new(alloc, path)?;
    let _ = shared.ask(rt, txn, Call::Mkdir { path, mode: None })?;
    Ok(())
}

/// Whether a call waits for only this transaction.
fn waits_for(told: &Result<Outcome, Fault>, blocker: TxnId) -> bool {
    match told {
        Ok(Outcome::Waits { blockers }) => blockers.as_slice() == [blocker].as_slice(),
        _ => false,
    }
}

/// Whether a call is granted with this stamp and this reply.
fn is_granted(told: &Result<Outcome, Fault>, wanted: u64, with: &Reply) -> bool {
    match told {
        Ok(Outcome::Granted { stamp, reply }) => *stamp == wanted && *reply == *with,
        _ => false,
    }
}

// ---- two that wait for each other

/// Transactions 1 and 2 have made a directory each.
fn make_two<R: Wait>(rt: &R, alloc: Global, shared: &Shared) -> Result<(), Fail> {
    let one = shared.begin(rt)?;
    let two = shared.begin(rt)?;
    make(rt, alloc, shared, one, b"/a".as_slice())?;
    make(rt, alloc, shared, two, b"/b".as_slice())
}

/// Each of them asks for a call in a thread of its own.
fn ask_both<R: Threads + Wait + Clock + Sync>(
    rt: &R,
    shared: &Shared,
    of_one: &Call,
    of_two: &Call,
) -> (Result<Outcome, Fault>, Result<Outcome, Fault>) {
    thread::join(
        rt,
        || shared.ask_wait(rt, TxnId(1), of_one, FEW_TURNS),
        || shared.ask_wait(rt, TxnId(2), of_two, FEW_TURNS),
    )
}

/// Whether nobody waits.
fn is_quiet(edges: &[Edge], verdict: &Verdict) -> bool {
    let is_ranked = match verdict {
        Verdict::Cycle(_) => false,
        Verdict::Ranked(ranks) => ranks.is_empty(),
    };
    is_ranked && edges.is_empty()
}

/// Whether both use up their turns, each for a look at what the other one has made, and a cycle is
/// told.
fn waits_in_cycle<R: Threads + Wait + Clock + Sync>(
    rt: &R,
    shared: &Shared,
    of_one: &Call,
    of_two: &Call,
) -> Result<bool, Fail> {
    let (one, two) = ask_both(rt, shared, of_one, of_two);
    let (edges, verdict) = shared.waits(rt)?;
    let have_waited = waits_for(&one, TxnId(2)) && waits_for(&two, TxnId(1));
    Ok(have_waited && is_deadlock(edges.as_slice(), &verdict))
}

/// Whether the abort of one of them ends the cycle: it is refused from then on, and what it has
/// made is missing for the other one.
fn ends_by_abort<R: Wait + Clock>(rt: &R, shared: &Shared, of_two: &Call) -> Result<bool, Fail> {
    let aborted = shared.abort(rt, TxnId(2)) == Ok(1);
    let is_refused = match shared.ask_wait(rt, TxnId(2), of_two, FEW_TURNS) {
        Ok(_) => false,
        Err(fault) => fault == Fault::Ended,
    };
    let goes_on = is_granted(&shared.retry(rt, TxnId(1)), 4, &MISSING);
    let (edges, verdict) = shared.waits(rt)?;
    Ok(aborted && is_refused && goes_on && is_quiet(edges.as_slice(), &verdict))
}

/// Whether two are seen to wait for each other, until one is aborted.
fn comes_and_goes<R: Threads + Wait + Clock + Sync>(
    rt: &R,
    alloc: Global,
    shared: &Shared,
) -> Result<bool, Fail> {
    make_two(rt, alloc, shared)?;
    let of_one = stat_call(alloc, b"/b".as_slice())?;
    let of_two = stat_call(alloc, b"/a".as_slice())?;
    let has_come = waits_in_cycle(rt, shared, &of_one, &of_two)?;
    Ok(has_come && ends_by_abort(rt, shared, &of_two)?)
}

/// Returns whether a cycle of waiting threads is reported, and ends by an abort.
fn has_cycle<R: Threads + Wait + Clock + Sync>(rt: &R, alloc: Global) -> Result<bool, Fail> {
    let shared = new_shared(alloc)?;
    let told = comes_and_goes(rt, alloc, &shared);
    shared.into_core(rt);
    told
}

#[test]
fn cycle_of_waiters(rt: HostRuntime) -> Result<(), Fail> {
    assert!(rt; has_cycle(&rt, rt.alloc())?);
    Ok(())
}

// ---- one that is let go on by its parent

/// Two directories are there. Transaction 2 has the child 3, and 4 has made a directory in the
/// second one.
fn make_three<R: Wait>(rt: &R, alloc: Global, shared: &Shared) -> Result<(), Fail> {
    let one = shared.begin(rt)?;
    make(rt, alloc, shared, one, b"/p".as_slice())?;
    make(rt, alloc, shared, one, b"/a".as_slice())?;
    shared.commit(rt, one)?;
    let two = shared.begin(rt)?;
    let _three = shared.sub(rt, two)?;
    let four = shared.begin(rt)?;
    make(rt, alloc, shared, four, b"/a/x".as_slice())
}

/// The child asks for a call, and a while later its parent for another one.
fn ask_below<R: Threads + Wait + Clock + Sync>(
    rt: &R,
    shared: &Shared,
    of_child: &Call,
    of_parent: &Call,
) -> (Result<Outcome, Fault>, Result<Outcome, Fault>) {
    thread::join(
        rt,
        || shared.ask_wait(rt, TxnId(3), of_child, MANY_TURNS),
        || {
            thread::sleep(rt, Duration::from_millis(50));
            shared.ask_wait(rt, TxnId(2), of_parent, 1)
        },
    )
}

/// Whether the child waits for transaction 4, and goes on while that one is live, once its parent
/// has removed a directory on the way.
fn goes_on_below<R: Threads + Wait + Clock + Sync>(
    rt: &R,
    alloc: Global,
    shared: &Shared,
) -> Result<bool, Fail> {
    make_three(rt, alloc, shared)?;
    let of_child = stat_call(alloc, b"/p/../a/x".as_slice())?;
    let of_parent = Call::Rmdir {
        path: FilePath::new(alloc, b"/p".as_slice())?,
    };
    let waits = waits_for(&shared.ask_wait(rt, TxnId(3), &of_child, 1), TxnId(4));
    let (child, parent) = ask_below(rt, shared, &of_child, &of_parent);
    let has_gone_on = is_granted(&parent, 5, &Reply::Done) && is_granted(&child, 6, &MISSING);
    Ok(waits && has_gone_on && shared.commit(rt, TxnId(4)) == Ok(()))
}

/// Returns whether a call of a child goes on when its parent no longer blocks it.
fn lets_child_go_on<R: Threads + Wait + Clock + Sync>(rt: &R, alloc: Global) -> Result<bool, Fail> {
    let shared = new_shared(alloc)?;
    let told = goes_on_below(rt, alloc, &shared);
    shared.into_core(rt);
    told
}

#[test]
fn parent_lets_its_child_go_on(rt: HostRuntime) -> Result<(), Fail> {
    assert!(rt; lets_child_go_on(&rt, rt.alloc())?);
    Ok(())
}

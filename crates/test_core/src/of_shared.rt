// The waits-for edges; threads that wait, and let others go on; what a sweep finds; what is handed
// back. Scripts are case files, which tool_through plays.
ghost use Rattle.std.specs.Prelude.{◌≡◌};
ghost use Rattle.ft_shared.specs.Origins.{without_views};

use crate::of_waiters::{FEW_TURNS, MANY_TURNS, stat_call};
use ft_calls::Call;
use ft_core::{Fault, Outcome, TxnId};
use ft_path::FilePath;
use ft_record::Recorded;
use ft_shared::{MOST_PAUSE, Manager, Refused, Shared, Sharing};
use std::alloc::Global;
use std::marker::Brand;
use std::sync::Wait;
use std::test::Fail;
use std::thread;
use std::thread::Threads;
use std::time::{Clock, Duration, Instant};
use test_scripts::{is_deadlock, new_shared};

/// Returns a call that looks at the directory.
fn stat_directory(alloc: Global) -> Result<Call, Fail> {
    stat_call(alloc, b"/a".as_slice())
}

/// Returns whether a core reports a deadlock of two, if there is one.
fn tells_deadlock<R: Wait>(rt: &R, shared: &Shared) -> Result<bool, Fail> {
    let (edges, verdict) = shared.waits(rt)?;
    Ok(is_deadlock(edges.as_slice(), &verdict))
}

/// One transaction makes a directory, and another one is live.
fn make_directory<R: Wait>(rt: &R, alloc: Global, shared: &Shared) -> Result<(), Fail> {
    let path = FilePath::new(alloc, b"/a".as_slice())?;
    let one = shared.begin(rt)?;
    let _two = shared.begin(rt)?;
    let _ = shared.ask(rt, one, Call::Mkdir { path, mode: None })?;
    Ok(())
}

/// A core in which transaction 1 has made a directory, and transaction 2 is live.
fn with_directory<R: Wait>(rt: &R, alloc: Global) -> Result<Shared, Fail> {
    let shared = new_shared(alloc)?;
    match make_directory(rt, alloc, &shared) {
        Ok(()) => Ok(shared),
        Err(fail) => {
            shared.into_core(rt);
            Err(fail)
        }
    }
}

/// Each of two transactions waits for the other: it looks at what the other one has made.
fn cross<R: Wait>(rt: &R, alloc: Global, shared: &Shared) -> Result<(), Fail> {
    let path = FilePath::new(alloc, b"/b".as_slice())?;
    let looked_at = path.try_clone()?;
    let _ = shared.ask(rt, TxnId(2), Call::Mkdir { path, mode: None })?;
    let _ = shared.ask(rt, TxnId(1), Call::Stat { path: looked_at })?;
    let _ = shared.ask(rt, TxnId(2), stat_directory(alloc)?)?;
    Ok(())
}

/// Returns whether a core in which they do so reports it.
fn tells_crossing<R: Wait>(rt: &R, alloc: Global, shared: &Shared) -> Result<bool, Fail> {
    cross(rt, alloc, shared)?;
    tells_deadlock(rt, shared)
}

/// Returns whether two transactions that wait for each other are reported as a cycle.
fn waits_in_circle<R: Wait>(rt: &R, alloc: Global) -> Result<bool, Fail> {
    let shared = with_directory(rt, alloc)?;
    let is_told = tells_crossing(rt, alloc, &shared);
    shared.into_core(rt);
    is_told
}

#[test]
fn waits_through_shared(rt: HostRuntime) -> Result<(), Fail> {
    assert!(rt; waits_in_circle(&rt, rt.alloc())?);
    Ok(())
}

/// The second transaction waits for the first, which another thread commits a while later.
fn wait_and_commit<R: Threads + Wait + Clock + Sync>(
    rt: &R,
    shared: &Shared,
    call: &Call,
) -> (Result<Outcome, Fault>, Result<(), Fault>) {
    thread::join(
        rt,
        || shared.ask_wait(rt, TxnId(2), call, MANY_TURNS),
        || {
            thread::sleep(rt, Duration::from_millis(50));
            shared.commit(rt, TxnId(1))
        },
    )
}

/// Returns whether the waiter is granted once the other one has committed.
fn goes_on<R: Threads + Wait + Clock + Sync>(rt: &R, shared: &Shared, call: &Call) -> bool {
    match wait_and_commit(rt, shared, call) {
        (Ok(Outcome::Granted { stamp, reply: _ }), Ok(())) => stamp == 3,
        _ => false,
    }
}

/// Returns whether a waiting call goes on when another thread ends the transaction that blocks it.
fn lets_go_on<R: Threads + Wait + Clock + Sync>(rt: &R, alloc: Global) -> Result<bool, Fail> {
    let call = stat_directory(alloc)?;
    let shared = with_directory(rt, alloc)?;
    let has_gone_on = goes_on(rt, &shared, &call);
    shared.into_core(rt);
    Ok(has_gone_on)
}

#[test]
fn waiter_lets_others_go_on(rt: HostRuntime) -> Result<(), Fail> {
    assert!(rt; lets_go_on(&rt, rt.alloc())?);
    Ok(())
}

/// Returns whether a waiter waits for the first transaction all its turns long, and its ask stays.
fn waits_in_vain<R: Wait + Clock>(rt: &R, shared: &Shared, call: &Call) -> bool {
    let is_waiting = match &shared.ask_wait(rt, TxnId(2), call, FEW_TURNS) {
        Ok(Outcome::Waits { blockers }) => blockers.as_slice() == [TxnId(1)].as_slice(),
        _ => false,
    };
    is_waiting && shared.drop_ask(rt, TxnId(2)) == Ok(())
}

/// Returns whether a call that stays blocked waits until its turns are used up.
fn uses_turns_up<R: Wait + Clock>(rt: &R, alloc: Global) -> Result<bool, Fail> {
    let call = stat_directory(alloc)?;
    let shared = with_directory(rt, alloc)?;
    let has_waited = waits_in_vain(rt, &shared, &call);
    shared.into_core(rt);
    Ok(has_waited)
}

#[test]
fn turns_are_used_up(rt: HostRuntime) -> Result<(), Fail> {
    assert!(rt; uses_turns_up(&rt, rt.alloc())?);
    Ok(())
}

/// How long a waiter waits that asks three times in vain.
fn time_in_vain<R: Wait + Clock>(rt: &R, shared: &Shared, call: &Call) -> Option<Duration> {
    let start = Instant::now(rt).ok()?;
    match shared.ask_wait(rt, TxnId(2), call, FEW_TURNS) {
        Ok(Outcome::Waits { .. }) => start.elapsed(rt).ok(),
        _ => None,
    }
}

/// Begins transactions and commits them, for a while.
fn end_others<R: Wait + Clock>(rt: &R, shared: &Shared) -> Result<(), Fault> {
    for _ in 0..40 {
        let other = shared.begin(rt)?;
        shared.commit(rt, other)?;
        thread::sleep(rt, Duration::from_millis(1));
    }
    Ok(())
}

/// How long a waiter waits in vain while others end in another thread.
fn time_beside_others<R: Threads + Wait + Clock + Sync>(
    rt: &R,
    shared: &Shared,
    call: &Call,
) -> (Option<Duration>, Result<(), Fault>) {
    thread::join(
        rt,
        || time_in_vain(rt, shared, call),
        || end_others(rt, shared),
    )
}

/// Returns whether two pauses take their time by the clock while others end.
fn pauses_its_time<R: Threads + Wait + Clock + Sync>(rt: &R, alloc: Global) -> Result<bool, Fail> {
    let call = stat_directory(alloc)?;
    let shared = with_directory(rt, alloc)?;
    let (waited, ended) = time_beside_others(rt, &shared, &call);
    shared.into_core(rt);
    let least = Duration::from_millis(2 * MOST_PAUSE);
    Ok(ended == Ok(()) && waited.is_some_and(|waited| waited >= least))
}

#[test]
fn ends_of_others_use_up_no_turn(rt: HostRuntime) -> Result<(), Fail> {
    assert!(rt; pauses_its_time(&rt, rt.alloc())?);
    Ok(())
}

/// Returns whether a sweep finds nothing more to drop once the directory is gone by an abort.
fn sweeps_at_abort<R: Wait>(rt: &R, alloc: Global) -> Result<bool, Fail> {
    let shared = with_directory(rt, alloc)?;
    let aborted = shared.abort(rt, TxnId(1));
    let mut core = shared.into_core(rt);
    let _ = aborted?;
    Ok(core.sweep() == 0)
}

/// The first transaction removes its directory, and commits.
fn remove_directory<R: Wait>(rt: &R, shared: &Shared, path: FilePath) -> Result<(), Fault> {
    let _ = shared.ask(rt, TxnId(1), Call::Rmdir { path })?;
    shared.commit(rt, TxnId(1))
}

/// Returns whether a sweep finds nothing more to drop once the directory is removed and the
/// transaction has committed.
fn sweeps_at_commit<R: Wait>(rt: &R, alloc: Global) -> Result<bool, Fail> {
    let path = FilePath::new(alloc, b"/a".as_slice())?;
    let shared = with_directory(rt, alloc)?;
    let removed = remove_directory(rt, &shared, path);
    let mut core = shared.into_core(rt);
    removed?;
    Ok(core.sweep() == 0)
}

#[test]
fn ends_are_swept(rt: HostRuntime) -> Result<(), Fail> {
    assert!(rt; sweeps_at_abort(&rt, rt.alloc())?);
    assert!(rt; sweeps_at_commit(&rt, rt.alloc())?);
    Ok(())
}

/// Makes a call in a transaction, and aborts a subtransaction of it, only by the trait.
fn manage<R: Wait + Clock, M: Manager>(rt: &R, manager: &M, call: &Call) -> Result<(), Fault> {
    let top = manager.begin(rt)?;
    let below = manager.sub(rt, top)?;
    let _ = manager.ask_wait(rt, top, call, 1)?;
    let _ = manager.abort(rt, below)?;
    manager.commit(rt, top)
}

/// The core in which that was done.
fn managed<R: Wait + Clock, M: Manager>(
    rt: &R,
    manager: M,
    call: &Call,
) -> Result<Recorded, Fault> {
    let done = manage(rt, &manager, call);
    let (core, _) = manager.into_parts(rt);
    done?;
    Ok(core)
}

/// Returns whether the core has its five events when it comes back.
fn manages<R: Wait + Clock>(rt: &R, alloc: Global) -> Result<bool, Fail> {
    let path = FilePath::new(alloc, b"/a".as_slice())?;
    let call = Call::Mkdir { path, mode: None };
    let core = managed(rt, new_shared(alloc)?, &call)?;
    Ok(core.history().len() == 5)
}

#[test]
fn manager_is_shared(rt: HostRuntime) -> Result<(), Fail> {
    assert!(rt; manages(&rt, rt.alloc())?);
    Ok(())
}

/// Returns whether the core with its one event is handed back as one in which a transaction is
/// live.
fn is_handed_back(refused: &Refused) -> bool {
    refused.fault == Fault::Live && refused.core.history().len() == 1
}

/// Returns whether a core with a live transaction is refused, and handed back.
fn is_refused<J: Sharing, R: Wait>(rt: &R, core: Recorded) -> bool
    requires { without_views core.state ≡ J.origin }
{
    match Shared::<J>::new(core) {
        Ok(shared) => {
            shared.into_core(rt);
            false
        }
        Err(refused) => is_handed_back(&refused),
    }
}

#[test]
fn live_core_is_not_shared(rt: HostRuntime) -> Result<(), Fail> {
    let mut core = Recorded::new(rt.alloc())?;
    assert_eq!(rt; core.begin(), Ok(TxnId(1)));
    assert!(rt; is_refused::<Brand, HostRuntime>(&rt, core));
    Ok(())
}

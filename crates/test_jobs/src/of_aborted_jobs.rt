// Jobs whose transactions are taken away while they run.
use ft_calls::Call;
use ft_core::{Fault, Outcome, TxnId};
use ft_jobs::{End, JobsOutcome, OpenGate, Pace, Plan, Report, run_jobs};
use ft_record::Recorded;
use ft_shared::{Manager, Shared};
use std::alloc::Global;
use std::sync::Wait;
use std::sync::atomic::{AtomicU64, Ordering};
use std::test::Fail;
use std::thread::Threads;
use std::time::Clock;
use test_scripts::new_shared;

/// Two jobs side by side, of which the first has a subjob, and only the subjob asks for a stat.
const ABORTED: &[u8] =
    b"job a\nmkdir /a\nsubs\ncommit\njob a1 a\nmkdir /a/p\nstat /a/p\ncommit\njob b\n\
        mkdir /b\ncommit";

/// A manager that aborts the transaction of a parent before it passes on a stat.
struct Aborting {
    shared: Shared,
    /// The transaction that the last subtransaction was begun under.
    parent: AtomicU64,
}

impl Manager for Aborting {
    fn begin<R: Wait>(&self, rt: &R) -> Result<TxnId, Fault> {
        self.shared.begin(rt)
    }

    fn sub<R: Wait>(&self, rt: &R, parent: TxnId) -> Result<TxnId, Fault> {
        self.parent.store(parent.0, Ordering::SeqCst);
        self.shared.sub(rt, parent)
    }

    fn ask_wait<R: Wait + Clock>(
        &self,
        rt: &R,
        txn: TxnId,
        call: &Call,
        turns: u64,
    ) -> Result<Outcome, Fault> {
        if matches!(call, Call::Stat { .. }) {
            self.shared
                .abort(rt, TxnId(self.parent.load(Ordering::SeqCst)))?;
        }
        self.shared.ask_wait(rt, txn, call, turns)
    }

    fn commit<R: Wait>(&self, rt: &R, txn: TxnId) -> Result<(), Fault> {
        self.shared.commit(rt, txn)
    }

    fn abort<R: Wait>(&self, rt: &R, txn: TxnId) -> Result<u64, Fault> {
        self.shared.abort(rt, txn)
    }

    fn break_deadlock<R: Wait>(&self, rt: &R) -> Result<Option<TxnId>, Fault> {
        self.shared.break_deadlock(rt)
    }

    fn is_victim<R: Wait>(&self, rt: &R, txn: TxnId) -> bool {
        self.shared.is_victim(rt, txn)
    }

    fn into_parts<R: Wait>(self, rt: &R) -> (Recorded, Vec<TxnId>) {
        let Aborting { shared, parent: _ } = self;
        shared.into_parts(rt)
    }
}

/// The outcome of the jobs under this manager.
fn run_aborted<R: Threads + Wait + Clock + Sync>(
    rt: &R,
    alloc: Global,
) -> Result<JobsOutcome, Fail> {
    let plan = Plan::read(alloc, ABORTED)?;
    let aborting = Aborting {
        shared: new_shared(alloc)?,
        parent: AtomicU64::new(0),
    };
    Ok(run_jobs(rt, alloc, &plan, aborting, &OpenGate, Pace::of_turns(1))?)
}

/// Returns whether a job has ended so, with one call that was granted.
fn has_ended(report: &Report, end: End) -> bool {
    report.end == end && report.calls.len() == 1
}

/// Returns whether the first job and its subjob are refused the step after their one call, and the
/// last job has committed.
fn have_ended(reports: &[Report]) -> bool {
    let refused = End::Refused(Fault::Ended);
    match reports {
        [a, a1, b] => {
            has_ended(a, refused) && has_ended(a1, refused) && has_ended(b, End::Committed)
        }
        _ => false,
    }
}

#[test]
fn parent_aborted_under_its_subjob(rt: HostRuntime) -> Result<(), Fail> {
    let outcome = run_aborted(&rt, rt.alloc())?;
    assert!(rt; have_ended(outcome.reports.as_slice()));
    assert_eq!(rt; outcome.core.tree().rows()?.len(), 3);
    Ok(())
}

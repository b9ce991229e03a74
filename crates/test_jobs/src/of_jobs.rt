// Plans run over a core behind a lock, and over managers that lie about it.
ghost use Rattle.std.specs.Prelude.{◌≤◌};

use ft_calls::{Call, FileInfo, Reply};
use ft_core::{Event, Fault, Outcome, TxnId};
use ft_jobs::{End, Gate, JobFault, JobsOutcome, OpenGate, Pace, Plan, Report, run_jobs};
use ft_path::Errno;
use ft_record::Recorded;
use ft_shared::{Manager, Shared};
use ft_tree::Kind;
use std::alloc::Global;
use std::sync::Wait;
use std::sync::atomic::{AtomicU64, Ordering};
use std::test::Fail;
use std::thread::{self, Threads};
use std::time::{Clock, Duration};
use test_scripts::new_shared;

/// How often a job looks for the other one at a meeting, and how often its calls are asked for
/// there.
const MEETING_TURNS: u64 = 10_000;

/// How often calls are asked for under a manager that lies, if some wait in vain.
const FEW_TURNS: u64 = 3;

/// Two jobs side by side, of which the first has two subjobs.
const WORKED: &[u8] =
    b"job a\nmkdir /a\nstat /a\nsubs\ncommit\njob a1 a\nmkdir /a/p\nstat /a/p\ncommit\n\
        job a2 a\nmkdir /a/q\nstat /a/q\ncommit\njob b\nmkdir /b\nstat /b\ncommit\n";

/// Two jobs, each of which asks for what the other one has made.
const CROSSED: &[u8] = b"job a\nmkdir /x\nstat /y\ncommit\njob b\nmkdir /y\nstat /x\ncommit\n";

/// Two jobs of a strict plan, of which the second asks for what the first has made.
const KEPT: &[u8] = b"strict\njob a\nmkdir /x\nmkdir /y\ncommit\njob b\nstat /x\ncommit\n";

/// A gate at which two jobs meet before their second step: each waits until the other one has come
/// there too. The first job meets the last one, and so on inwards.
#[derive(Drop)]
struct Meeting {
    last: u64,
    /// For each job, whether it has come there.
    came: [AtomicU64; 4],
    /// How many have met the other one.
    met: AtomicU64,
}

impl Meeting {
    /// The last of the jobs up to this one.
    fn up_to(last: u64) -> Meeting {
        Meeting {
            last,
            came: [
                AtomicU64::new(0),
                AtomicU64::new(0),
                AtomicU64::new(0),
                AtomicU64::new(0),
            ],
            met: AtomicU64::new(0),
        }
    }
}

impl Gate for Meeting {
    fn pass<R: Wait + Clock>(&self, rt: &R, job: u64, step: u64) {
        if step != 2 || job > self.last || self.last > 3 {
            return;
        }
        self.came[job as usize].store(1, Ordering::SeqCst);
        for _ in 0..MEETING_TURNS {
            if self.came[(self.last - job) as usize].load(Ordering::SeqCst) == 1 {
                self.met.fetch_add(1, Ordering::SeqCst);
                return;
            }
            thread::sleep(rt, Duration::from_millis(1));
        }
    }
}

/// A gate at which the second job waits until the first one has come to its second step. The first
/// one stays there until the second one has ended.
#[derive(Drop)]
struct Keeping {
    /// Whether the first job has come there.
    came: AtomicU64,
    /// Whether the second job has ended.
    ended: AtomicU64,
}

impl Gate for Keeping {
    fn pass<R: Wait + Clock>(&self, rt: &R, job: u64, step: u64) {
        match (job, step) {
            (0, 2) => {
                self.came.store(1, Ordering::SeqCst);
                wait_for(rt, &self.ended);
            }
            (1, 1) => wait_for(rt, &self.came),
            _ => {}
        }
    }

    fn ended<R: Wait + Clock>(&self, _rt: &R, job: u64) {
        if job == 1 {
            self.ended.store(1, Ordering::SeqCst);
        }
    }
}

/// Waits until a number is 1, for about ten seconds at most.
fn wait_for<R: Wait + Clock>(rt: &R, number: &AtomicU64) {
    for _ in 0..MEETING_TURNS {
        if number.load(Ordering::SeqCst) == 1 {
            return;
        }
        thread::sleep(rt, Duration::from_millis(1));
    }
}

/// Returns whether a job has committed, with a mkdir and a stat that shows the new directory.
fn has_made(report: &Report) -> bool {
    let [made, told] = report.calls.as_slice() else {
        return false;
    };
    let info = Reply::Info(FileInfo {
        kind: Kind::Dir,
        number: made.stamp,
        links: 1,
        size: 0,
        attributes: None,
        time: None,
    });
    report.end == End::Committed && made.reply == Reply::Done && told.reply == info
}

/// Runs a plan with jobs that meet.
fn run_meeting<R: Threads + Wait + Clock + Sync>(
    rt: &R,
    alloc: Global,
    plan: &[u8],
    gate: &Meeting,
    turns: u64,
) -> Result<JobsOutcome, Fail>
    requires { 1 ≤ turns }
{
    let plan = Plan::read(alloc, plan)?;
    Ok(run_jobs(
        rt,
        alloc,
        &plan,
        new_shared(alloc)?,
        gate,
        Pace::of_turns(turns),
    )?)
}

/// Returns whether the calls of a history have exactly these stamps, in this order.
fn has_stamps(history: &[Event], stamps: &[u64]) -> bool {
    let told = history.iter().filter_map(|event| match event {
        Event::Call { stamp, .. } => Some(*stamp),
        _ => None,
    });
    told.eq(stamps.iter().copied())
}

/// Returns whether the worked plan runs with jobs that meet at their second steps, and does all
/// that it says.
fn meets<R: Threads + Wait + Clock + Sync>(rt: &R, alloc: Global) -> Result<bool, Fail> {
    let gate = Meeting::up_to(3);
    let outcome = run_meeting(rt, alloc, WORKED, &gate, MEETING_TURNS)?;
    let rows = outcome.core.tree().rows()?.len();
    let have_made = outcome.reports.iter().all(|report| has_made(report));
    let has_all = has_stamps(outcome.core.history(), &[2, 3, 4, 5, 6, 7, 8, 9]);
    Ok(have_made && has_all && rows == 9 && gate.met.load(Ordering::SeqCst) == 4)
}

/// Returns whether a job has used up its turns after its mkdir, or has committed, and found nothing
/// of the other one.
fn has_crossed(report: &Report) -> bool {
    match (report.end, report.calls.as_slice()) {
        (End::Waited, [made]) => made.reply == Reply::Done,
        (End::Committed, [made, told]) => {
            made.reply == Reply::Done && told.reply == Reply::Failed(Errno::ENOENT)
        }
        _ => false,
    }
}

/// Returns whether, of two jobs that wait for each other, one uses up its turns at least, and the
/// other may go on.
fn crosses<R: Threads + Wait + Clock + Sync>(rt: &R, alloc: Global) -> Result<bool, Fail> {
    let gate = Meeting::up_to(1);
    let outcome = run_meeting(rt, alloc, CROSSED, &gate, FEW_TURNS)?;
    let have_crossed = outcome.reports.iter().all(|report| has_crossed(report));
    let has_waited = outcome
        .reports
        .iter()
        .any(|report| report.end == End::Waited);
    Ok(have_crossed && has_waited && gate.met.load(Ordering::SeqCst) == 2)
}

/// The outcome of two jobs that wait for each other, if one of them is begun again.
fn crosses_again<R: Threads + Wait + Clock + Sync>(
    rt: &R,
    alloc: Global,
) -> Result<JobsOutcome, Fail> {
    let plan = Plan::read(alloc, CROSSED)?;
    let gate = Meeting::up_to(1);
    let pace = Pace {
        turns: MEETING_TURNS,
        threads: 2,
        retries: Some(10),
    };
    Ok(run_jobs(rt, alloc, &plan, new_shared(alloc)?, &gate, pace)?)
}

/// Returns whether both jobs have committed, and each earlier try was aborted after its mkdir. (If
/// the machine is busy, there may be several.) The first transaction is never the youngest.
fn is_broken(outcome: &JobsOutcome) -> bool {
    let reports = outcome.reports.as_slice();
    reports.len() == 2 + outcome.victims.len()
        && reports.len() > 2
        && reports
            .iter()
            .take(2)
            .all(|report| report.end == End::Committed)
        && reports.iter().skip(2).all(|tried| is_tried(tried))
}

/// Returns whether a report is that of a try that was aborted after its first call, and whose
/// transaction was not the first one.
fn is_tried(report: &Report) -> bool {
    report.end == End::Deadlock && report.txn != Some(TxnId(1)) && report.calls.len() == 1
}

/// The outcome of two jobs of a strict plan, of which the first keeps its lock until the second one
/// has ended.
fn waits_in_vain<R: Threads + Wait + Clock + Sync>(
    rt: &R,
    alloc: Global,
) -> Result<JobsOutcome, Fail> {
    let plan = Plan::read(alloc, KEPT)?;
    let gate = Keeping {
        came: AtomicU64::new(0),
        ended: AtomicU64::new(0),
    };
    let pace = Pace::of_turns(FEW_TURNS);
    Ok(run_jobs(rt, alloc, &plan, new_shared(alloc)?, &gate, pace)?)
}

/// Returns whether the second job has failed at its first step, without a call and without a second
/// try, and the first one has committed.
fn has_waited_too_long(outcome: &JobsOutcome) -> bool {
    let [kept, waited] = outcome.reports.as_slice() else {
        return false;
    };
    kept.end == End::Committed
        && kept.calls.len() == 2
        && waited.end == End::Failed(1)
        && waited.calls.is_empty()
        && outcome.victims.is_empty()
}

/// An untruth of a manager.
#[derive(Clone, Copy)]
enum Lie {
    Nothing,
    /// It reports a call that is done as one that failed.
    DoneIsFailed,
    /// It begins subtransactions at the top.
    SubsAtTop,
    /// It commits nothing.
    NoCommit,
    /// It undoes a transaction's last call before it commits it.
    UndoFirst,
    /// It refuses to begin.
    NoBegin,
}

/// A manager that lies.
struct Lying {
    shared: Shared,
    lie: Lie,
}

impl Manager for Lying {
    fn begin<R: Wait>(&self, rt: &R) -> Result<TxnId, Fault> {
        match self.lie {
            Lie::NoBegin => Err(Fault::Full),
            _ => self.shared.begin(rt),
        }
    }

    fn sub<R: Wait>(&self, rt: &R, parent: TxnId) -> Result<TxnId, Fault> {
        match self.lie {
            Lie::SubsAtTop => self.shared.begin(rt),
            _ => self.shared.sub(rt, parent),
        }
    }

    fn ask_wait<R: Wait + Clock>(
        &self,
        rt: &R,
        txn: TxnId,
        call: &Call,
        turns: u64,
    ) -> Result<Outcome, Fault> {
        match (self.shared.ask_wait(rt, txn, call, turns), self.lie) {
            (
                Ok(
                    Outcome::Granted {
                        stamp,
                        reply: Reply::Done,
                    },
                ),
                Lie::DoneIsFailed,
            ) => Ok(Outcome::Granted {
                stamp,
                reply: Reply::Failed(Errno::ENOENT),
            }),
            (told, _) => told,
        }
    }

    fn commit<R: Wait>(&self, rt: &R, txn: TxnId) -> Result<(), Fault> {
        match self.lie {
            Lie::NoCommit => Ok(()),
            Lie::UndoFirst => {
                self.shared.undo_call(rt, txn)?;
                self.shared.commit(rt, txn)
            }
            _ => self.shared.commit(rt, txn),
        }
    }

    fn abort<R: Wait>(&self, rt: &R, txn: TxnId) -> Result<u64, Fault> {
        self.shared.abort(rt, txn)
    }

    fn break_deadlock<R: Wait>(&self, rt: &R) -> Result<Option<TxnId>, Fault> {
        self.shared.break_deadlock(rt)
    }

    fn is_victim<R: Wait>(&self, rt: &R, txn: TxnId) -> bool {
        self.shared.is_victim(rt, txn)
    }

    fn into_parts<R: Wait>(self, rt: &R) -> (Recorded, Vec<TxnId>) {
        let Lying { shared, lie: _ } = self;
        shared.into_parts(rt)
    }
}

/// The ends of the jobs of the worked plan, or why they are not reported, under a manager that lies
/// so.
fn ends_under<R: Threads + Wait + Clock + Sync>(
    rt: &R,
    alloc: Global,
    lie: Lie,
) -> Result<Result<Vec<End>, JobFault>, Fail> {
    let plan = Plan::read(alloc, WORKED)?;
    let lying = Lying {
        shared: new_shared(alloc)?,
        lie,
    };
    match run_jobs(
        rt,
        alloc,
        &plan,
        lying,
        &OpenGate,
        Pace::of_turns(FEW_TURNS),
    ) {
        Ok(outcome) => Ok(Ok(ends_of(alloc, outcome.reports.as_slice())?)),
        Err(fault) => Ok(Err(fault)),
    }
}

/// The ends in reports.
fn ends_of(alloc: Global, reports: &[Report]) -> Result<Vec<End>, Fail> {
    let mut ends = Vec::new(alloc);
    for report in reports {
        ends.push(report.end)?;
    }
    Ok(ends)
}

/// Returns whether the jobs end so.
fn have_ended(told: &Result<Vec<End>, JobFault>, ends: [End; 4]) -> bool {
    match told {
        Ok(told) => told.as_slice() == ends.as_slice(),
        Err(_) => false,
    }
}

/// Returns whether the reports are not what happened.
fn is_mismatch(told: &Result<Vec<End>, JobFault>) -> bool {
    matches!(told, Err(JobFault::Mismatch))
}

#[test]
fn jobs_side_by_side(rt: HostRuntime) -> Result<(), Fail> {
    assert!(rt; meets(&rt, rt.alloc())?);
    Ok(())
}

#[test]
fn turns_are_used_up(rt: HostRuntime) -> Result<(), Fail> {
    assert!(rt; crosses(&rt, rt.alloc())?);
    Ok(())
}

#[test]
fn deadlocks_are_broken(rt: HostRuntime) -> Result<(), Fail> {
    assert!(rt; is_broken(&crosses_again(&rt, rt.alloc())?));
    Ok(())
}

#[test]
fn strict_job_waits_too_long(rt: HostRuntime) -> Result<(), Fail> {
    assert!(rt; has_waited_too_long(&waits_in_vain(&rt, rt.alloc())?));
    Ok(())
}

#[test]
fn lies_are_mismatches(rt: HostRuntime) -> Result<(), Fail> {
    let alloc = rt.alloc();
    assert!(rt; have_ended(&ends_under(&rt, alloc, Lie::Nothing)?, [End::Committed; 4]));
    assert!(rt; is_mismatch(&ends_under(&rt, alloc, Lie::DoneIsFailed)?));
    assert!(rt; is_mismatch(&ends_under(&rt, alloc, Lie::SubsAtTop)?));
    assert!(rt; is_mismatch(&ends_under(&rt, alloc, Lie::NoCommit)?));
    assert!(rt; is_mismatch(&ends_under(&rt, alloc, Lie::UndoFirst)?));
    Ok(())
}

#[test]
fn subjobs_of_a_refused_job_do_not_start(rt: HostRuntime) -> Result<(), Fail> {
    let refused = End::Refused(Fault::Full);
    let ends = [refused, End::NotStarted, End::NotStarted, refused];
    assert!(rt; have_ended(&ends_under(&rt, rt.alloc(), Lie::NoBegin)?, ends));
    Ok(())
}

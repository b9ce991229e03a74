// All jobs of a plan, side by side.
ghost use Rattle.std.specs.Prelude.{◌≡◌, ◌≢◌, ◌⊎◌, IfOk, IfErr, IsErrOf, All};
ghost use Rattle.ft_core.specs.Living.{NoneIsLive, SomeIsLive};
ghost use Rattle.ft_job_reports.specs.Reports.{AreReports};
ghost use Rattle.ft_shared.specs.Victims.{WasVictim};

use crate::board::Board;
use crate::gate::Gate;
use crate::job_run::{Work, run_in_turn};
use crate::pace::{Pace, USUAL_RETRIES};
use ft_core::TxnId;
use ft_job_reports::{Report, are_reports, has_strict};
use ft_plan::{Job, JobFault, Plan};
use ft_record::Recorded;
use ft_shared::Manager;
use std::alloc::Global;
use std::sync::Wait;
use std::thread::{self, Threads};
use std::time::Clock;

/// The outcome of the jobs of a plan.
#[derive(Drop)]
pub struct JobsOutcome {
    /// The core, after all jobs have ended.
    pub core: Recorded,
    /// The transactions that were aborted to break deadlocks.
    pub victims: Vec<TxnId>,
    /// A report of each job, in the order of the plan, and then one of each earlier try.
    pub reports: Vec<Report>,
}

impl JobsOutcome {
    /// Returns the reports of the jobs of a plan, with what their manager gave back, once they are
    /// compared with its history.
    ///
    /// Returns Mismatch if they are not what happened, or a transaction is live. At a fault the
    /// core is dropped. Any other fault is Memory.
    pub fn checked(
        alloc: Global,
        plan: &Plan,
        core: Recorded,
        victims: Vec<TxnId>,
        reports: Vec<Report>,
    ) -> Result<JobsOutcome, JobFault>
        ensures same { IfOk result
            (λ outcome. (outcome.core ≡ core) × (outcome.victims ≡ victims)
            × (outcome.reports ≡ reports)) }
        ensures ok { IfOk result
            (λ outcome. AreReports outcome.core.state plan.now outcome.victims.items
            outcome.reports.items) }
        ensures none_live { IfOk result (λ outcome. NoneIsLive outcome.core.state) }
        ensures mismatch { IsErrOf result JobFault.Mismatch
            → SomeIsLive core.state
            ⊎ ¬ AreReports core.state plan.now victims.items reports.items }
        ensures cause { IfErr result (λ fault. fault ≢ JobFault.BadPlan) }
    {
        if core.has_live()
            || !are_reports(alloc, plan, &core, victims.as_slice(), reports.as_slice())?
        {
            return Err(JobFault::Mismatch);
        }
        Ok(JobsOutcome {
            core,
            victims,
            reports,
        })
    }
}

/// Runs the jobs of a plan in threads, each in a transaction of its own: a top job in one at the
/// top; a subjob, once its parent has reached its `subs`, in one under its parent's; and a job that
/// comes after others once these have committed. The pace gives the number of threads, how often a
/// call is requested, and how often a job is begun again that was aborted to break a deadlock.
///
/// At the end the reports are compared with the history, whatever the manager returned. Returns
/// Mismatch if they are not what happened or a transaction is live, and Thread if a thread could
/// not be started, after those that were have ended. At a fault the core is dropped. Any other
/// fault is Memory. The core is the one that the manager hands back.
pub fn run_jobs<M: Manager, G: Gate, R: Threads + Wait + Clock + Sync>(
    rt: &R,
    alloc: Global,
    plan: &Plan,
    manager: M,
    gate: &G,
    pace: Pace,
) -> Result<JobsOutcome, JobFault>
    ensures ok { IfOk result
        (λ outcome. AreReports outcome.core.state plan.now outcome.victims.items
        outcome.reports.items) }
    ensures core { IfOk result (λ outcome. M.hands_back outcome.core.state) }
    ensures victims { IfOk result
        (λ outcome. All (WasVictim outcome.core.state) outcome.victims.items) }
    ensures none_live { IfOk result (λ outcome. NoneIsLive outcome.core.state) }
    ensures cause { IfErr result (λ fault. fault ≢ JobFault.BadPlan) }
{
    let run = run_jobs_unchecked(rt, alloc, plan, &manager, gate, pace);
    let (core, victims) = manager.into_parts(rt);
    JobsOutcome::checked(alloc, plan, core, victims, run?)
}

/// Runs the jobs of a plan as `run_jobs` does, and returns what they report, which is compared with
/// nothing.
///
/// Returns Thread if a thread could not be started, after those that were have ended. Any other
/// fault is Memory.
pub fn run_jobs_unchecked<M: Manager, G: Gate, R: Threads + Wait + Clock + Sync>(
    rt: &R,
    alloc: Global,
    plan: &Plan,
    manager: &M,
    gate: &G,
    pace: Pace,
) -> Result<Vec<Report>, JobFault>
    ensures { IfErr result (λ fault. fault ≢ JobFault.BadPlan) }
{
    let jobs = plan.jobs();
    let board = Board::new(alloc, jobs)?;
    let work = Work {
        alloc,
        jobs,
        manager,
        gate,
        board: &board,
        turns: pace.turns,
        retries: retries_of(pace, jobs),
    };
    if !start_all(rt, &work, pace.threads) {
        return Err(JobFault::Thread);
    }
    Ok(board.into_reports())
}

/// Returns how often each of these jobs is begun again at most; none if no deadlock of theirs is
/// broken.
fn retries_of(pace: Pace, jobs: &[Job]) -> Option<u64> {
    if pace.retries.is_none() && has_strict(jobs) {
        return Some(USUAL_RETRIES);
    }
    pace.retries
}

/// Starts a thread for each job, but at most this many, and waits until all have ended. Returns
/// whether all could be started. After a thread that could not be started, no other is started.
fn start_all<M: Manager, G: Gate, R: Threads + Wait + Clock + Sync>(
    rt: &R,
    work: &Work<'_, M, G>,
    most: u64,
) -> bool {
    thread::scope(thread::scope_env(), rt, |scope| {
        for _ in 0..most.min(work.jobs.len() as u64) {
            if scope.spawn(move || run_in_turn(rt, work)).is_err() {
                return false;
            }
        }
        true
    })
}

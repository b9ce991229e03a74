// The jobs of a plan, shown while they run.
ghost use Rattle.std.specs.Prelude.{◌≢◌, IfOk, IfErr, All};
ghost use Rattle.ft_job_reports.specs.Reports.{AreReports};
ghost use Rattle.ft_shared.specs.Victims.{WasVictim};

use crate::job_run::JobRun;
use crate::watch::Watch;
use ft_jobs::{JobFault, JobsOutcome, OpenGate, Report, run_jobs, run_jobs_unchecked};
use ft_shared::Manager;
use std::alloc::Global;
use std::io::Write;
use std::sync::Wait;
use std::thread::{self, Threads};
use std::time::Clock;

/// Runs the jobs of a plan as `run_jobs` does, and meanwhile shows on a screen, if there is one,
/// how far they have come.
///
/// If there is not enough memory or no thread to show it, it is not shown.
pub fn run_jobs_shown<M: Manager, R: Threads + Wait + Clock + Sync, S: Write + Send + Drop>(
    rt: &R,
    alloc: Global,
    manager: M,
    run: JobRun<'_, S>,
) -> Result<JobsOutcome, JobFault>
    ensures ok { IfOk result
        (λ outcome. AreReports outcome.core.state run.entry.plan.now
        outcome.victims.items outcome.reports.items) }
    ensures victims { IfOk result
        (λ outcome. All (WasVictim outcome.core.state) outcome.victims.items) }
    ensures core { IfOk result (λ outcome. M.hands_back outcome.core.state) }
    ensures cause { IfErr result (λ fault. fault ≢ JobFault.BadPlan) }
{
    if run.screen.is_some() {
        if let Ok(watch) = Watch::new(alloc, run.plan.jobs()) {
            return run_watched(rt, alloc, manager, run, &watch);
        }
    }
    run_jobs(rt, alloc, run.plan, manager, &OpenGate, run.pace)
}

/// Runs them under a watch, which another thread shows.
fn run_watched<M: Manager, R: Threads + Wait + Clock + Sync, S: Write + Send + Drop>(
    rt: &R,
    alloc: Global,
    manager: M,
    run: JobRun<'_, S>,
    watch: &Watch<'_>,
) -> Result<JobsOutcome, JobFault>
    ensures ok { IfOk result
        (λ outcome. AreReports outcome.core.state run.entry.plan.now
        outcome.victims.items outcome.reports.items) }
    ensures victims { IfOk result
        (λ outcome. All (WasVictim outcome.core.state) outcome.victims.items) }
    ensures core { IfOk result (λ outcome. M.hands_back outcome.core.state) }
    ensures cause { IfErr result (λ fault. fault ≢ JobFault.BadPlan) }
{
    let plan = run.plan;
    let reports = report_watched(rt, alloc, &manager, run, watch);
    let (core, victims) = manager.into_parts(rt);
    JobsOutcome::checked(alloc, plan, core, victims, reports?)
}

/// Runs them so, and returns what they report.
fn report_watched<M: Manager, R: Threads + Wait + Clock + Sync, S: Write + Send + Drop>(
    rt: &R,
    alloc: Global,
    manager: &M,
    run: JobRun<'_, S>,
    watch: &Watch<'_>,
) -> Result<Vec<Report>, JobFault>
    ensures { IfErr result (λ fault. fault ≢ JobFault.BadPlan) }
{
    thread::scope(thread::scope_env(), rt, move |scope| {
        let JobRun { plan, pace, screen } = run;
        if let Some(mut screen) = screen {
            let _ = scope.spawn(move || watch.show(rt, alloc, &mut screen));
        }
        let reports = run_jobs_unchecked(rt, alloc, plan, manager, watch, pace);
        watch.stop(rt);
        reports
    })
}

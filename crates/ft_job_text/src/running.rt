// Runs a plan: reads it, runs its jobs in threads, and writes their outcome.
ghost use Rattle.std.specs.Prelude.{◌≡◌, ◌≢◌, IfOk, IfErr, All, string_bytes};
ghost use Rattle.ft_core.specs.Living.{NoneIsLive};
ghost use Rattle.ft_record.specs.Going.{GoesOn};
ghost use Rattle.ft_job_reports.specs.Reports.{AreReports};
ghost use Rattle.ft_shared.specs.Victims.{WasVictim};
ghost use Rattle.ft_shared.specs.Origins.{without_views};
ghost use Rattle.ft_job_text.specs.Runs.{IsTextOfJobs, RunsPlan, StopsPlan, text_of_outcome};

use crate::gets::bytes_of_gets;
use crate::job_run::{JobRun, PlanRun};
use crate::plan_end::PlanEnd;
use crate::text::OutcomeText;
use crate::watched::run_jobs_shown;
use ft_base::Memory;
use ft_jobs::{Job, JobFault, JobsOutcome, Plan, are_met};
use ft_plan_files::GetPlace;
use ft_record::Recorded;
use ft_script::write_out;
use ft_shared::{Shared, Sharing};
use ft_words::TreeText;
use std::alloc::Global;
use std::io::Write;
use std::marker::Brand;
use std::sync::Wait;
use std::thread::Threads;
use std::time::Clock;
use thiserror::Error;

/// Why a plan was not run to its end.
#[derive(Clone, Copy, Debug, PartialEq, Eq, Error)]
pub enum RunFault {
    /// The bytes are no plan, or its jobs could not be run.
    #[error("{0}")]
    Jobs(JobFault),
    /// A write failed, was interrupted or took nothing.
    #[error("Write")]
    Write,
}

impl From<JobFault> for RunFault {
    ghost use Rattle.std.specs.Prelude.{◌≡◌};
    ghost use Rattle.ft_job_text.specs.declared.running.RunFault.TheVariants.{Jobs};

    ghost from_gives = { λ fault made. made ≡ Jobs fault };

    fn from(fault: JobFault) -> RunFault {
        RunFault::Jobs(fault)
    }
}

/// Reads a plan, runs its jobs in threads on a core in which no transaction is live, and writes
/// their outcome: the text is of this core, as the jobs left it. How far they have come is shown on
/// a screen while they run, if there is one. Returns whether each job ended as the plan means, and
/// what the `get`s got.
///
/// A fault ends the run.
/// - Jobs: the bytes are no plan, or there was not enough memory, a thread could not be started, or
///   what the jobs report is not what happened. Nothing was written.
/// - Write: a write failed, was interrupted or took nothing. A part of the text was written.
pub fn run_plan<R: Threads + Wait + Clock + Sync, S: Write + Send + Drop, W: Write>(
    rt: &R,
    alloc: Global,
    core: Recorded,
    run: PlanRun<'_, S>,
    writer: &mut W,
) -> Result<PlanEnd, RunFault>
    requires { NoneIsLive core.state }
    ensures ok { IfOk result
        (λ end. RunsPlan end core.state run.entry.plan.now (W.contents writer.old)
        (W.contents writer.new)) }
    ensures fault { IfErr result
        (λ fault. StopsPlan fault core.state run.entry.plan.now (W.contents writer.old)
        (W.contents writer.new)) }
{
    let PlanRun {
        plan: written,
        pace,
        screen,
    } = run;
    let gets = written.gets.as_slice();
    let plan = Plan::read(alloc, written.bytes.as_slice())?;
    let run = JobRun {
        plan: &plan,
        pace,
        screen,
    };
    let (text, end) = text_of(rt, alloc, core, run, gets)?;
    match write_out(writer, text.as_bytes()) {
        Ok(()) => Ok(end),
        Err(_) => Err(RunFault::Write),
    }
}

/// Runs the jobs of a plan, and returns the text of their outcome, and how they ended.
fn text_of<R: Threads + Wait + Clock + Sync, S: Write + Send + Drop>(
    rt: &R,
    alloc: Global,
    core: Recorded,
    run: JobRun<'_, S>,
    gets: &[GetPlace],
) -> Result<(String, PlanEnd), JobFault>
    requires { NoneIsLive core.state }
    ensures ok { IfOk result
        (λ told. IsTextOfJobs told.1 gets.now core.state run.entry.plan.now (string_bytes told.0)) }
    ensures cause { IfErr result (λ fault. fault ≢ JobFault.BadPlan) }
{
    let jobs = run.plan.jobs();
    let outcome = run_on::<Brand, R, S>(rt, alloc, core, run)?;
    let text = told(alloc, jobs, &outcome)?;
    let reports = outcome.reports.as_slice();
    let met = are_met(jobs, reports);
    let got = bytes_of_gets(alloc, jobs, reports, gets)?;
    Ok((text, PlanEnd { met, got }))
}

/// Returns the text of the outcome of jobs.
fn told(alloc: Global, jobs: &[Job], outcome: &JobsOutcome) -> Result<String, Memory>
    ensures { IfOk result (λ text. string_bytes text ≡ text_of_outcome jobs.now outcome.now) }
{
    let rows = outcome.core.tree().rows()?;
    let tree = TreeText::of(alloc, rows.as_slice())?;
    let text = OutcomeText {
        jobs,
        reports: outcome.reports.as_slice(),
        history: outcome.core.history(),
        tree: &tree,
    };
    Ok(format!(in alloc; "{text}")?)
}

/// Runs them on a core, which the name `J` describes.
fn run_on<J: Sharing + Send + Sync, R: Threads + Wait + Clock + Sync, S: Write + Send + Drop>(
    rt: &R,
    alloc: Global,
    core: Recorded,
    run: JobRun<'_, S>,
) -> Result<JobsOutcome, JobFault>
    requires none_live { NoneIsLive core.state }
    requires named { without_views core.state ≡ J.origin }
    ensures ok { IfOk result
        (λ outcome. AreReports outcome.core.state run.entry.plan.now
        outcome.victims.items outcome.reports.items) }
    ensures victims { IfOk result
        (λ outcome. All (WasVictim outcome.core.state) outcome.victims.items) }
    ensures core { IfOk result (λ outcome. GoesOn core.state outcome.core.state) }
    ensures cause { IfErr result (λ fault. fault ≢ JobFault.BadPlan) }
{
    match Shared::<J>::new(core) {
        Ok(shared) => run_jobs_shown(rt, alloc, shared, run),
        Err(_) => unreachable!(),
    }
}

// Whether the jobs did what the plan means.
ghost use Rattle.std.specs.Prelude.{◌≡◌, ◌||◌, ◌&&◌, not, take};
ghost use Rattle.std.specs.List.{list_all, list_any};
ghost use Rattle.ft_plan.specs.Plans.{is_subjob_of};
ghost use Rattle.ft_job_reports.specs.Reports.{are_met, ended_as_meant, ends_as_meant, is_must, is_must_of, is_spared, is_strict_job, is_subs_at, may_end, spares};

use crate::report::{End, Report};
use crate::steps::{comes_to_subs, is_strict, is_subs};
use ft_plan::{Job, JobKind, Step};

/// Returns whether each job was ended by its last step, as the plan means, if one of them is
/// strict.
pub fn are_met(jobs: &[Job], reports: &[Report]) -> bool
    ensures { result ≡ are_met jobs.now reports.now }
{
    !has_strict(jobs) || have_ended_as_meant(reports, jobs.len())
}

/// Returns whether the jobs of the first so many of these reports were ended by their last steps.
fn have_ended_as_meant(reports: &[Report], count: usize) -> bool
    ensures { result ≡ list_all ended_as_meant (take count reports.now) }
{
    reports
        .iter()
        .take(count)
        .all(|report| ended_as_meant(report))
}

/// Returns whether one of the jobs is strict.
pub fn has_strict(jobs: &[Job]) -> bool
    ensures { result ≡ list_any is_strict_job jobs.now }
{
    jobs.iter().any(|job| is_strict_job(job))
}

/// Returns whether a job is strict.
fn is_strict_job(job: &Job) -> bool
    ensures { result ≡ is_strict_job job.now }
{
    is_strict(job.kind)
}

/// Returns whether the job of a report was ended by its last step.
pub fn ended_as_meant(report: &Report) -> bool
    ensures { result ≡ ended_as_meant report.now }
{
    ends_as_meant(report.end)
}

/// Returns whether a job with this end was ended by its last step.
fn ends_as_meant(end: End) -> bool
    ensures { result ≡ ends_as_meant end }
{
    matches!(end, End::Committed | End::Aborted)
}

/// Returns whether no job takes the one of this name along.
pub fn is_spared(jobs: &[Job], reports: &[Report], name: &[u8]) -> bool
    ensures { result ≡ is_spared jobs.now reports.now name.now }
{
    jobs.iter()
        .zip(reports)
        .all(|(job, report)| spares(name, job, report))
}

/// Returns whether this job does not take the job of this name along.
fn spares(name: &[u8], job: &Job, report: &Report) -> bool
    ensures { result ≡ spares name.now (job.now, report.now) }
{
    !is_must_of(name, job) || ended_as_meant(report)
}

/// Returns whether a job is one that takes the job of this name along.
fn is_must_of(name: &[u8], job: &Job) -> bool
    ensures { result ≡ is_must_of name.now job.now }
{
    is_must(job.kind) && is_subjob_of(name, job)
}

/// Returns whether a job of this kind takes the one around it along.
pub fn is_must(kind: JobKind) -> bool
    ensures { result ≡ is_must kind }
{
    matches!(kind, JobKind::Must)
}

/// Returns whether a job is under the job of this name.
fn is_subjob_of(name: &[u8], job: &Job) -> bool
    ensures { result ≡ is_subjob_of name.now job.now }
{
    match &job.parent {
        None => false,
        Some(parent) => parent.as_bytes() == name,
    }
}

/// Returns whether a job with these steps that ended so may be spared, or not: it fails at the step
/// that starts its subjobs exactly if it is not, and comes past that step only if it is.
pub fn may_end(steps: &[Step], end: End, spared: bool) -> bool
    ensures { result ≡ may_end steps.now end spared }
{
    match end {
        End::Committed | End::Aborted => spared,
        End::Failed(number) if is_subs_at(steps, number) => !spared,
        End::Failed(number) => spared || !comes_to_subs(steps, number),
        End::Waited | End::Refused(_) | End::Deadlock | End::NotStarted => true,
    }
}

/// Returns whether the step of this number, counted from 1, starts the subjobs.
fn is_subs_at(steps: &[Step], number: u64) -> bool
    ensures { result ≡ is_subs_at steps.now number }
{
    let Some(before) = number.checked_sub(1) else {
        return false;
    };
    match steps.get(before as usize) {
        None => false,
        Some(step) => is_subs(step),
    }
}

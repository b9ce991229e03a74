// Jobs by their names.
ghost use Rattle.std.specs.Prelude.{◌≡◌, option_copied};
ghost use Rattle.std.specs.List.{position, slice_get};
ghost use Rattle.ft_job_reports.specs.Reports.{is_named, report_of, txn_of};

use crate::report::Report;
use ft_core::TxnId;
use ft_plan::Job;

/// Returns the place of the job of this name.
pub fn place_of(jobs: &[Job], name: &[u8]) -> Option<usize>
    ensures { result ≡ position (is_named name.now) jobs.now }
{
    jobs.iter().position(|job| is_named(name, job))
}

/// Returns whether a job has this name.
fn is_named(name: &[u8], job: &Job) -> bool
    ensures { result ≡ is_named name.now job.now }
{
    job.name.as_bytes() == name
}

/// Returns the transaction of the job of this name.
pub fn txn_of(jobs: &[Job], reports: &[Report], name: &[u8]) -> Option<TxnId>
    ensures { result ≡ txn_of jobs.now reports.now name.now }
{
    report_of(jobs, reports, name)?.txn
}

/// Returns the job that a report is of.
pub fn job_of<'a>(jobs: &'a [Job], report: &Report) -> Option<&'a Job>
    ensures { option_copied result ≡ slice_get jobs.now report.now.job }
{
    jobs.get(report.job as usize)
}

/// Returns the report of the job of this name.
pub fn report_of<'a>(jobs: &[Job], reports: &'a [Report], name: &[u8]) -> Option<&'a Report>
    ensures { option_copied result ≡ report_of jobs.now reports.now name.now }
{
    let at = place_of(jobs, name)?;
    reports.get(at)
}

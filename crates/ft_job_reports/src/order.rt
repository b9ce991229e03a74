// Jobs that come after others.
ghost use Rattle.std.specs.Prelude.{◌≡◌, ◌||◌, ◌&&◌};
ghost use Rattle.std.specs.List.{list_all};
ghost use Rattle.ft_core.specs.Histories.{told};
ghost use Rattle.ft_job_reports.specs.Reports.{began_behind, comes_last, ends_committed, had_committed, has_committed, is_behind, is_unstarted, may_start};

use crate::history::had_committed;
use crate::places::{report_of, txn_of};
use crate::report::{End, Report};
use ft_core::{Event, TxnId};
use ft_plan::{Job, JobName};

/// Returns whether a job that was started comes after those that it must come after: they have
/// committed, before it began.
pub fn comes_last(
    events: &[Event],
    jobs: &[Job],
    reports: &[Report],
    job: &Job,
    report: &Report,
) -> bool
    ensures { result ≡ comes_last (told events.now) jobs.now reports.now job.now report.now }
{
    is_unstarted(report.end)
        || may_start(jobs, reports, job) && began_behind(events, jobs, reports, job, report.txn)
}

/// Returns whether a job with this end was not started.
fn is_unstarted(end: End) -> bool
    ensures { result ≡ is_unstarted end }
{
    matches!(end, End::NotStarted)
}

/// Returns whether each job that this one comes after has committed.
pub fn may_start(jobs: &[Job], reports: &[Report], job: &Job) -> bool
    ensures { result ≡ may_start jobs.now reports.now job.now }
{
    job.after
        .as_slice()
        .iter()
        .all(|name| has_committed(jobs, reports, name.as_bytes()))
}

/// Returns whether the job of this name has committed.
fn has_committed(jobs: &[Job], reports: &[Report], name: &[u8]) -> bool
    ensures { result ≡ has_committed jobs.now reports.now name.now }
{
    match report_of(jobs, reports, name) {
        None => false,
        Some(report) => ends_committed(report.end),
    }
}

/// Returns whether each job that this one comes after had committed when its transaction was begun,
/// if it has a transaction.
fn began_behind(
    events: &[Event],
    jobs: &[Job],
    reports: &[Report],
    job: &Job,
    txn: Option<TxnId>,
) -> bool
    ensures { result ≡ began_behind (told events.now) jobs.now reports.now job.now txn }
{
    match txn {
        None => true,
        Some(txn) => are_behind(events, jobs, reports, job.after.as_slice(), txn),
    }
}

/// Returns whether the jobs of these names had committed when a transaction was begun.
fn are_behind(
    events: &[Event],
    jobs: &[Job],
    reports: &[Report],
    names: &[JobName],
    txn: TxnId,
) -> bool
    ensures { result ≡ list_all (is_behind (told events.now) jobs.now reports.now txn) names.now }
{
    names.iter().all(|name| is_behind(events, jobs, reports, txn, name.as_bytes()))
}

/// Returns whether the job of this name had committed when a transaction was begun.
fn is_behind(events: &[Event], jobs: &[Job], reports: &[Report], txn: TxnId, name: &[u8]) -> bool
    ensures { result ≡ is_behind (told events.now) jobs.now reports.now txn name.now }
{
    match txn_of(jobs, reports, name) {
        None => false,
        Some(before) => had_committed(events, txn, before),
    }
}

/// Returns whether the transaction of a job that ended so is committed.
pub fn ends_committed(end: End) -> bool
    ensures { result ≡ ends_committed end }
{
    matches!(end, End::Committed)
}

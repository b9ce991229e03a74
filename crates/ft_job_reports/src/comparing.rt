// Whether reports are what happened.
ghost use Rattle.std.specs.Prelude.{◌≡◌, ◌↔◌, ◌||◌, not, true, ℕ, All, MatchOption, IfOk, IsTrue, option_copied};
ghost use Rattle.std.specs.List.{list_all};
ghost use Rattle.ft_core.specs.Histories.{told};
ghost use Rattle.ft_job_reports.specs.Reports.{has_txn, has_txn_up_to, has_first_up_to, is_reported, is_from_least_on, is_from_first_on, is_amid, have_own_txns, report_of, txn_of, IsNested, IsOfTxn, MayLackTxn, ends_committed, ends_deadlocked, is_victim, is_placed, may_lack_txn, may_leave_subjobs, steps_of, may_be_left, may_be_unstarted, may_end, is_spared, comes_last, IsReport, IsReportAt, HasItsFate, AreReports};
ghost use Rattle.ft_job_reports.specs.Asked.{IsDone};
ghost use Rattle.ft_job_reports.specs.Reading.{has_stamp, is_stamp_reported, is_accounted};

use crate::history::{are_calls_of, has_ended, has_rising_stamps, parent_of};
use crate::meeting::{is_spared, may_end};
use crate::order::{comes_last, ends_committed, may_start};
use crate::places::{job_of, place_of, report_of, txn_of};
use crate::report::{End, Report};
use crate::steps::{comes_to_subs, is_done, is_of_kind};
use ft_base::Memory;
use ft_core::{Event, TxnId};
use ft_plan::{Job, Plan, Step};
use ft_record::Recorded;
use std::alloc::Global;

/// Returns whether these are the reports of what happened to the jobs of a plan, in the core that
/// they left. Its only error is out of memory.
pub fn are_reports(
    alloc: Global,
    plan: &Plan,
    core: &Recorded,
    victims: &[TxnId],
    reports: &[Report],
) -> Result<bool, Memory>
    ensures { IfOk result (λ are. IsTrue are
        ↔ AreReports core.now.state plan.now victims.now reports.now) }
{
    let jobs = plan.jobs();
    if reports.len() < jobs.len()
        || !have_own_txns(reports)
        || !have_their_fates(core, victims, reports)
    {
        return Ok(false);
    }
    let events = core.history();
    if !are_each(alloc, events, jobs, reports)? {
        return Ok(false);
    }
    Ok(are_accounted(events, reports))
}

/// Returns whether the transactions of the reports are committed or aborted as they say.
fn have_their_fates(core: &Recorded, victims: &[TxnId], reports: &[Report]) -> bool
    ensures { IsTrue result ↔ All (HasItsFate core.now.state victims.now) reports.now }
{
    for report in reports {
        if !has_its_fate(core, victims, report) {
            return false;
        }
    }
    true
}

/// Returns whether the transaction of a report, if it has one, is committed or aborted as it says,
/// and was aborted to break a deadlock exactly if it says so.
fn has_its_fate(core: &Recorded, victims: &[TxnId], report: &Report) -> bool
    ensures { IsTrue result ↔ HasItsFate core.now.state victims.now report.now }
{
    match report.txn {
        None => true,
        Some(txn) => {
            has_ended(core, txn, ends_committed(report.end))
                && ends_deadlocked(report.end) == is_victim(victims, txn)
        }
    }
}

/// Returns whether the transaction of a job that ended so was aborted to break a deadlock.
fn ends_deadlocked(end: End) -> bool
    ensures { result ≡ ends_deadlocked end }
{
    matches!(end, End::Deadlock)
}

/// Returns whether a transaction is one of these.
fn is_victim(victims: &[TxnId], txn: TxnId) -> bool
    ensures { result ≡ is_victim victims.now txn }
{
    victims.iter().any(|victim| *victim == txn)
}

/// Returns whether each report is that of its job.
fn are_each(
    alloc: Global,
    events: &[Event],
    jobs: &[Job],
    reports: &[Report],
) -> Result<bool, Memory>
    ensures { IfOk result (λ are. IsTrue are ↔ ((at : ℕ)
        → IsReportAt (told events.now) jobs.now reports.now at)) }
{
    for at in 0..reports.len() {
        if !is_report_at(alloc, events, jobs, reports, at)? {
            return Ok(false);
        }
    }
    Ok(true)
}

/// Returns whether the report at this place, if there is one, is that of its job.
fn is_report_at(
    alloc: Global,
    events: &[Event],
    jobs: &[Job],
    reports: &[Report],
    at: usize,
) -> Result<bool, Memory>
    ensures { IfOk result (λ is. IsTrue is ↔ IsReportAt (told events.now) jobs.now reports.now at) }
{
    let Some(report) = reports.get(at) else {
        return Ok(true);
    };
    let Some(job) = job_of(jobs, report) else {
        return Ok(false);
    };
    if !is_done(alloc, job.steps.as_slice(), report)? {
        return Ok(false);
    }
    Ok(is_placed(jobs, at, report) && is_report_of(events, jobs, reports, job, report))
}

/// Returns whether a report is that of its job, wherever it is, if the job did what it reports.
fn is_report_of(
    events: &[Event],
    jobs: &[Job],
    reports: &[Report],
    job: &Job,
    report: &Report,
) -> bool
    ensures { (at : ℕ) → IsDone job.now.steps report.now.end report.now.calls
        → is_placed jobs.now at report.now ≡ true
        → IsTrue result ↔ IsReport (told events.now) jobs.now reports.now at job.now report.now }
{
    is_of_kind(job, report)
        && has_rising_stamps(report.calls.as_slice())
        && is_of_txn(events, jobs, reports, job, report)
        && is_started(jobs, reports, job, report)
        && comes_last(events, jobs, reports, job, report)
        && may_end(
            job.steps.as_slice(),
            report.end,
            is_spared(jobs, reports, job.name.as_bytes()),
        )
}

/// Returns whether the report at this place is that of the job of this place, or after all those of
/// an earlier try, which a deadlock ended.
fn is_placed(jobs: &[Job], at: usize, report: &Report) -> bool
    ensures { result ≡ is_placed jobs.now at report.now }
{
    if at < jobs.len() {
        report.job == at as u64
    } else {
        ends_deadlocked(report.end)
    }
}

/// Returns whether a report has exactly the calls that its transaction was granted, and the
/// transaction is nested as the job is. Without a transaction, returns whether there may be none,
/// and there are no calls.
fn is_of_txn(events: &[Event], jobs: &[Job], reports: &[Report], job: &Job, report: &Report) -> bool
    ensures { IsTrue result ↔ MatchOption report.now.txn (MayLackTxn report.now)
        (IsOfTxn (told events.now) jobs.now reports.now job.now report.now) }
{
    let calls = report.calls.as_slice();
    match report.txn {
        Some(txn) => {
            are_calls_of(events, txn, calls) && is_nested(events, jobs, reports, job, txn)
        }
        None => may_lack_txn(report.end) && calls.is_empty(),
    }
}

/// Returns whether a transaction is nested as its job is.
fn is_nested(events: &[Event], jobs: &[Job], reports: &[Report], job: &Job, txn: TxnId) -> bool
    ensures { IsTrue result ↔ IsNested (told events.now) jobs.now reports.now job.now.parent txn }
{
    match (parent_of(events, txn), &job.parent) {
        (None, None) => true,
        (Some(parent), Some(name)) => { txn_of(jobs, reports, name.as_bytes()) == Some(parent) }
        _ => false,
    }
}

/// Returns false if the report says that the job was not started, and the job may not be unstarted.
/// Returns true otherwise.
fn is_started(jobs: &[Job], reports: &[Report], job: &Job, report: &Report) -> bool
    ensures { IsTrue result ↔ (report.now.end ≡ End.NotStarted
        → may_be_unstarted jobs.now reports.now job.now ≡ true) }
{
    match report.end {
        End::NotStarted => may_be_unstarted(jobs, reports, job),
        _ => true,
    }
}

/// Returns whether the parent of a job may have left it unstarted, or a job that it comes after has
/// not committed.
fn may_be_unstarted(jobs: &[Job], reports: &[Report], job: &Job) -> bool
    ensures { result ≡ may_be_unstarted jobs.now reports.now job.now }
{
    may_be_left(jobs, reports, job) || !may_start(jobs, reports, job)
}

/// Returns whether the job is a subjob that its parent may have left unstarted.
fn may_be_left(jobs: &[Job], reports: &[Report], job: &Job) -> bool
    ensures { result ≡ may_be_left jobs.now reports.now job.now }
{
    let Some(name) = &job.parent else {
        return false;
    };
    match report_of(jobs, reports, name.as_bytes()) {
        None => false,
        Some(parent) => may_leave_subjobs(steps_of(jobs, name.as_bytes()), parent.end),
    }
}

/// Returns the steps of the job of this name.
fn steps_of<'a>(jobs: &'a [Job], name: &[u8]) -> &'a [Step]
    ensures { result.now ≡ steps_of jobs.now name.now }
{
    match place_of(jobs, name).and_then(|at| jobs.get(at)) {
        None => &[],
        Some(job) => job.steps.as_slice(),
    }
}

/// Returns whether a job with these steps and this end may have left its subjobs unstarted.
fn may_leave_subjobs(steps: &[Step], end: End) -> bool
    ensures { result ≡ may_leave_subjobs steps.now end }
{
    match end {
        End::Waited | End::Refused(_) | End::Deadlock | End::NotStarted => true,
        End::Failed(number) => !comes_to_subs(steps, number),
        End::Committed | End::Aborted => false,
    }
}

/// Returns whether a job with this end may have had no transaction.
fn may_lack_txn(end: End) -> bool
    ensures { result ≡ may_lack_txn end }
{
    matches!(end, End::Refused(_) | End::NotStarted)
}

/// Returns whether no transaction is that of two reports.
#[tactic(auto, using(std::proofs::lemmas::List::drop_more))]
fn have_own_txns(reports: &[Report]) -> bool
    ensures { result ≡ have_own_txns reports.now }
{
    for at in 0..reports.len() {
        if let Some(txn) = reports[at].txn {
            if is_reported(&reports[at + 1..], txn) {
                return false;
            }
        }
    }
    true
}

/// Returns whether a transaction is that of a report.
fn is_reported(reports: &[Report], txn: TxnId) -> bool
    ensures { result ≡ is_reported reports.now txn }
{
    reports.iter().any(|report| has_txn(txn, report))
}

/// Returns whether a transaction is that of this report.
fn has_txn(txn: TxnId, report: &Report) -> bool
    ensures { result ≡ has_txn txn report.now }
{
    match report.txn {
        None => false,
        Some(reported) => reported == txn,
    }
}

/// Returns whether a transaction is not below the least that is reported.
fn is_from_least_on(reports: &[Report], txn: TxnId) -> bool
    ensures { result ≡ is_from_least_on reports.now txn }
{
    reports.iter().any(|report| has_txn_up_to(txn, report))
}

/// Returns whether the report has a transaction up to this one.
fn has_txn_up_to(txn: TxnId, report: &Report) -> bool
    ensures { result ≡ has_txn_up_to txn report.now }
{
    match report.txn {
        None => false,
        Some(reported) => reported.0 <= txn.0,
    }
}

/// Returns whether a stamp is not below the least that is reported.
fn is_from_first_on(reports: &[Report], stamp: u64) -> bool
    ensures { result ≡ is_from_first_on reports.now stamp }
{
    reports.iter().any(|report| has_first_up_to(stamp, report))
}

/// Returns whether the report has a call, and its first has a stamp up to this one.
fn has_first_up_to(stamp: u64, report: &Report) -> bool
    ensures { result ≡ has_first_up_to stamp report.now }
{
    match report.calls.as_slice().first() {
        None => false,
        Some(call) => call.stamp <= stamp,
    }
}

/// Returns whether a call of this transaction with this stamp is not before the jobs.
fn is_amid(reports: &[Report], txn: TxnId, stamp: u64) -> bool
    ensures { result ≡ is_amid reports.now txn stamp }
{
    is_from_least_on(reports, txn) || is_from_first_on(reports, stamp)
}

/// Returns whether a report has a call with this stamp.
fn is_stamp_reported(reports: &[Report], stamp: u64) -> bool
    ensures { result ≡ is_stamp_reported reports.now stamp }
{
    reports.iter().any(|report| has_stamp(stamp, report))
}

/// Returns whether this report has a call with this stamp.
fn has_stamp(stamp: u64, report: &Report) -> bool
    ensures { result ≡ has_stamp stamp report.now }
{
    report
        .calls
        .as_slice()
        .iter()
        .any(|call| call.stamp == stamp)
}

/// Returns whether each call amid the jobs is one of theirs, and none of theirs is undone.
fn are_accounted(events: &[Event], reports: &[Report]) -> bool
    ensures { result ≡ list_all (is_accounted reports.now) events.now }
{
    events.iter().all(|event| is_accounted(reports, event))
}

/// Returns false for a call amid the jobs that is not one of theirs, and for an event that undoes
/// one of theirs. Returns true for any other event.
fn is_accounted(reports: &[Report], event: &Event) -> bool
    ensures { result ≡ is_accounted reports.now event.now }
{
    match event {
        Event::Call { stamp, txn, .. } => {
            !is_amid(reports, *txn, *stamp) || is_reported(reports, *txn)
        }
        Event::Undo { stamp } => !is_stamp_reported(reports, *stamp),
        _ => true,
    }
}

// The text of the outcome of jobs.
ghost use Rattle.std.specs.Prelude.{◌≡◌, Some, drop, length};
ghost use Rattle.std.specs.List.{flat_map, count_by};
ghost use Rattle.ft_job_text.specs.Texts.{txn_text, end_text, job_text, jobs_text, try_text, is_call, event_text, history_text, outcome_text};

use ft_core::{Event, TxnId};
use ft_job_reports::job_of;
use ft_jobs::{End, Job, Report};
use ft_line::fault_name;
use ft_words::{CallText, ReplyText, TreeText};
use std::fmt;

/// The outcome of jobs: what became of each, the calls that were granted, and what the tree holds.
/// Each line has its line feed.
#[derive(Clone, Copy)]
pub struct OutcomeText<'a> {
    /// The jobs of the plan.
    pub jobs: &'a [Job],
    /// The report of each, in the same order, and then those of earlier tries.
    pub reports: &'a [Report],
    /// The events.
    pub history: &'a [Event],
    /// The text of the tree.
    pub tree: &'a TreeText<'a>,
}

impl fmt::Display for OutcomeText<'_> {
    ghost output = { λ text. Some
        (outcome_text text.jobs.now text.reports.now text.history.now text.tree.now) };

    fn fmt<W: fmt::Write>(&self, f: &mut fmt::Formatter<W>) -> fmt::Result {
        let jobs = JobLines {
            jobs: self.jobs,
            reports: self.reports,
        };
        let tries = TryLines {
            jobs: self.jobs,
            tries: tries_of(self.jobs, self.reports),
        };
        let history = HistoryText(self.history);
        write!(f, "{jobs}{tries}{history}\n{}\n", self.tree)
    }
}

/// Jobs with what became of them, each with a line feed.
#[derive(Clone, Copy)]
struct JobLines<'a> {
    jobs: &'a [Job],
    reports: &'a [Report],
}

impl fmt::Display for JobLines<'_> {
    ghost output = { λ lines. Some (jobs_text lines.jobs.now lines.reports.now) };

    fn fmt<W: fmt::Write>(&self, f: &mut fmt::Formatter<W>) -> fmt::Result {
        for (job, report) in self.jobs.iter().zip(self.reports) {
            write!(f, "{}\n", JobText(job, report))?;
        }
        Ok(())
    }
}

/// Returns the reports of earlier tries.
#[tactic(auto, using(std::proofs::lemmas::List::drop_all))]
fn tries_of<'a>(jobs: &[Job], reports: &'a [Report]) -> &'a [Report]
    ensures { result.now ≡ drop (length jobs.now) reports.now }
{
    if reports.len() < jobs.len() {
        return &[];
    }
    &reports[jobs.len()..]
}

/// Earlier tries of jobs, each with a line feed.
#[derive(Clone, Copy)]
struct TryLines<'a> {
    jobs: &'a [Job],
    tries: &'a [Report],
}

impl fmt::Display for TryLines<'_> {
    ghost output = { λ lines. Some (flat_map (try_text lines.jobs.now) lines.tries.now) };

    fn fmt<W: fmt::Write>(&self, f: &mut fmt::Formatter<W>) -> fmt::Result {
        for report in self.tries {
            write!(f, "{}", TryText(self.jobs, report))?;
        }
        Ok(())
    }
}

/// An earlier try of a job, with its line feed, and nothing if there is no such job.
#[derive(Clone, Copy)]
struct TryText<'a>(&'a [Job], &'a Report);

impl fmt::Display for TryText<'_> {
    ghost output = { λ text. Some (try_text text.0.now text.1.now) };

    fn fmt<W: fmt::Write>(&self, f: &mut fmt::Formatter<W>) -> fmt::Result {
        let report = self.1;
        match job_of(self.0, report) {
            None => Ok(()),
            Some(job) => write!(
                f,
                "try {} {} {}\n",
                job.name,
                TxnText(report.txn),
                EndText(report.end)
            ),
        }
    }
}

/// The outcome of a job.
#[derive(Clone, Copy)]
struct JobText<'a>(&'a Job, &'a Report);

impl fmt::Display for JobText<'_> {
    ghost output = { λ text. Some (job_text text.0.now text.1.now) };

    fn fmt<W: fmt::Write>(&self, f: &mut fmt::Formatter<W>) -> fmt::Result {
        let report = self.1;
        write!(
            f,
            "job {} {} {}",
            self.0.name,
            TxnText(report.txn),
            EndText(report.end)
        )
    }
}

/// The number of a transaction, or `-` if there is none.
#[derive(Clone, Copy)]
struct TxnText(Option<TxnId>);

impl fmt::Display for TxnText {
    ghost output = { λ text. Some (txn_text text.0) };

    fn fmt<W: fmt::Write>(&self, f: &mut fmt::Formatter<W>) -> fmt::Result {
        match self.0 {
            None => f.write_str("-"),
            Some(txn) => write!(f, "{}", txn.0),
        }
    }
}

/// How a job ended.
#[derive(Clone, Copy)]
struct EndText(End);

impl fmt::Display for EndText {
    ghost output = { λ text. Some (end_text text.0) };

    fn fmt<W: fmt::Write>(&self, f: &mut fmt::Formatter<W>) -> fmt::Result {
        match self.0 {
            End::Committed => f.write_str("committed"),
            End::Aborted => f.write_str("aborted"),
            End::Waited => f.write_str("waited"),
            End::Refused(fault) => write!(f, "refused {}", fault_name(fault)),
            End::Failed(number) => write!(f, "failed {number}"),
            End::Deadlock => f.write_str("deadlock"),
            End::NotStarted => f.write_str("notstarted"),
        }
    }
}

/// How many calls were granted, and each of them.
#[derive(Clone, Copy)]
struct HistoryText<'a>(&'a [Event]);

impl fmt::Display for HistoryText<'_> {
    ghost output = { λ text. Some (history_text text.0.now) };

    fn fmt<W: fmt::Write>(&self, f: &mut fmt::Formatter<W>) -> fmt::Result {
        write!(f, "history {}{}", call_count(self.0), CallLines(self.0))
    }
}

/// Granted calls, each after a line feed.
#[derive(Clone, Copy)]
struct CallLines<'a>(&'a [Event]);

impl fmt::Display for CallLines<'_> {
    ghost output = { λ lines. Some (flat_map event_text lines.0.now) };

    fn fmt<W: fmt::Write>(&self, f: &mut fmt::Formatter<W>) -> fmt::Result {
        for event in self.0 {
            write!(f, "{}", EventText(event))?;
        }
        Ok(())
    }
}

/// A granted call after a line feed, and nothing for another event.
#[derive(Clone, Copy)]
struct EventText<'a>(&'a Event);

impl fmt::Display for EventText<'_> {
    ghost output = { λ text. Some (event_text text.0.now) };

    fn fmt<W: fmt::Write>(&self, f: &mut fmt::Formatter<W>) -> fmt::Result {
        let Event::Call {
            stamp,
            txn,
            call,
            reply,
            ..
        } = self.0
        else {
            return Ok(());
        };
        write!(
            f,
            "\ncall {stamp} {} {} = {}",
            txn.0,
            CallText(call),
            ReplyText(reply)
        )
    }
}

/// Returns how many calls were granted.
fn call_count(history: &[Event]) -> usize
    ensures { result ≡ count_by is_call history.now }
{
    let mut count = 0;
    for event in history {
        if is_call(event) {
            count += 1;
        }
    }
    count
}

/// Returns whether a call was granted.
fn is_call(event: &Event) -> bool
    ensures { result ≡ is_call event.now }
{
    matches!(event, Event::Call { .. })
}

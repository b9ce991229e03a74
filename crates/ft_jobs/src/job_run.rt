// One job, from its begin to its end.
ghost use Rattle.std.specs.Prelude.{◌≤◌};

use crate::board::{Board, Start};
use crate::gate::Gate;
use ft_core::{Call, Fault, Outcome, TxnId};
use ft_job_reports::{
    CallReport, End, Report, call_of_step, comes_to_subs, goes_on, is_strict, opened_descriptor,
};
use ft_plan::{Job, Step};
use ft_shared::Manager;
use std::alloc::Global;
use std::sync::Wait;
use std::time::Clock;

/// The parts that the threads of all jobs share.
#[derive(Drop)]
pub struct Work<'a, M, G> {
    pub alloc: Global,
    pub jobs: &'a [Job],
    pub manager: &'a M,
    pub gate: &'a G,
    pub board: &'a Board,
    /// How often a call is requested.
    pub turns: u64,
    /// How often a job is begun again; none if no deadlock is broken.
    pub retries: Option<u64>,
    pub ghost some: { 1 ≤ turns },
}

/// Runs jobs to their ends, one after another, until all are taken, and notes on the board what
/// became of each.
///
/// While a job waits for its subjobs, those that no other thread has taken are run here: so a job
/// that waits for another one never keeps that from a thread.
pub fn run_in_turn<M: Manager, G: Gate, R: Wait + Clock>(rt: &R, work: &Work<'_, M, G>) {
    // The jobs that wait for their subjobs, each of which is a subjob of the one before it.
    let mut parked = Vec::new(work.alloc);
    for _ in rt.forever() {
        let run = match taken(rt, work, parked.as_slice()) {
            Some(at) => begun(rt, work, at),
            None => match parked.pop() {
                None => break,
                Some(run) => passed(rt, work, run),
            },
        };
        if let Some(run) = run {
            go_on(rt, work, run, &mut parked);
        }
    }
}

/// Takes the next job for a thread: a subjob of the job that was parked last, or any job if none is
/// parked.
fn taken<M: Manager, G: Gate, R: Wait>(
    rt: &R,
    work: &Work<'_, M, G>,
    parked: &[Run<'_>],
) -> Option<usize> {
    match parked.last() {
        None => work.board.take(rt),
        Some(run) => work.board.take_below(rt, run.at),
    }
}

/// Begins a job's transaction. If it has none, the job ends.
fn begun<'a, M: Manager, G: Gate, R: Wait + Clock>(
    rt: &R,
    work: &Work<'a, M, G>,
    at: usize,
) -> Option<Run<'a>> {
    let job = work.jobs.get(at)?;
    let begun = match work.board.start_of(rt, at) {
        Start::Top => work.manager.begin(rt),
        Start::Under(txn) => work.manager.sub(rt, txn),
        Start::Never => {
            end(rt, work, unbegun(work.alloc, at, End::NotStarted));
            return None;
        }
    };
    match begun {
        Ok(txn) => Some(Run {
            at,
            job,
            txn,
            number: 0,
            calls: Vec::new(work.alloc),
            descriptors: Vec::new(work.alloc),
        }),
        Err(fault) => {
            end(rt, work, unbegun(work.alloc, at, End::Refused(fault)));
            None
        }
    }
}

/// Returns the report of a job that has no transaction.
fn unbegun(alloc: Global, at: usize, end: End) -> Report {
    Report {
        job: at as u64,
        txn: None,
        end,
        calls: Vec::new(alloc).into(),
    }
}

/// Notes how a job has ended.
fn end<M: Manager, G: Gate, R: Wait + Clock>(rt: &R, work: &Work<'_, M, G>, report: Report) {
    let job = report.job;
    work.board.end(rt, job as usize, report);
    work.gate.ended(rt, job);
}

/// Passes the step at which the subjobs of a job have ended. If one of them takes the job along,
/// the job ends.
fn passed<'a, M: Manager, G: Gate, R: Wait + Clock>(
    rt: &R,
    work: &Work<'a, M, G>,
    run: Run<'a>,
) -> Option<Run<'a>> {
    let mut run = run;
    if !work.board.is_spared(rt, run.at) {
        let failed = End::Failed(run.number);
        run.finish(rt, work, failed);
        return None;
    }
    let _ = run.descriptors.push(0);
    Some(run)
}

/// Makes the steps of a job up to its end, or until its subjobs start: then the job is parked.
fn go_on<'a, M: Manager, G: Gate, R: Wait + Clock>(
    rt: &R,
    work: &Work<'a, M, G>,
    run: Run<'a>,
    parked: &mut Vec<Run<'a>>,
) {
    let mut run = run;
    match run.steps(rt, work) {
        Stop::Ended(end) => run.finish(rt, work, end),
        Stop::AtSubs => park(rt, work, run, parked),
    }
}

/// Lets the subjobs of a job start, and parks it until they have ended. If there is not enough
/// memory for that, the job ends.
fn park<'a, M: Manager, G: Gate, R: Wait + Clock>(
    rt: &R,
    work: &Work<'a, M, G>,
    run: Run<'a>,
    parked: &mut Vec<Run<'a>>,
) {
    let mut run = run;
    if parked.try_reserve(1).is_err() || run.descriptors.try_reserve(1).is_err() {
        run.finish(rt, work, End::Refused(Fault::Memory));
        return;
    }
    work.board.open_subs(rt, run.at, run.txn);
    let _ = parked.push(run);
}

/// Why a job goes no further for now.
#[derive(Clone, Copy)]
enum Stop {
    // Its subjobs start.
    AtSubs,
    // It is to end so.
    Ended(End),
}

/// A running job: the calls that it was granted, and what each step so far opened.
#[derive(Drop)]
struct Run<'a> {
    // Its place in the plan.
    at: usize,
    job: &'a Job,
    txn: TxnId,
    // The number of the step that it is at.
    number: u64,
    calls: Vec<CallReport>,
    descriptors: Vec<u64>,
}

impl Run<'_> {
    /// Makes the next steps one after another, until its subjobs start or one ends the job.
    fn steps<M: Manager, G: Gate, R: Wait + Clock>(
        &mut self,
        rt: &R,
        work: &Work<'_, M, G>,
    ) -> Stop {
        let job = self.job;
        let steps = job.steps.as_slice();
        for before in self.number as usize..steps.len() {
            let step = &steps[before];
            self.number = before as u64 + 1;
            work.gate.pass(rt, self.at as u64, self.number);
            let made = match step {
                Step::Call(_) | Step::CallOn(_) | Step::Try(_) | Step::TryOn(_) => {
                    self.ask(rt, work, step)
                }
                Step::Subs => return Stop::AtSubs,
                Step::Commit => Err(commit(rt, work, self.txn)),
                Step::Abort => Err(abort(rt, work, self.txn)),
            };
            match made {
                Ok(descriptor) => {
                    let _ = self.descriptors.push(descriptor);
                }
                Err(end) => return Stop::Ended(end),
            }
        }
        // The last step of a plan's job is a commit or an abort.
        Stop::Ended(abort(rt, work, self.txn))
    }

    /// Requests the call of a step, and returns the descriptor that it opened, or 0. The places of
    /// both and the copy of the call are made before, so that a granted call is reported.
    fn ask<M: Manager, G: Gate, R: Wait + Clock>(
        &mut self,
        rt: &R,
        work: &Work<'_, M, G>,
        step: &Step,
    ) -> Result<u64, End> {
        if self.calls.try_reserve(1).is_err() || self.descriptors.try_reserve(1).is_err() {
            return Err(self.failing(End::Refused(Fault::Memory)));
        }
        let Ok(Some(call)) = call_of_step(work.alloc, step, self.descriptors.as_slice()) else {
            return Err(self.failing(End::Refused(Fault::Memory)));
        };
        match ask_wait(rt, work, self.txn, &call) {
            Ok(Outcome::Granted { stamp, reply }) => {
                note_grant(rt, work);
                self.granted(step, CallReport { stamp, call, reply })
            }
            Ok(Outcome::Waits { .. }) => Err(self.failing(End::Waited)),
            Err(fault) => Err(self.failing(End::Refused(fault))),
        }
    }

    /// Notes the call that a step was granted, and returns the descriptor that it opened, or 0. In
    /// a strict job the step fails if its call failed and the step is not tried.
    fn granted(&mut self, step: &Step, call: CallReport) -> Result<u64, End> {
        let descriptor = opened_descriptor(&call.reply);
        let fails = is_strict(self.job.kind) && !goes_on(step, &call);
        let _ = self.calls.push(call);
        if fails {
            return Err(End::Failed(self.number));
        }
        Ok(descriptor)
    }

    /// Returns how the job ends if its step could not be made. A job that is not strict ends with
    /// this end.
    fn failing(&self, end: End) -> End {
        if is_strict(self.job.kind) {
            return End::Failed(self.number);
        }
        end
    }

    /// Ends the job in this way. If one of its steps could not be made, its transaction is aborted
    /// first.
    fn finish<M: Manager, G: Gate, R: Wait + Clock>(self, rt: &R, work: &Work<'_, M, G>, how: End) {
        let end_of_it = self.end_at(rt, work, how);
        let may_begin_again = !comes_to_subs(self.job.steps.as_slice(), self.number);
        let report = Report {
            job: self.at as u64,
            txn: Some(self.txn),
            end: end_of_it,
            calls: self.calls.into(),
        };
        match end_of_it {
            End::Deadlock if may_begin_again => begin_again(rt, work, report),
            _ => end(rt, work, report),
        }
    }

    /// Returns how the job ends, once its transaction is aborted if one of its steps could not be
    /// made.
    fn end_at<M: Manager, G: Gate, R: Wait + Clock>(
        &self,
        rt: &R,
        work: &Work<'_, M, G>,
        how: End,
    ) -> End {
        if !matches!(how, End::Waited | End::Refused(_) | End::Failed(_)) {
            return how;
        }
        // It may have ended with one above it, or by itself to break a deadlock.
        let is_aborted = work.manager.abort(rt, self.txn).is_ok();
        if !is_aborted && work.manager.is_victim(rt, self.txn) {
            return End::Deadlock;
        }
        how
    }
}

/// Begins the job of a report again that a deadlock has ended, after a rest in which another one
/// may end. If it has begun again as often as it may, it has ended.
fn begin_again<M: Manager, G: Gate, R: Wait + Clock>(
    rt: &R,
    work: &Work<'_, M, G>,
    report: Report,
) {
    let job = report.job as usize;
    if work.board.retries(rt, job) >= work.retries.unwrap_or(0) {
        end(rt, work, report);
        return;
    }
    work.board.rest(rt, job);
    if let Some(report) = work.board.begin_again(rt, job, report) {
        end(rt, work, report);
    }
}

/// How often a call is requested before a deadlock is looked for. The number doubles from look to
/// look, up to `MOST_TURNS`.
const FIRST_TURNS: u64 = 2;

/// How often a call is requested between two looks for a deadlock at most.
const MOST_TURNS: u64 = 16;

/// Requests a call, as often as it may be requested. If deadlocks are broken, one is looked for
/// after the call has waited twice, four times more and so on, and at the end.
fn ask_wait<M: Manager, G: Gate, R: Wait + Clock>(
    rt: &R,
    work: &Work<'_, M, G>,
    txn: TxnId,
    call: &Call,
) -> Result<Outcome, Fault> {
    if work.retries.is_none() {
        return work.manager.ask_wait(rt, txn, call, work.turns);
    }
    let mut renewals = work.board.renewals(rt);
    let mut left = work.turns;
    let mut turns = FIRST_TURNS;
    let mut told = work.manager.ask_wait(rt, txn, call, left.min(turns));
    for _ in rt.forever() {
        if !matches!(told, Ok(Outcome::Waits { .. })) {
            break;
        }
        left = left.saturating_sub(turns);
        turns = turns.saturating_add(turns).min(MOST_TURNS);
        if has_renewed(rt, work, &mut renewals) {
            left = work.turns;
        }
        if left == 0 {
            break;
        }
        told = work.manager.ask_wait(rt, txn, call, left.min(turns).max(1));
    }
    told
}

/// Notes that a call was granted, if those that wait have all their turns again then.
fn note_grant<M: Manager, G: Gate, R: Wait>(rt: &R, work: &Work<'_, M, G>) {
    if work.retries.is_some() {
        work.board.renew(rt);
    }
}

/// Breaks all deadlocks that there are, and returns whether one was broken, a call was granted, or
/// a job was begun again or has ended, since the last look: then those that wait have all their
/// turns again.
fn has_renewed<M: Manager, G: Gate, R: Wait + Clock>(
    rt: &R,
    work: &Work<'_, M, G>,
    seen: &mut u64,
) -> bool {
    for _ in rt.forever() {
        // (if there is no memory for it, it is tried again later)
        if !matches!(work.manager.break_deadlock(rt), Ok(Some(_))) {
            break;
        }
        work.board.renew(rt);
    }
    let renewals = work.board.renewals(rt);
    let has_renewed = renewals != *seen;
    *seen = renewals;
    has_renewed
}

/// Commits a job's transaction, and returns how the job ends.
fn commit<M: Manager, G: Gate, R: Wait + Clock>(rt: &R, work: &Work<'_, M, G>, txn: TxnId) -> End {
    match work.manager.commit(rt, txn) {
        Ok(()) => End::Committed,
        Err(fault) => End::Refused(fault),
    }
}

/// Aborts a job's transaction, and returns how the job ends.
fn abort<M: Manager, G: Gate, R: Wait + Clock>(rt: &R, work: &Work<'_, M, G>, txn: TxnId) -> End {
    match work.manager.abort(rt, txn) {
        Ok(_) => End::Aborted,
        Err(fault) => End::Refused(fault),
    }
}

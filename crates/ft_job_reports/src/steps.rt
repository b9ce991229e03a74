// The calls that the steps of a job request.
ghost use Rattle.std.specs.Prelude.{◌≡◌, ◌≢◌, ◌↔◌, ◌-◌, false, IfOk, IsTrue, take, MatchOption};
ghost use Rattle.std.specs.List.{list_any, slice_get};
ghost use Rattle.ft_plan.specs.Plans.{is_subs};
ghost use Rattle.ft_job_reports.specs.Asked.{is_call, opened_descriptor, first_descriptor, opened_by, calls_behind, opened, opened_at, on_opened, asked_by, all_asked, asked_with, AreAllOf, AreFirstOf, is_strict, may_fail, goes_on, first_goes_on, all_go_on, is_of_kind, is_failing, failing_place, names_step, StopsAt, IsAtEnd, IsDone};

use crate::report::{CallReport, End, Report};
use ft_base::Memory;
use ft_calls::{Call, Reply};
use ft_plan::{Job, JobKind, Step};
use std::alloc::Global;

/// Returns the call that a step requests, if the steps opened these descriptors; none if it
/// requests none.
pub fn call_of_step(alloc: Global, step: &Step, descriptors: &[u64]) -> Result<Option<Call>, Memory>
    ensures { IfOk result (λ call. call ≡ asked_by descriptors.now step.now) }
{
    match step {
        Step::Call(call) | Step::Try(call) => Ok(Some(call.copy(alloc)?)),
        Step::CallOn(call) | Step::TryOn(call) => {
            Ok(Some(on_opened(call.copy(alloc)?, descriptors)))
        }
        Step::Subs | Step::Commit | Step::Abort => Ok(None),
    }
}

/// Returns the call with the descriptor that a step opened, in place of the number of the step.
fn on_opened(mut call: Call, descriptors: &[u64]) -> Call
    ensures { result ≡ on_opened descriptors.now call }
{
    let ds = descriptors;
    match &mut call {
        Call::Close { fd } => *fd = opened_at(ds, *fd),
        Call::Read { fd, .. } => *fd = opened_at(ds, *fd),
        Call::Write { fd, .. } => *fd = opened_at(ds, *fd),
        Call::Pread { fd, .. } => *fd = opened_at(ds, *fd),
        Call::Pwrite { fd, .. } => *fd = opened_at(ds, *fd),
        Call::Lseek { fd, .. } => *fd = opened_at(ds, *fd),
        Call::Ftruncate { fd, .. } => *fd = opened_at(ds, *fd),
        Call::Fstat { fd } => *fd = opened_at(ds, *fd),
        Call::Fchmod { fd, .. } => *fd = opened_at(ds, *fd),
        Call::Fchown { fd, .. } => *fd = opened_at(ds, *fd),
        Call::Futime { fd, .. } => *fd = opened_at(ds, *fd),
        _ => {}
    }
    call
}

/// Returns the descriptor that the step of this number opened. The first has the number 1.
fn opened_at(descriptors: &[u64], step: u64) -> u64
    ensures { result ≡ opened_at descriptors.now step }
{
    let Some(before) = step.checked_sub(1) else {
        return 0;
    };
    descriptors.get(before as usize).copied().unwrap_or(0)
}

/// Returns the descriptor that an open returned, or 0, which is none, if it failed.
pub fn opened_descriptor(reply: &Reply) -> u64
    ensures { result ≡ opened_descriptor reply.now }
{
    match reply {
        Reply::Number(descriptor) => *descriptor,
        _ => 0,
    }
}

/// Returns whether a step requests a call.
fn is_call(step: &Step) -> bool
    ensures { result ≡ is_call step.now }
{
    matches!(
        step,
        Step::Call(_) | Step::CallOn(_) | Step::Try(_) | Step::TryOn(_)
    )
}

/// Returns the descriptor that a step opened, if these are the calls from the step on.
fn opened_by(step: &Step, calls: &[CallReport]) -> u64
    ensures { result ≡ opened_by step.now calls.now }
{
    match calls.first() {
        Some(call) if is_call(step) => opened_descriptor(&call.reply),
        _ => 0,
    }
}

/// Returns the calls from the next step on.
fn calls_behind<'a>(step: &Step, calls: &'a [CallReport]) -> &'a [CallReport]
    ensures { result.now ≡ calls_behind step.now calls.now }
{
    if is_call(step) && !calls.is_empty() {
        &calls[1..]
    } else {
        calls
    }
}

/// Returns what each step opened, if these are the calls of the steps: a descriptor, or 0.
fn opened(alloc: Global, steps: &[Step], calls: &[CallReport]) -> Result<Vec<u64>, Memory>
    ensures { IfOk result (λ descriptors. descriptors.items ≡ opened steps.now calls.now) }
{
    let mut descriptors = Vec::new(alloc);
    let mut left = calls;
    for step in steps {
        descriptors.push(opened_by(step, left))?;
        left = calls_behind(step, left);
    }
    Ok(descriptors)
}

/// The extent to which calls are those that steps request.
#[derive(Clone, Copy, PartialEq, Eq)]
enum Extent {
    // All of it.
    Whole,
    // The first of it.
    Front,
    // They are other calls.
    Other,
}

/// Returns the extent of these calls among those that the steps request, if they opened these
/// descriptors.
fn extent_of(
    alloc: Global,
    steps: &[Step],
    descriptors: &[u64],
    calls: &[CallReport],
) -> Result<Extent, Memory>
    ensures whole { IfOk result
        (λ extent. (extent ≡ Extent.Whole)
        ↔ AreAllOf (all_asked descriptors.now steps.now) calls.now) }
    ensures front { IfOk result
        (λ extent. (extent ≢ Extent.Other)
        ↔ AreFirstOf (all_asked descriptors.now steps.now) calls.now) }
{
    let mut made = 0;
    for step in steps {
        if let Some(call) = call_of_step(alloc, step, descriptors)? {
            match calls.get(made) {
                None => return Ok(Extent::Front),
                Some(told) if told.is_of(&call) => made += 1,
                Some(_) => return Ok(Extent::Other),
            }
        }
    }
    if made < calls.len() {
        return Ok(Extent::Other);
    }
    Ok(Extent::Whole)
}

/// Returns whether the calls of a report are those of the steps of its job: all of them if its last
/// step ended the job, those up to a step if that failed, and else the first of them.
pub fn is_done(alloc: Global, steps: &[Step], report: &Report) -> Result<bool, Memory>
    ensures { IfOk result (λ done. IsTrue done ↔ IsDone steps.now report.now.end report.now.calls) }
{
    let calls = report.calls.as_slice();
    match report.end {
        End::Failed(number) => stops_at(alloc, steps, number, calls),
        end => comes_to(alloc, steps, end, calls),
    }
}

/// Returns whether these calls are those of the steps up to the one of this number. That step
/// starts the subjobs, or is a call that was not granted, or is a call that failed and may not.
fn stops_at(
    alloc: Global,
    steps: &[Step],
    number: u64,
    calls: &[CallReport],
) -> Result<bool, Memory>
    ensures { IfOk result (λ stops. IsTrue stops ↔ StopsAt steps.now number calls.now) }
{
    let Some(before) = failing_place(steps, number) else {
        return Ok(false);
    };
    if are_all_of(alloc, &steps[..before], calls)? {
        return Ok(true);
    }
    let made = &steps[..before + 1];
    if all_go_on(made, calls) {
        return Ok(false);
    }
    are_all_of(alloc, made, calls)
}

/// Returns how many steps come before the step of this number, if that step may fail. The first has
/// the number 1.
fn failing_place(steps: &[Step], number: u64) -> Option<usize>
    ensures { result ≡ failing_place steps.now number }
{
    let before = number.checked_sub(1)? as usize;
    match steps.get(before) {
        Some(step) if is_failing(step) => Some(before),
        _ => None,
    }
}

/// Returns whether a step may fail.
fn is_failing(step: &Step) -> bool
    ensures { result ≡ is_failing step.now }
{
    is_call(step) || is_subs(step)
}

/// Returns whether these calls are all that the steps request.
fn are_all_of(alloc: Global, steps: &[Step], calls: &[CallReport]) -> Result<bool, Memory>
    ensures { IfOk result (λ all. IsTrue all
        ↔ AreAllOf (asked_with steps.now calls.now) calls.now) }
{
    let descriptors = opened(alloc, steps, calls)?;
    let extent = extent_of(alloc, steps, descriptors.as_slice(), calls)?;
    Ok(extent == Extent::Whole)
}

/// Returns whether a job with these steps may have ended so, with these calls. The end names no
/// step.
fn comes_to(alloc: Global, steps: &[Step], end: End, calls: &[CallReport]) -> Result<bool, Memory>
    requires { names_step end ≡ false }
    ensures { IfOk result (λ done. IsTrue done ↔ IsDone steps.now end calls.now) }
{
    let descriptors = opened(alloc, steps, calls)?;
    let extent = extent_of(alloc, steps, descriptors.as_slice(), calls)?;
    Ok(is_at_end(steps, end, extent))
}

/// Returns whether a job with calls to this extent may have ended so: if the end names a step, that
/// is the last one, and all calls were made.
fn is_at_end(steps: &[Step], end: End, extent: Extent) -> bool
    ensures { IsTrue result ↔ IsAtEnd steps.now end extent }
{
    match end {
        End::Committed => extent == Extent::Whole && matches!(steps.last(), Some(Step::Commit)),
        End::Aborted => extent == Extent::Whole && matches!(steps.last(), Some(Step::Abort)),
        End::Waited | End::Refused(_) | End::Deadlock | End::NotStarted => {
            extent != Extent::Other
        }
        End::Failed(_) => false,
    }
}

/// Returns whether each call of a job of this kind must do what it requests, if it is not tried.
pub fn is_strict(kind: JobKind) -> bool
    ensures { result ≡ is_strict kind }
{
    matches!(kind, JobKind::Strict | JobKind::Must)
}

/// Returns whether the call of a step may fail in a strict job.
fn may_fail(step: &Step) -> bool
    ensures { result ≡ may_fail step.now }
{
    matches!(step, Step::Try(_) | Step::TryOn(_))
}

/// Returns whether a strict job goes on after this call of a step: it did what it requests, or may
/// fail.
pub fn goes_on(step: &Step, call: &CallReport) -> bool
    ensures { result ≡ goes_on step.now call.now }
{
    may_fail(step) || call.is_well()
}

/// Returns whether a strict job goes on after the first of these calls, if there is one and the
/// step requests a call. Returns true otherwise.
fn first_goes_on(step: &Step, calls: &[CallReport]) -> bool
    ensures { result ≡ first_goes_on step.now calls.now }
{
    match calls.first() {
        None => true,
        Some(call) => !is_call(step) || goes_on(step, call),
    }
}

/// Returns whether a strict job goes on after all these calls, if they are the calls of the steps.
fn all_go_on(steps: &[Step], calls: &[CallReport]) -> bool
    ensures { result ≡ all_go_on steps.now calls.now }
{
    let mut left = calls;
    for step in steps {
        if !first_goes_on(step, left) {
            return false;
        }
        left = calls_behind(step, left);
    }
    true
}

/// Returns whether the calls of a report, and its end, are those of a job of this kind: a strict
/// one goes on after each call except that of the step that has failed, and waits for nothing in
/// vain; no other fails.
pub fn is_of_kind(job: &Job, report: &Report) -> bool
    ensures { result ≡ is_of_kind job.now.kind job.now.steps report.now.end report.now.calls }
{
    let steps = job.steps.as_slice();
    let calls = report.calls.as_slice();
    match (is_strict(job.kind), report.end) {
        (false, End::Failed(_)) => false,
        (false, _) => true,
        (true, End::Waited) => false,
        (true, End::Failed(number)) => { all_go_on(front(steps, number), calls) }
        (true, _) => all_go_on(steps, calls),
    }
}

/// Returns the steps before the one of this number, counted from 1.
fn front(steps: &[Step], number: u64) -> &[Step]
    ensures { result.now ≡ take (number - 1) steps.now }
{
    let before = number.saturating_sub(1) as usize;
    &steps[..before.min(steps.len())]
}

/// Returns whether one of the steps up to the one of this number starts the subjobs.
pub fn comes_to_subs(steps: &[Step], number: u64) -> bool
    ensures { result ≡ list_any is_subs (take number steps.now) }
{
    steps.iter().take(number as usize).any(|step| is_subs(step))
}

/// Returns whether a step starts the subjobs.
pub fn is_subs(step: &Step) -> bool
    ensures { result ≡ is_subs step.now }
{
    matches!(step, Step::Subs)
}

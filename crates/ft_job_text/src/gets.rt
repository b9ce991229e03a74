// What the `get`s of a plan got.
ghost use Rattle.std.specs.Prelude.{◌≡◌, ◌-◌, length, map, option_copied, take, IfOk};
ghost use Rattle.std.specs.List.{count_by};
ghost use Rattle.ft_job_reports.specs.Asked.{is_call};
ghost use Rattle.ft_job_text.specs.Gets.{bytes_got, bytes_in, bytes_read, has_committed_at, has_committed_whole, reply_to};

use ft_base::{Memory, Sequence};
use ft_calls::Reply;
use ft_jobs::{CallReport, End, Job, Report, Step};
use ft_plan_files::GetPlace;
use std::alloc::Global;

/// Returns for each of these `get`s the bytes that its read was answered, if its job and all jobs
/// around it have committed.
pub(crate) fn bytes_of_gets(
    alloc: Global,
    jobs: &[Job],
    reports: &[Report],
    gets: &[GetPlace],
) -> Result<Vec<Option<Sequence<u8>>>, Memory>
    ensures { IfOk result (λ got. got.items ≡ map (bytes_got jobs.now reports.now) gets.now) }
{
    let mut got = Vec::new(alloc);
    for get in gets {
        got.push(copied(alloc, bytes_got(jobs, reports, get))?)?;
    }
    Ok(got)
}

/// Returns bytes of its own, if there are bytes.
fn copied(alloc: Global, bytes: Option<&[u8]>) -> Result<Option<Sequence<u8>>, Memory>
    ensures { IfOk result (λ made. made ≡ option_copied bytes.entry) }
{
    match bytes {
        Some(bytes) => Ok(Some(Vec::from_slice(alloc, bytes)?.into())),
        None => Ok(None),
    }
}

/// Returns the bytes that the read of a `get` was answered, if its job and all jobs around it have
/// committed.
fn bytes_got<'a>(jobs: &[Job], reports: &'a [Report], get: &GetPlace) -> Option<&'a [u8]>
    ensures { option_copied result ≡ bytes_got jobs.now reports.now get.now }
{
    let at = usize::try_from(get.job).ok()?;
    let job = jobs.get(at)?;
    if !has_committed_whole(jobs, reports, job.name.as_bytes()) {
        return None;
    }
    bytes_read(get, job, reports.get(at)?)
}

/// Returns whether the job of this name has committed, and all jobs around it too. These come
/// before it.
fn has_committed_whole(jobs: &[Job], reports: &[Report], name: &[u8]) -> bool
    ensures { result ≡ has_committed_whole jobs.now reports.now (length jobs.now) name.now }
{
    let mut name = name;
    let mut at = jobs.len();
    while at > 0 {
        at -= 1;
        let job = &jobs[at];
        if job.name.as_bytes() == name {
            if !has_committed_at(reports, at) {
                return false;
            }
            match &job.parent {
                None => return true,
                Some(parent) => name = parent.as_bytes(),
            }
        }
    }
    false
}

/// Returns whether the job at a place has committed.
fn has_committed_at(reports: &[Report], at: usize) -> bool
    ensures { result ≡ has_committed_at reports.now at }
{
    match reports.get(at) {
        None => false,
        Some(report) => matches!(report.end, End::Committed),
    }
}

/// Returns the bytes that the read of a `get` of this job was answered.
fn bytes_read<'a>(get: &GetPlace, job: &Job, report: &'a Report) -> Option<&'a [u8]>
    ensures { option_copied result ≡ bytes_read get.now job.now report.now }
{
    bytes_in(reply_to(job.steps.as_slice(), report.calls.as_slice(), get.step)?)
}

/// Returns the bytes in a reply.
fn bytes_in(reply: &Reply) -> Option<&[u8]>
    ensures { option_copied result ≡ bytes_in reply.now }
{
    match reply {
        Reply::Bytes(bytes) => Some(bytes.as_slice()),
        _ => None,
    }
}

/// Returns the reply to the step of this number, which is a call, if it was granted. The first step
/// has the number 1.
fn reply_to<'a>(steps: &[Step], calls: &'a [CallReport], number: u64) -> Option<&'a Reply>
    ensures { option_copied result ≡ reply_to steps.now calls.now number }
{
    let before = first_of(steps, number.saturating_sub(1));
    let call = calls.get(call_count(before))?;
    Some(&call.reply)
}

/// Returns the first so many of these steps, or all if there are fewer.
#[tactic(auto, using(std::proofs::lemmas::List::take_all))]
fn first_of(steps: &[Step], count: u64) -> &[Step]
    ensures { result.now ≡ take count steps.now }
{
    if count < steps.len() as u64 {
        &steps[..count as usize]
    } else {
        steps
    }
}

/// Returns how many of these steps are calls.
fn call_count(steps: &[Step]) -> usize
    ensures { result ≡ count_by is_call steps.now }
{
    let mut count = 0;
    for step in steps {
        if is_call(step) {
            count += 1;
        }
    }
    count
}

/// Returns whether a step is a call.
fn is_call(step: &Step) -> bool
    ensures { result ≡ is_call step.now }
{
    matches!(
        step,
        Step::Call(_) | Step::CallOn(_) | Step::Try(_) | Step::TryOn(_)
    )
}

// The rules that the jobs of a plan keep.
ghost use Rattle.std.specs.Prelude.{◌≡◌, ◌==◌, ◌&&◌, Bool, true, false, [], ◌∷◌, ◌++◌, not, if◌then◌else◌, option_copied};
ghost use Rattle.std.specs.Option.{option_map_or};
ghost use Rattle.std.specs.List.{list_any, list_all, count_by};
ghost use Rattle.std.specs.Str.{bytes_eq};
ghost use Rattle.ft_plan.specs.Plans.{is_plan, most_jobs, is_free, is_free_kind, is_same_parent, is_sibling, comes_after, is_job, starts_subjobs, all_behind, is_opened, is_named, is_subjob_of, ends_last, is_end, is_subs, is_on_opened, is_open, step_at, descriptor};

use crate::job::{Job, JobKind, Step};
use ft_posix::Call;

/// The most jobs of a plan that is strict, and of one that is not.
const MOST_STRICT_JOBS: usize = 4096;

const MOST_FREE_JOBS: usize = 64;

/// Returns whether these jobs make a plan.
pub fn is_plan(jobs: &[Job]) -> bool
    ensures { result ≡ is_plan jobs.now }
{
    if jobs.is_empty() || jobs.len() > most_jobs(jobs) {
        return false;
    }
    if !are_opened(jobs) {
        return false;
    }
    are_jobs(jobs)
}

/// Returns the most jobs that a plan of these jobs may have.
fn most_jobs(jobs: &[Job]) -> usize
    ensures { result ≡ most_jobs jobs.now }
{
    if has_free(jobs) {
        MOST_FREE_JOBS
    } else {
        MOST_STRICT_JOBS
    }
}

/// Returns whether the calls of one of the jobs may all fail.
fn has_free(jobs: &[Job]) -> bool
    ensures { result ≡ list_any is_free jobs.now }
{
    jobs.iter().any(|job| is_free(job))
}

/// Returns whether the calls of a job may all fail.
fn is_free(job: &Job) -> bool
    ensures { result ≡ is_free job.now }
{
    matches!(job.kind, JobKind::Free)
}

/// Returns whether each of the jobs has the steps that it may have.
fn are_jobs(jobs: &[Job]) -> bool
    ensures { result ≡ list_all (is_job jobs.now) jobs.now }
{
    jobs.iter().all(|job| is_job(jobs, job))
}

/// Returns whether each job has a name of its own, and is under an earlier job if it names one.
#[tactic(auto, using(crate::proofs::Behind::behind_next))]
fn are_opened(jobs: &[Job]) -> bool
    ensures { result ≡ all_behind is_opened [] jobs.now }
{
    for at in 0..jobs.len() {
        if !is_opened(&jobs[..at], &jobs[at]) {
            return false;
        }
    }
    true
}

/// Returns whether a job has a name that none of the jobs before it has, and names only earlier
/// jobs: the one that it is under, and those that it comes after.
fn is_opened(before: &[Job], job: &Job) -> bool
    ensures { result ≡ is_opened before.now job.now }
{
    !is_named(before, job.name.as_bytes())
        && match &job.parent {
            None => true,
            Some(parent) => is_named(before, parent.as_bytes()),
        }
        && comes_after(before, job)
}

/// Returns whether each job that this one comes after is one of these, and has the same parent.
fn comes_after(before: &[Job], job: &Job) -> bool
    ensures { result ≡ comes_after before.now job.now }
{
    job.after
        .as_slice()
        .iter()
        .all(|name| has_sibling(before, job, name.as_bytes()))
}

/// Returns whether one of the jobs has this name, and the same parent as this job.
fn has_sibling(before: &[Job], job: &Job, name: &[u8]) -> bool
    ensures { result ≡ list_any (is_sibling job.now.parent name.now) before.now }
{
    before.iter().any(|other| other.name.as_bytes() == name && is_same_parent(other, job))
}

/// Returns whether two jobs have the same parent, or both have none.
fn is_same_parent(job: &Job, other: &Job) -> bool
    ensures { result ≡ is_same_parent job.now.parent other.now.parent }
{
    match (&job.parent, &other.parent) {
        (None, None) => true,
        (Some(name), Some(named)) => name.as_bytes() == named.as_bytes(),
        _ => false,
    }
}

/// Returns whether one of the jobs has this name.
fn is_named(jobs: &[Job], name: &[u8]) -> bool
    ensures { result ≡ is_named jobs.now name.now }
{
    jobs.iter().any(|job| job.name.as_bytes() == name)
}

/// Returns whether the steps of a job are those that it may have.
fn is_job(jobs: &[Job], job: &Job) -> bool
    ensures { result ≡ is_job jobs.now job.now }
{
    let steps = job.steps.as_slice();
    if !ends_last(steps) || !are_on_opened(steps) {
        return false;
    }
    starts_subjobs(jobs, job)
}

/// Returns whether a job starts its subjobs in one step if it has any, and in none otherwise.
fn starts_subjobs(jobs: &[Job], job: &Job) -> bool
    ensures { result ≡ starts_subjobs jobs.now job.now }
{
    let count = subs_count(job.steps.as_slice());
    let wanted = if has_subjobs(jobs, job.name.as_bytes()) {
        1
    } else {
        0
    };
    count == wanted
}

/// Returns whether the job of this name has subjobs.
fn has_subjobs(jobs: &[Job], name: &[u8]) -> bool
    ensures { result ≡ list_any (is_subjob_of name.now) jobs.now }
{
    jobs.iter().any(|job| is_subjob_of(name, job))
}

/// Returns whether the job is a subjob of the one of this name.
fn is_subjob_of(name: &[u8], job: &Job) -> bool
    ensures { result ≡ is_subjob_of name.now job.now }
{
    match &job.parent {
        None => false,
        Some(parent) => parent.as_bytes() == name,
    }
}

/// Returns whether the last step is a commit or an abort, and no other is.
#[tactic(auto, using(crate::proofs::Behind::ends_last_is))]
fn ends_last(steps: &[Step]) -> bool
    ensures { result ≡ ends_last steps.now }
{
    match steps.split_last() {
        None => false,
        Some((last, others)) => is_end(last) && !has_end(others),
    }
}

/// Returns whether one of the steps ends its job.
fn has_end(steps: &[Step]) -> bool
    ensures { result ≡ list_any is_end steps.now }
{
    steps.iter().any(|step| is_end(step))
}

/// Returns whether a step ends its job.
fn is_end(step: &Step) -> bool
    ensures { result ≡ is_end step.now }
{
    matches!(step, Step::Commit | Step::Abort)
}

/// Returns how many steps start the subjobs.
fn subs_count(steps: &[Step]) -> usize
    ensures { result ≡ count_by is_subs steps.now }
{
    let mut count = 0;
    for step in steps {
        if is_subs(step) {
            count += 1;
        }
    }
    count
}

/// Returns whether a step starts the subjobs.
fn is_subs(step: &Step) -> bool
    ensures { result ≡ is_subs step.now }
{
    matches!(step, Step::Subs)
}

/// Returns whether each call on a descriptor is on one that an earlier step of these opened.
#[tactic(auto, using(crate::proofs::Behind::behind_next))]
fn are_on_opened(steps: &[Step]) -> bool
    ensures { result ≡ all_behind is_on_opened [] steps.now }
{
    for at in 0..steps.len() {
        if !is_on_opened(&steps[..at], &steps[at]) {
            return false;
        }
    }
    true
}

/// Returns whether a step that calls on a descriptor names one of the steps before it, which opens
/// a file. Returns true for any other step.
fn is_on_opened(before: &[Step], step: &Step) -> bool
    ensures { result ≡ is_on_opened before.now step.now }
{
    match step {
        Step::CallOn(call) | Step::TryOn(call) => is_opener(step_at(before, descriptor(call))),
        _ => true,
    }
}

/// Returns whether there is a step, and the step opens a file.
fn is_opener(step: Option<&Step>) -> bool
    ensures { result ≡ option_map_or is_open (option_copied step.entry) false }
{
    matches!(
        step,
        Some(Step::Call(Call::Open { .. }) | Step::Try(Call::Open { .. }))
    )
}

/// Returns the step of this number. The first has the number 1.
fn step_at(steps: &[Step], number: u64) -> Option<&Step>
    ensures { option_copied result ≡ step_at steps.now number }
{
    let before = usize::try_from(number.checked_sub(1)?).ok()?;
    steps.get(before)
}

/// Returns the descriptor that a call is on, or 0.
fn descriptor(call: &Call) -> u64
    ensures { result ≡ descriptor call.now }
{
    match call {
        Call::Close { fd }
        | Call::Read { fd, .. }
        | Call::Write { fd, .. }
        | Call::Pread { fd, .. }
        | Call::Pwrite { fd, .. }
        | Call::Lseek { fd, .. }
        | Call::Ftruncate { fd, .. }
        | Call::Fstat { fd }
        | Call::Fchmod { fd, .. }
        | Call::Fchown { fd, .. }
        | Call::Futime { fd, .. } => *fd,
        _ => 0,
    }
}

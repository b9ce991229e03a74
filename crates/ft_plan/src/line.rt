// The meaning of a line of a plan.
ghost use Rattle.std.specs.Prelude.{◌≡◌, ◌&&◌, codes, if◌then◌else◌, Some, None, IfOk, IsErrOf};
ghost use Rattle.std.specs.Str.{bytes_eq};
ghost use Rattle.ft_words.specs.Calls.{Reads, look_up};
ghost use Rattle.ft_plan.specs.Lines.{line_of, after_line, names_of, job_line, must_line, heading, subheading, step_of, plain_step, tried_step, tried, lone_steps, alone, call_step, on_opened};

use crate::job::{JobKind, Step};
use crate::name::JobName;
use ft_base::Sequence;
use ft_words::{ParseError, Words, parse_call, parse_descriptor_call};
use std::alloc::Global;

/// The meaning of a line of a plan.
#[derive(Debug, PartialEq, Eq, Drop)]
pub enum PlanLine {
    /// A job of this name and kind begins, under that one if one is named.
    Job(JobName, Option<JobName>, JobKind),
    /// The job that began last starts once those of these names have committed.
    After(Sequence<JobName>),
    /// The next step of the job that began last.
    Step(Step),
}

/// Returns the meaning of the words of a line of a plan, which is strict or is not.
pub fn line_of(alloc: Global, strict: bool, words: Words<'_>) -> Result<PlanLine, ParseError>
    ensures { Reads result (line_of strict words.entry) }
{
    let mut words = words;
    let word = words.next().ok_or(ParseError::Misspelt)?;
    if word == b"job".as_slice() {
        return job_line(alloc, strict, words);
    }
    if strict && word == b"after".as_slice() {
        return after_line(alloc, words);
    }
    let step = step_of(alloc, strict, word, words)?;
    Ok(PlanLine::Step(step))
}

/// Reads the line that begins a job: its name, and the name of the job around it. In a strict plan
/// `must` may come before both.
fn job_line(alloc: Global, strict: bool, words: Words<'_>) -> Result<PlanLine, ParseError>
    ensures { Reads result (job_line strict words.entry) }
{
    let mut words = words;
    let word = words.next().ok_or(ParseError::Misspelt)?;
    if !strict {
        return heading(alloc, JobKind::Free, word, words);
    }
    if word == b"must".as_slice() {
        return must_line(alloc, words);
    }
    heading(alloc, JobKind::Strict, word, words)
}

/// Reads what comes after `must`: both names must be there.
fn must_line(alloc: Global, words: Words<'_>) -> Result<PlanLine, ParseError>
    ensures { Reads result (must_line words.entry) }
{
    let mut words = words;
    let name = words.next().ok_or(ParseError::Misspelt)?;
    let parent = words.next().ok_or(ParseError::Misspelt)?;
    if words.next().is_some() {
        return Err(ParseError::Misspelt);
    }
    subheading(alloc, JobKind::Must, name, parent)
}

/// Returns the line that begins a job of this kind and name, under the job that the other words
/// name, if they name one.
fn heading(
    alloc: Global,
    kind: JobKind,
    name: &[u8],
    others: Words<'_>,
) -> Result<PlanLine, ParseError>
    ensures { Reads result (heading kind name.now others.entry) }
{
    let mut others = others;
    let Some(parent) = others.next() else {
        let name = JobName::read(alloc, name)?;
        return Ok(PlanLine::Job(name, None, kind));
    };
    if others.next().is_some() {
        return Err(ParseError::Misspelt);
    }
    subheading(alloc, kind, name, parent)
}

/// Returns the line that begins a job of this kind and name, under this parent.
fn subheading(
    alloc: Global,
    kind: JobKind,
    name: &[u8],
    parent: &[u8],
) -> Result<PlanLine, ParseError>
    ensures { Reads result (subheading kind name.now parent.now) }
{
    let name = JobName::read(alloc, name)?;
    let parent = JobName::read(alloc, parent)?;
    Ok(PlanLine::Job(name, Some(parent), kind))
}

/// Reads the names of the jobs that must have committed: at least one.
fn after_line(alloc: Global, words: Words<'_>) -> Result<PlanLine, ParseError>
    ensures { Reads result (after_line words.entry) }
{
    let names = names_of(alloc, words)?;
    if names.is_empty() {
        return Err(ParseError::Misspelt);
    }
    Ok(PlanLine::After(names.into()))
}

/// Returns all these words as names.
#[tactic(auto, using(crate::proofs::Names::names_next, crate::proofs::Names::no_names))]
fn names_of(alloc: Global, words: Words<'_>) -> Result<Vec<JobName>, ParseError>
    ensures read { IfOk result (λ names. names_of words.entry ≡ Some names.items) }
    ensures misspelt { IsErrOf result ParseError.Misspelt → names_of words.entry ≡ None }
{
    let mut names = Vec::new(alloc);
    for word in words {
        let name = JobName::read(alloc, word)?;
        if names.push(name).is_err() {
            return Err(ParseError::NoMemory);
        }
    }
    Ok(names)
}

/// Returns the step that begins with this word. In a strict plan a call may be tried.
fn step_of(alloc: Global, strict: bool, word: &[u8], others: Words<'_>) -> Result<Step, ParseError>
    ensures { Reads result (step_of strict word.now others.entry) }
{
    if strict && word == b"try".as_slice() {
        return tried_step(alloc, others);
    }
    plain_step(alloc, word, others)
}

/// Returns the step of a call that may fail.
fn tried_step(alloc: Global, words: Words<'_>) -> Result<Step, ParseError>
    ensures { Reads result (tried_step words.entry) }
{
    let mut words = words;
    let word = words.next().ok_or(ParseError::Misspelt)?;
    let step = call_step(alloc, word, words)?;
    Ok(tried(step))
}

/// Returns the step that tries the call of this step. A step without a call remains the same.
fn tried(step: Step) -> Step
    ensures { result ≡ tried step }
{
    match step {
        Step::Call(call) => Step::Try(call),
        Step::CallOn(call) => Step::TryOn(call),
        other => other,
    }
}

/// Returns a step that is not tried.
fn plain_step(alloc: Global, word: &[u8], others: Words<'_>) -> Result<Step, ParseError>
    ensures { Reads result (plain_step word.now others.entry) }
{
    let mut others = others;
    match lone_step(word) {
        None => call_step(alloc, word, others),
        Some(step) if others.next().is_none() => Ok(step),
        Some(_) => Err(ParseError::Misspelt),
    }
}

/// Returns the step of one word.
fn lone_step(word: &[u8]) -> Option<Step>
    ensures { result ≡ look_up lone_steps word.now }
{
    if word == b"subs".as_slice() {
        Some(Step::Subs)
    } else if word == b"commit".as_slice() {
        Some(Step::Commit)
    } else if word == b"abort".as_slice() {
        Some(Step::Abort)
    } else {
        None
    }
}

/// Returns the step of a call, which may be on the descriptor that an earlier step opened.
fn call_step(alloc: Global, name: &[u8], words: Words<'_>) -> Result<Step, ParseError>
    ensures { Reads result (call_step name.now words.entry) }
{
    match on_opened(alloc, name, &words) {
        Err(ParseError::Misspelt) => {
            let call = parse_call(alloc, name, words)?;
            Ok(Step::Call(call))
        }
        step => step,
    }
}

/// Returns the step of a call on the descriptor that an earlier step opened, which is written as
/// `@` and its number.
fn on_opened(alloc: Global, name: &[u8], words: &Words<'_>) -> Result<Step, ParseError>
    ensures { Reads result (on_opened name.now words.now) }
{
    let words = words.strip_first_byte(b'@').ok_or(ParseError::Misspelt)?;
    let call = parse_descriptor_call(alloc, name, words)?;
    Ok(Step::CallOn(call))
}

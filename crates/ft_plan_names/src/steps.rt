// The steps of a job, and what the words of one have to do with names.
ghost use Rattle.std.specs.Prelude.{◌≡◌, ◌-◌, ◌^◌, ◌<◌, codes, option_copied, Some, None, MatchOption, OnOk};
ghost use Rattle.ft_words.specs.Spelling.{is_silent, words_of};
ghost use Rattle.ft_names.specs.Names.{names_of};
ghost use Rattle.ft_plan_names.specs.Numbers.{add_step, begins, is_open, is_step, name_given, no_steps, numbering_of, step_named};

use ft_base::Memory;
use ft_names::{Names, is_name, split_first, split_name};
use std::alloc::Global;

/// The steps of a job so far.
#[derive(Drop)]
pub(crate) struct Steps {
    // how many there are
    pub(crate) count: u64,
    // the number of the step for which each name stands
    pub(crate) names: Names,
}

impl Steps {
    /// Returns the steps of a job that has just begun.
    pub(crate) fn none(alloc: Global) -> Steps
        ensures { numbering_of result ≡ no_steps }
    {
        Steps {
            count: 0,
            names: Names::new(alloc),
        }
    }

    /// Counts one more step, and lets the name that it gives, if it gives one, stand for its
    /// number.
    pub(crate) fn add(&mut self, alloc: Global, given: Option<&[u8]>) -> Result<(), Memory>
        requires { self.old.count < 2 ^ 64 - 1 }
        ensures { OnOk result
            (numbering_of self.new ≡ add_step (numbering_of self.old) (option_copied given.entry)) }
    {
        self.names.reserve(alloc, given)?;
        self.count += 1;
        if let Some(name) = given {
            self.names.set(name, Some(self.count));
        }
        Ok(())
    }
}

/// Returns whether a line without a carriage return at its end says nothing: it is empty or a
/// comment.
pub fn is_silent(text: &[u8]) -> bool
    ensures { result ≡ is_silent text.now }
{
    matches!(text.first(), None | Some(b'#'))
}

/// Returns whether words are a step, and not a line that begins a job or a strict plan, or says
/// what a job comes after.
pub fn is_step(text: &[u8]) -> bool
    ensures { result ≡ is_step (words_of text.now) }
{
    let (first, _) = split_first(text);
    !(first == b"job".as_slice() || first == b"after".as_slice() || first == b"strict".as_slice())
}

/// Returns whether words begin a job.
pub fn begins_job(text: &[u8]) -> bool
    ensures { result ≡ begins (codes "job") (words_of text.now) }
{
    split_first(text).0 == b"job".as_slice()
}

/// Returns the text of an `open` before `as` and a name, and the name, if the open gives one.
pub(crate) fn name_given(text: &[u8]) -> Option<(&[u8], &[u8])>
    ensures { MatchOption result (name_given (words_of text.now) ≡ None)
        (λ parts. name_given (words_of text.now) ≡ Some (words_of parts.0.now, parts.1.now)) }
{
    if is_open(text) {
        split_name(text)
    } else {
        None
    }
}

/// Returns whether words are `open` and others. It may be tried.
fn is_open(text: &[u8]) -> bool
    ensures { result ≡ is_open (words_of text.now) }
{
    let (first, rest) = split_first(text);
    if first != b"try".as_slice() {
        return first == b"open".as_slice();
    }
    match rest {
        Some(call) => split_first(call).0 == b"open".as_slice(),
        None => false,
    }
}

/// Returns the number of the step whose name comes after `@`, if the word is so.
pub(crate) fn step_named(names: &Names, word: &[u8]) -> Option<u64>
    ensures { result ≡ step_named (names_of names.now) word.now }
{
    match word.split_first() {
        Some((b'@', name)) if is_name(name) => names.get(name),
        _ => None,
    }
}

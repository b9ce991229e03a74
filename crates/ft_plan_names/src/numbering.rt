// A plan with numbers in place of the names of steps.
ghost use Rattle.std.specs.Prelude.{◌≡◌, ◌++◌, ◌-◌, ◌^◌, ◌<◌, ◌≤◌, suc, IfOk, OnOk};
ghost use Rattle.ft_words.specs.Spelling.{words_left, words_of};
ghost use Rattle.ft_names.specs.Names.{names_of};
ghost use Rattle.ft_plan_names.specs.Numbers.{after_line, after_step, after_text, number_first, number_word, numbered_call, numbered_line, numbered_plan, numbered_step, numbered_text, numbered_tried, numbering_of, spaced, words_behind};

use crate::steps::{Steps, begins_job, is_silent, is_step, name_given, step_named};
use ft_base::Memory;
use ft_names::{Names, is_descriptor_word, split_first, without_return};
use ft_words::split_once;
use std::alloc::Global;

/// Returns a plan with the same lines, in which numbers take the place of the names of steps.
///
/// A name that no earlier step of its job has given stays, and so its line is no line of a plan.
pub fn numbered_plan(alloc: Global, text: &[u8]) -> Result<Vec<u8>, Memory>
    ensures { IfOk result (λ made. made.items ≡ numbered_plan text.now) }
{
    let mut made = Vec::new(alloc);
    let mut steps = Steps::none(alloc);
    let mut rest = text;
    while let Some((line, more)) = split_once(b'\n', rest) {
        put_line(alloc, &mut made, &mut steps, line)?;
        made.extend_from_slice(b"\n".as_slice())?;
        rest = more;
    }
    put_line(alloc, &mut made, &mut steps, rest)?;
    Ok(made)
}

/// Puts a line, and counts it if it is a step.
#[tactic(auto, using(crate::proofs::Spacing::line_put, crate::proofs::Spacing::strip_shorter))]
fn put_line(alloc: Global, made: &mut Vec<u8>, steps: &mut Steps, line: &[u8]) -> Result<(), Memory>
    requires { steps.old.count < 2 ^ 64 - 1 }
    ensures made { OnOk result (made.new.items
        ≡ made.old.items ++ numbered_line (numbering_of steps.old) line.now) }
    ensures steps { OnOk result
        (numbering_of steps.new ≡ after_line (numbering_of steps.old) line.now) }
    ensures few { OnOk result (steps.new.count ≤ suc steps.old.count) }
{
    let text = without_return(line);
    put_text(alloc, made, steps, text)?;
    made.extend_from_slice(&line[text.len()..])?;
    Ok(())
}

/// Puts a line without a carriage return at its end, and counts it if it is a step.
fn put_text(alloc: Global, made: &mut Vec<u8>, steps: &mut Steps, text: &[u8]) -> Result<(), Memory>
    requires { steps.old.count < 2 ^ 64 - 1 }
    ensures made { OnOk result (made.new.items
        ≡ made.old.items ++ numbered_text (numbering_of steps.old) text.now) }
    ensures steps { OnOk result
        (numbering_of steps.new ≡ after_text (numbering_of steps.old) text.now) }
{
    if is_silent(text) {
        made.extend_from_slice(text)?;
        return Ok(());
    }
    if is_step(text) {
        return put_step(alloc, made, steps, text);
    }
    if begins_job(text) {
        *steps = Steps::none(alloc);
    }
    made.extend_from_slice(text)?;
    Ok(())
}

/// Puts a step, and counts it.
fn put_step(alloc: Global, made: &mut Vec<u8>, steps: &mut Steps, text: &[u8]) -> Result<(), Memory>
    requires { steps.old.count < 2 ^ 64 - 1 }
    ensures made { OnOk result (made.new.items
        ≡ made.old.items ++ spaced (numbered_step (names_of steps.old.names) (words_of text.now))) }
    ensures steps { OnOk result
        (numbering_of steps.new ≡ after_step (numbering_of steps.old) (words_of text.now)) }
{
    match name_given(text) {
        Some((front, name)) => {
            made.extend_from_slice(front)?;
            steps.add(alloc, Some(name))
        }
        None => {
            put_tried(alloc, made, &steps.names, text)?;
            steps.add(alloc, None)
        }
    }
}

/// Puts a call with a number in place of a name. The call may be tried.
fn put_tried(alloc: Global, made: &mut Vec<u8>, names: &Names, text: &[u8]) -> Result<(), Memory>
    ensures { OnOk result (made.new.items
        ≡ made.old.items ++ spaced (numbered_tried (names_of names.now) (words_of text.now))) }
{
    let (first, rest) = split_first(text);
    if first != b"try".as_slice() {
        return put_call(alloc, made, names, text);
    }
    made.extend_from_slice(first)?;
    put_call_behind(alloc, made, names, rest)
}

/// Puts the call after `try`, if there is one.
fn put_call_behind(
    alloc: Global,
    made: &mut Vec<u8>,
    names: &Names,
    rest: Option<&[u8]>,
) -> Result<(), Memory>
    ensures { OnOk result (made.new.items ≡ made.old.items
        ++ words_behind (numbered_call (names_of names.now) (words_left rest.entry))) }
{
    let Some(call) = rest else {
        return Ok(());
    };
    made.extend_from_slice(b" ".as_slice())?;
    put_call(alloc, made, names, call)
}

/// Puts a call with a number in place of a name.
fn put_call(alloc: Global, made: &mut Vec<u8>, names: &Names, text: &[u8]) -> Result<(), Memory>
    ensures { OnOk result (made.new.items
        ≡ made.old.items ++ spaced (numbered_call (names_of names.now) (words_of text.now))) }
{
    let (verb, rest) = split_first(text);
    made.extend_from_slice(verb)?;
    if is_descriptor_word(verb) {
        put_first(alloc, made, names, rest)
    } else {
        put_rest(made, rest)
    }
}

/// Puts words, the first of which may be `@` and a name.
fn put_first(
    alloc: Global,
    made: &mut Vec<u8>,
    names: &Names,
    rest: Option<&[u8]>,
) -> Result<(), Memory>
    ensures { OnOk result (made.new.items ≡ made.old.items
        ++ words_behind (number_first (names_of names.now) (words_left rest.entry))) }
{
    let Some(text) = rest else {
        return Ok(());
    };
    let (word, rest) = split_first(text);
    made.extend_from_slice(b" ".as_slice())?;
    put_word(alloc, made, names, word)?;
    put_rest(made, rest)
}

/// Puts a word, or `@` and the number of a step if the word is `@` and its name.
fn put_word(alloc: Global, made: &mut Vec<u8>, names: &Names, word: &[u8]) -> Result<(), Memory>
    ensures { OnOk result
        (made.new.items ≡ made.old.items ++ number_word (names_of names.now) word.now) }
{
    match step_named(names, word) {
        Some(number) => {
            let number = format!(in alloc; "@{number}")?;
            made.extend_from_slice(number.as_bytes())?;
        }
        None => made.extend_from_slice(word)?,
    }
    Ok(())
}

/// Puts the words that are left.
fn put_rest(made: &mut Vec<u8>, rest: Option<&[u8]>) -> Result<(), Memory>
    ensures { OnOk result
        (made.new.items ≡ made.old.items ++ words_behind (words_left rest.entry)) }
{
    if let Some(text) = rest {
        made.extend_from_slice(b" ".as_slice())?;
        made.extend_from_slice(text)?;
    }
    Ok(())
}

// From the bytes of a line to what it means, where names are known.
ghost use Rattle.std.specs.Prelude.{◌≡◌, Some, None, IfOk, MatchOption};
ghost use Rattle.std.specs.Str.Lines.{strip_carriage_return};
ghost use Rattle.ft_words.specs.Spelling.{words_of};
ghost use Rattle.ft_names.specs.Names.{names_of};
ghost use Rattle.ft_words.specs.Calls.{Reads};
ghost use Rattle.ft_names.specs.Meanings.{bad, giving_meaning, may_give, meaning_in, named_meaning, seen, split_name, transfer_in, transfer_meaning, with_numbers};

use crate::naming::Names;
use crate::numbering::{is_name, numbered, split_last};
use ft_base::Memory;
use ft_calls::Call;
use ft_core::Request;
use ft_line::{ScriptLine, parse_line, parse_words};
use ft_transfer::{Transfer, parse_transfer};
use ft_words::{ParseError, Words};
use std::alloc::Global;

/// The meaning of a line of a script in which there may be transfers.
#[derive(Drop)]
pub enum LineMeaning {
    /// The meaning of a line that is no transfer.
    Line(ScriptLine),
    /// A transfer between the tree and a file of the disk.
    Transfer(Transfer),
}

/// A line of a script in which there are names.
#[derive(Drop)]
pub struct NamedLine<'a> {
    /// Its meaning, with numbers.
    pub meaning: LineMeaning,
    /// The name that it gives to the number in its answer.
    pub given: Option<&'a [u8]>,
}

impl NamedLine<'_> {
    /// Returns a line that is not a valid request. It gives no name.
    pub fn bad() -> NamedLine<'static>
        ensures { seen result ≡ bad }
    {
        NamedLine::unnamed(LineMeaning::Line(ScriptLine::Bad))
    }

    /// Returns a line that has this meaning and gives no name.
    fn unnamed(meaning: LineMeaning) -> NamedLine<'static>
        ensures { seen result ≡ (meaning, None) }
    {
        NamedLine {
            meaning,
            given: None,
        }
    }
}

/// Returns the meaning of a line, in which names may stand for numbers, and the name that it gives.
/// A line that is not bad without names has the same meaning with names, and only a line that is
/// bad otherwise may be a transfer.
///
/// Fails only for lack of memory.
pub fn named_line<'a>(alloc: Global, line: &'a [u8], names: &Names) -> Result<NamedLine<'a>, Memory>
    ensures { IfOk result (λ named. seen named ≡ meaning_in (names_of names.now) line.now) }
{
    match parse_line(alloc, line)? {
        ScriptLine::Bad => named_meaning(alloc, names, without_return(line)),
        line => Ok(NamedLine::unnamed(LineMeaning::Line(line))),
    }
}

/// Returns a line without the one carriage return at its end.
pub fn without_return(line: &[u8]) -> &[u8]
    ensures { result.now ≡ strip_carriage_return line.now }
{
    line.strip_suffix(b"\r".as_slice()).unwrap_or(line)
}

/// Returns the meaning of the words of a line that is bad without names.
fn named_meaning<'a>(alloc: Global, names: &Names, text: &'a [u8]) -> Result<NamedLine<'a>, Memory>
    ensures { IfOk result
        (λ named. seen named ≡ named_meaning (names_of names.now) (words_of text.now)) }
{
    match with_numbers(alloc, names, text)? {
        ScriptLine::Bad => giving_meaning(alloc, names, text),
        line => Ok(NamedLine::unnamed(LineMeaning::Line(line))),
    }
}

/// Returns the meaning of words that give a name, or may be a transfer.
fn giving_meaning<'a>(alloc: Global, names: &Names, text: &'a [u8]) -> Result<NamedLine<'a>, Memory>
    ensures { IfOk result
        (λ named. seen named ≡ giving_meaning (names_of names.now) (words_of text.now)) }
{
    let Some((front, name)) = split_name(text) else {
        return transfer_meaning(alloc, names, text);
    };
    let meaning = with_numbers(alloc, names, front)?;
    if !may_give(&meaning) {
        return Ok(NamedLine::bad());
    }
    Ok(NamedLine {
        meaning: LineMeaning::Line(meaning),
        given: Some(name),
    })
}

/// Returns the meaning of words that may be a transfer.
fn transfer_meaning(alloc: Global, names: &Names, text: &[u8]) -> Result<NamedLine<'static>, Memory>
    ensures { IfOk result
        (λ named. seen named ≡ transfer_meaning (names_of names.now) (words_of text.now)) }
{
    match transfer_in(alloc, names, text) {
        Ok(transfer) => Ok(NamedLine::unnamed(LineMeaning::Transfer(transfer))),
        Err(ParseError::Misspelt) => Ok(NamedLine::bad()),
        Err(ParseError::NoMemory) => Err(Memory),
    }
}

/// Returns the transfer that words request. Its transaction may be a name.
fn transfer_in(alloc: Global, names: &Names, text: &[u8]) -> Result<Transfer, ParseError>
    ensures { Reads result (transfer_in (names_of names.now) (words_of text.now)) }
{
    let made = numbered(alloc, names, text)?;
    let mut words = Words::of(made.as_slice());
    words.next();
    parse_transfer(alloc, words)
}

/// Returns the meaning of words with numbers in place of the names.
fn with_numbers(alloc: Global, names: &Names, text: &[u8]) -> Result<ScriptLine, Memory>
    ensures { IfOk result
        (λ meaning. meaning ≡ with_numbers (names_of names.now) (words_of text.now)) }
{
    match numbered(alloc, names, text) {
        Ok(made) => {
            let mut words = Words::of(made.as_slice());
            words.next();
            parse_words(alloc, words)
        }
        Err(ParseError::Misspelt) => Ok(ScriptLine::Bad),
        Err(ParseError::NoMemory) => Err(Memory),
    }
}

/// Returns the text before `as` and a name, and the name, if a text ends so and has more words.
#[tactic(auto, using(crate::proofs::Wording::split_end, crate::proofs::Wording::words_some))]
pub fn split_name(text: &[u8]) -> Option<(&[u8], &[u8])>
    ensures { MatchOption result (split_name (words_of text.now) ≡ None)
        (λ parts. split_name (words_of text.now) ≡ Some (words_of parts.0.now, parts.1.now)) }
{
    let (others, name) = split_last(text)?;
    let (front, word) = split_last(others)?;
    if word == b"as".as_slice() && is_name(name) {
        Some((front, name))
    } else {
        None
    }
}

/// Returns whether a line with this meaning may give a name: it begins a transaction, opens a file
/// or retries a call.
fn may_give(meaning: &ScriptLine) -> bool
    ensures { result ≡ may_give meaning.now }
{
    matches!(
        meaning,
        ScriptLine::Request(
            Request::Begin
                | Request::Sub(_)
                | Request::Retry(_)
                | Request::Ask(_, Call::Open { .. })
        )
    )
}

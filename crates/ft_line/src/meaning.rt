// From the bytes of a line to what it means.
ghost use Rattle.std.specs.Prelude.{◌≡◌, IfOk, codes, if◌then◌else◌, Some, None};
ghost use Rattle.std.specs.Str.{bytes_eq};
ghost use Rattle.ft_line.specs.Requests.{parse_line, asked_by, asked_by_txn, asked_by_word, lone_words, or_bad, txn_request};
ghost use Rattle.ft_words.specs.Calls.{look_up, Reads};

use crate::line::{Query, ScriptLine};
use ft_base::Memory;
use ft_core::{Request, TxnId};
use ft_words::{ParseError, Words, parse_call, parse_u64};
use std::alloc::Global;

/// Returns the meaning of a line. Its line feed is no part of it.
///
/// Fails only for lack of memory.
pub fn parse_line(alloc: Global, line: &[u8]) -> Result<ScriptLine, Memory>
    ensures { IfOk result (λ meaning. meaning ≡ parse_line line.now) }
{
    match Words::of_line(line) {
        Some(words) => parse_words(alloc, words),
        None => Ok(ScriptLine::Silent),
    }
}

/// Returns the meaning of a line that has these words.
///
/// Fails only for lack of memory.
pub fn parse_words(alloc: Global, words: Words<'_>) -> Result<ScriptLine, Memory>
    ensures { IfOk result (λ meaning. meaning ≡ or_bad (asked_by words.entry)) }
{
    match asked_by(alloc, words) {
        Ok(meaning) => Ok(meaning),
        Err(ParseError::Misspelt) => Ok(ScriptLine::Bad),
        Err(ParseError::NoMemory) => Err(Memory),
    }
}

/// Returns the meaning of words, if they have one.
fn asked_by(alloc: Global, words: Words<'_>) -> Result<ScriptLine, ParseError>
    ensures { Reads result (asked_by words.entry) }
{
    let mut words = words;
    let first = words.next().ok_or(ParseError::Misspelt)?;
    match parse_u64(first) {
        Some(txn) => asked_by_txn(alloc, TxnId(txn), words),
        None => asked_by_word(first, words).ok_or(ParseError::Misspelt),
    }
}

/// Returns the meaning of the words after a transaction's number: a call.
fn asked_by_txn(alloc: Global, txn: TxnId, words: Words<'_>) -> Result<ScriptLine, ParseError>
    ensures { Reads result (asked_by_txn txn words.entry) }
{
    let mut words = words;
    let name = words.next().ok_or(ParseError::Misspelt)?;
    let call = parse_call(alloc, name, words)?;
    Ok(ScriptLine::Request(Request::Ask(txn, call)))
}

/// Returns the meaning of a line that begins with a word.
fn asked_by_word(word: &[u8], others: Words<'_>) -> Option<ScriptLine>
    ensures { result ≡ asked_by_word word.now others.entry }
{
    let mut others = others;
    let Some(number) = others.next() else {
        return asked_alone(word);
    };
    if others.next().is_some() {
        return None;
    }
    let request = txn_request(word, TxnId(parse_u64(number)?))?;
    Some(ScriptLine::Request(request))
}

/// Returns the meaning of a word that is the only one of its line.
fn asked_alone(word: &[u8]) -> Option<ScriptLine>
    ensures { result ≡ look_up lone_words word.now }
{
    if word == b"begin".as_slice() {
        Some(ScriptLine::Request(Request::Begin))
    } else if word == b"checkpoint".as_slice() {
        Some(ScriptLine::Request(Request::Checkpoint))
    } else if word == b"tree".as_slice() {
        Some(ScriptLine::Query(Query::Tree))
    } else if word == b"locks".as_slice() {
        Some(ScriptLine::Query(Query::Locks))
    } else if word == b"waits".as_slice() {
        Some(ScriptLine::Query(Query::Waits))
    } else if word == b"attributes".as_slice() {
        Some(ScriptLine::Query(Query::Attributes))
    } else {
        None
    }
}

/// Returns the request that a word makes for a transaction.
fn txn_request(word: &[u8], txn: TxnId) -> Option<Request>
    ensures { result ≡ txn_request word.now txn }
{
    if word == b"sub".as_slice() {
        Some(Request::Sub(txn))
    } else if word == b"commit".as_slice() {
        Some(Request::Commit(txn))
    } else if word == b"abort".as_slice() {
        Some(Request::Abort(txn))
    } else if word == b"undo".as_slice() {
        Some(Request::Undo(txn))
    } else if word == b"retry".as_slice() {
        Some(Request::Retry(txn))
    } else if word == b"drop".as_slice() {
        Some(Request::Drop(txn))
    } else {
        None
    }
}

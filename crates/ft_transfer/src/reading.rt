// The words of a transfer.
ghost use Rattle.std.specs.Prelude.{◌≡◌};
ghost use Rattle.ft_words.specs.Calls.{Reads, both, look_up, only};
ghost use Rattle.ft_words.specs.Spelling.{parse_path};
ghost use Rattle.ft_transfer.specs.Words.{direction_words, parse_file, transfer_of};

use crate::transfer::{Direction, Transfer};
use ft_core::{FilePath, TxnId};
use ft_words::{ParseError, Words, parse_path, parse_u64};
use std::alloc::Global;

/// Returns the transfer that words describe: `T put PATH @FILE` or `T get PATH @FILE`.
pub fn parse_transfer(alloc: Global, words: Words<'_>) -> Result<Transfer, ParseError>
    ensures { Reads result (transfer_of words.entry) }
{
    let mut words = words;
    let word = words.next().ok_or(ParseError::Misspelt)?;
    let txn = parse_u64(word).ok_or(ParseError::Misspelt)?;
    let direction = words
        .next()
        .and_then(parse_direction)
        .ok_or(ParseError::Misspelt)?;
    let (path, file) = parse_path_file(alloc, words)?;
    Ok(Transfer {
        txn: TxnId(txn),
        direction,
        path,
        file,
    })
}

/// Returns the direction that a word names, if it names one.
pub fn parse_direction(word: &[u8]) -> Option<Direction>
    ensures { result ≡ look_up direction_words word.now }
{
    if word == b"put".as_slice() {
        Some(Direction::Put)
    } else if word == b"get".as_slice() {
        Some(Direction::Get)
    } else {
        None
    }
}

/// Returns the path and the name of a file of the disk that words spell: `PATH @FILE`.
pub fn parse_path_file(alloc: Global, words: Words<'_>) -> Result<(FilePath, FilePath), ParseError>
    ensures { Reads result (both parse_path (only parse_file) words.entry) }
{
    let mut words = words;
    let word = words.next().ok_or(ParseError::Misspelt)?;
    let path = parse_path(alloc, word)?;
    let word = words.sole().ok_or(ParseError::Misspelt)?;
    let file = parse_file(alloc, word)?;
    Ok((path, file))
}

/// Returns the name of a file of the disk: the path that a word codes after `@`. It is not empty.
fn parse_file(alloc: Global, word: &[u8]) -> Result<FilePath, ParseError>
    ensures { Reads result (parse_file word.now) }
{
    match word {
        [b'@', _, ..] => parse_path(alloc, &word[1..]),
        _ => Err(ParseError::Misspelt),
    }
}

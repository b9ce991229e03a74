// The arguments of a call, by the words after its name.
ghost use Rattle.std.specs.Prelude.{◌≡◌};
ghost use Rattle.ft_words.specs.Spelling.{parse_u64, parse_u32, parse_i64, parse_path, parse_data};
ghost use Rattle.ft_words.specs.Modes.{parse_mode, parse_owner};
ghost use Rattle.ft_words.specs.Calls.{only, last, both, three, without_mode, with_mode, parse_optional_mode_path, parse_flags, parse_whence, Reads};
ghost use Rattle.ft_words.specs.Arguments.{first, others};

use crate::coded::{parse_data, parse_path};
use crate::flags::{parse_flags, parse_whence};
use crate::modes::{parse_mode, parse_owner};
use crate::numbers::{parse_i64, parse_u32, parse_u64};
use crate::parse_error::ParseError;
use crate::words::Words;
use ft_base::Sequence;
use ft_path::FilePath;
use ft_posix::{OpenFlags, Whence};
use std::alloc::Global;

/// Takes the next word, and returns the number that it spells, if it spells one.
fn next_number(words: &mut Words<'_>) -> Option<u64>
    ensures first { result ≡ first parse_u64 words.old }
    ensures others { words.new ≡ others words.old }
{
    words.next().and_then(parse_u64)
}

/// Takes the next word, and returns the integer that it spells, if it spells one.
fn next_integer(words: &mut Words<'_>) -> Option<i64>
    ensures first { result ≡ first parse_i64 words.old }
    ensures others { words.new ≡ others words.old }
{
    words.next().and_then(parse_i64)
}

/// Takes the next word, and returns the point that it names, from which an offset counts.
fn next_whence(words: &mut Words<'_>) -> Option<Whence>
    ensures first { result ≡ first parse_whence words.old }
    ensures others { words.new ≡ others words.old }
{
    words.next().and_then(parse_whence)
}

/// Takes the next word, and returns the owner or the group that it spells.
fn next_owner(words: &mut Words<'_>) -> Option<Option<u32>>
    ensures first { result ≡ first parse_owner words.old }
    ensures others { words.new ≡ others words.old }
{
    words.next().and_then(parse_owner)
}

/// `F`
pub fn number(words: Words<'_>) -> Option<u64>
    ensures { result ≡ only parse_u64 words.entry }
{
    words.sole().and_then(parse_u64)
}

/// Reads `I`.
fn integer(words: Words<'_>) -> Option<i64>
    ensures { result ≡ only parse_i64 words.entry }
{
    words.sole().and_then(parse_i64)
}

/// Reads `MODE`.
fn mode(words: Words<'_>) -> Option<u16>
    ensures { result ≡ only parse_mode words.entry }
{
    words.sole().and_then(parse_mode)
}

/// Reads `GROUP`.
fn owner(words: Words<'_>) -> Option<Option<u32>>
    ensures { result ≡ only parse_owner words.entry }
{
    words.sole().and_then(parse_owner)
}

/// Reads `N`, which is below 2^32.
fn short_number(words: Words<'_>) -> Option<u32>
    ensures { result ≡ only parse_u32 words.entry }
{
    words.sole().and_then(parse_u32)
}

/// `F N`
#[tactic(auto, using(crate::proofs::Reading::both_zip))]
pub fn parse_fd_len(words: Words<'_>) -> Option<(u64, u64)>
    ensures { result ≡ both parse_u64 (only parse_u64) words.entry }
{
    let mut words = words;
    next_number(&mut words).zip(number(words))
}

/// `F I`
#[tactic(auto, using(crate::proofs::Reading::both_zip))]
pub fn parse_fd_size(words: Words<'_>) -> Option<(u64, i64)>
    ensures { result ≡ both parse_u64 (only parse_i64) words.entry }
{
    let mut words = words;
    next_number(&mut words).zip(integer(words))
}

/// `F I N`
#[tactic(auto, using(crate::proofs::Reading::three_zip))]
pub fn parse_fd_off_len(words: Words<'_>) -> Option<(u64, i64, u64)>
    ensures { result ≡ three parse_u64 parse_i64 (only parse_u64) words.entry }
{
    let mut words = words;
    let first = next_number(&mut words);
    let second = next_integer(&mut words);
    let (first, (second, third)) = first.zip(second.zip(number(words)))?;
    Some((first, second, third))
}

/// `F WHENCE I`
#[tactic(auto, using(crate::proofs::Reading::three_zip))]
pub fn parse_fd_whence_off(words: Words<'_>) -> Option<(u64, Whence, i64)>
    ensures { result ≡ three parse_u64 parse_whence (only parse_i64) words.entry }
{
    let mut words = words;
    let first = next_number(&mut words);
    let second = next_whence(&mut words);
    let (first, (second, third)) = first.zip(second.zip(integer(words)))?;
    Some((first, second, third))
}

/// `F MODE`
#[tactic(auto, using(crate::proofs::Reading::both_zip))]
pub fn parse_fd_mode(words: Words<'_>) -> Option<(u64, u16)>
    ensures { result ≡ both parse_u64 (only parse_mode) words.entry }
{
    let mut words = words;
    next_number(&mut words).zip(mode(words))
}

/// `F OWNER GROUP`
#[tactic(auto, using(crate::proofs::Reading::three_zip))]
pub fn parse_fd_owner_group(words: Words<'_>) -> Option<(u64, Option<u32>, Option<u32>)>
    ensures { result ≡ three parse_u64 parse_owner (only parse_owner) words.entry }
{
    let mut words = words;
    let first = next_number(&mut words);
    let second = next_owner(&mut words);
    let (first, (second, third)) = first.zip(second.zip(owner(words)))?;
    Some((first, second, third))
}

/// `F S N`
#[tactic(auto, using(crate::proofs::Reading::three_zip))]
pub fn parse_fd_time(words: Words<'_>) -> Option<(u64, i64, u32)>
    ensures { result ≡ three parse_u64 parse_i64 (only parse_u32) words.entry }
{
    let mut words = words;
    let first = next_number(&mut words);
    let second = next_integer(&mut words);
    let (first, (second, third)) = first.zip(second.zip(short_number(words)))?;
    Some((first, second, third))
}

/// `P`
pub fn path(alloc: Global, words: Words<'_>) -> Result<FilePath, ParseError>
    ensures { Reads result (last parse_path words.entry) }
{
    let word = words.sole_or_empty().ok_or(ParseError::Misspelt)?;
    parse_path(alloc, word)
}

/// Reads `D`.
fn data(alloc: Global, words: Words<'_>) -> Result<Sequence<u8>, ParseError>
    ensures { Reads result (last parse_data words.entry) }
{
    let word = words.sole_or_empty().ok_or(ParseError::Misspelt)?;
    parse_data(alloc, word)
}

/// `P P`
pub fn parse_two_paths(alloc: Global, words: Words<'_>) -> Result<(FilePath, FilePath), ParseError>
    ensures { Reads result (both parse_path (last parse_path) words.entry) }
{
    let mut words = words;
    let word = words.next().ok_or(ParseError::Misspelt)?;
    let first = parse_path(alloc, word)?;
    let second = path(alloc, words)?;
    Ok((first, second))
}

/// `P` or `MODE P`: a single word is a path.
pub fn parse_optional_mode_path(
    alloc: Global,
    words: Words<'_>,
) -> Result<(Option<u16>, FilePath), ParseError>
    ensures { Reads result (parse_optional_mode_path words.entry) }
{
    let mut words = words;
    let Some(first) = words.next() else {
        return without_mode(alloc, &[]);
    };
    let Some(second) = words.next() else {
        return without_mode(alloc, first);
    };
    if words.next().is_some() {
        return Err(ParseError::Misspelt);
    }
    with_mode(alloc, first, second)
}

/// Returns the path of this word, with no mode.
fn without_mode(alloc: Global, path: &[u8]) -> Result<(Option<u16>, FilePath), ParseError>
    ensures { Reads result (without_mode path.now) }
{
    let path = parse_path(alloc, path)?;
    Ok((None, path))
}

/// Returns the mode and the path that these words spell.
fn with_mode(alloc: Global, mode: &[u8], path: &[u8]) -> Result<(Option<u16>, FilePath), ParseError>
    ensures { Reads result (with_mode mode.now path.now) }
{
    let mode = parse_mode(mode).ok_or(ParseError::Misspelt)?;
    let path = parse_path(alloc, path)?;
    Ok((Some(mode), path))
}

/// `MODE P`
pub fn parse_mode_path(alloc: Global, words: Words<'_>) -> Result<(u16, FilePath), ParseError>
    ensures { Reads result (both parse_mode (last parse_path) words.entry) }
{
    let mut words = words;
    let first = words
        .next()
        .and_then(parse_mode)
        .ok_or(ParseError::Misspelt)?;
    let second = path(alloc, words)?;
    Ok((first, second))
}

/// `OWNER GROUP P`
pub fn parse_owner_group_path(
    alloc: Global,
    words: Words<'_>,
) -> Result<(Option<u32>, Option<u32>, FilePath), ParseError>
    ensures { Reads result (three parse_owner parse_owner (last parse_path) words.entry) }
{
    let mut words = words;
    let first = words
        .next()
        .and_then(parse_owner)
        .ok_or(ParseError::Misspelt)?;
    let second = words
        .next()
        .and_then(parse_owner)
        .ok_or(ParseError::Misspelt)?;
    let third = path(alloc, words)?;
    Ok((first, second, third))
}

/// `S N P`
pub fn parse_time_path(alloc: Global, words: Words<'_>) -> Result<(i64, u32, FilePath), ParseError>
    ensures { Reads result (three parse_i64 parse_u32 (last parse_path) words.entry) }
{
    let mut words = words;
    let first = words
        .next()
        .and_then(parse_i64)
        .ok_or(ParseError::Misspelt)?;
    let second = words
        .next()
        .and_then(parse_u32)
        .ok_or(ParseError::Misspelt)?;
    let third = path(alloc, words)?;
    Ok((first, second, third))
}

/// `FLAGS P`
pub fn parse_flags_path(
    alloc: Global,
    words: Words<'_>,
) -> Result<(OpenFlags, FilePath), ParseError>
    ensures { Reads result (both parse_flags (last parse_path) words.entry) }
{
    let mut words = words;
    let first = words
        .next()
        .and_then(parse_flags)
        .ok_or(ParseError::Misspelt)?;
    let second = path(alloc, words)?;
    Ok((first, second))
}

/// `I P`
pub fn parse_size_path(alloc: Global, words: Words<'_>) -> Result<(i64, FilePath), ParseError>
    ensures { Reads result (both parse_i64 (last parse_path) words.entry) }
{
    let mut words = words;
    let first = words
        .next()
        .and_then(parse_i64)
        .ok_or(ParseError::Misspelt)?;
    let second = path(alloc, words)?;
    Ok((first, second))
}

/// `F D`
pub fn parse_fd_data(alloc: Global, words: Words<'_>) -> Result<(u64, Sequence<u8>), ParseError>
    ensures { Reads result (both parse_u64 (last parse_data) words.entry) }
{
    let mut words = words;
    let first = words
        .next()
        .and_then(parse_u64)
        .ok_or(ParseError::Misspelt)?;
    let second = data(alloc, words)?;
    Ok((first, second))
}

/// `F I D`
pub fn parse_fd_off_data(
    alloc: Global,
    words: Words<'_>,
) -> Result<(u64, i64, Sequence<u8>), ParseError>
    ensures { Reads result (three parse_u64 parse_i64 (last parse_data) words.entry) }
{
    let mut words = words;
    let first = words
        .next()
        .and_then(parse_u64)
        .ok_or(ParseError::Misspelt)?;
    let second = words
        .next()
        .and_then(parse_i64)
        .ok_or(ParseError::Misspelt)?;
    let third = data(alloc, words)?;
    Ok((first, second, third))
}

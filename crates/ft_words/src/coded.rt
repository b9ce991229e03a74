// Percent-coded words.
ghost use Rattle.std.specs.Prelude.{◌≡◌, ◌+◌, ◌<◌, ◌≤◌, ◌∷◌, ◌++◌, [], length, take, IfOk, MatchOption, Some, None, if◌then◌else◌};
ghost use Rattle.percent_encoding.specs.Percent.{percent_decode, SplitsEscape};
ghost use Rattle.ft_path.specs.Name.{has_nul};
ghost use Rattle.ft_words.specs.Calls.{Reads};
ghost use Rattle.ft_words.specs.Spelling.{IsFreeOf, parse_path, parse_data};

use crate::lanes::put_plain;
use crate::parse_error::ParseError;
use bstr::ByteSlice;
use ft_base::Sequence;
use ft_path::{FilePath, PathFault};
use percent_encoding::percent_decode;
use std::alloc::Global;

/// Returns the path that a word codes. A path with a NUL byte is none.
pub fn parse_path(alloc: Global, word: &[u8]) -> Result<FilePath, ParseError>
    ensures { Reads result (parse_path word.now) }
{
    if front_len(word) == word.len() {
        return path(alloc, word);
    }
    let bytes = percent_decode(word).into_cow(alloc)?;
    path(alloc, bytes.as_slice())
}

/// Returns the path of these bytes. Refuses bytes with a null byte among them.
fn path(alloc: Global, bytes: &[u8]) -> Result<FilePath, ParseError>
    ensures { Reads result (if has_nul bytes.now then None else Some bytes.now) }
{
    match FilePath::new(alloc, bytes) {
        Ok(path) => Ok(path),
        Err(PathFault::NulByte) => Err(ParseError::Misspelt),
        Err(PathFault::Memory) => Err(ParseError::NoMemory),
    }
}

/// Returns the bytes that a word codes.
pub fn parse_data(alloc: Global, word: &[u8]) -> Result<Sequence<u8>, ParseError>
    ensures { Reads result (parse_data word.now) }
{
    let mut bytes = vec![in alloc; 0; word.len()]?;
    let end = put_decoded(word, bytes.as_mut_slice());
    bytes.truncate(end);
    Ok(bytes.into())
}

/// Puts the bytes that a word codes at the front of a place, and returns how many there are.
fn put_decoded(word: &[u8], place: &mut [u8]) -> usize
    requires { length word.now ≤ length place.old }
    ensures len { length place.new ≡ length place.old }
    ensures bytes { take result place.new ≡ percent_decode word.now }
{
    let mut end = 0;
    let mut rest = word;
    while !rest.is_empty() {
        let (made, behind) = put_next(rest, &mut place[end..]);
        end += made;
        rest = behind;
    }
    end
}

/// Puts what the front of a word codes: up to sixteen bytes that come before a `%`, and what is
/// coded next. Returns how many bytes that makes, and the rest of the word.
fn put_next<'a>(word: &'a [u8], place: &mut [u8]) -> (usize, &'a [u8])
    requires some { 0 < length word.now }
    requires room { length word.now ≤ length place.old }
    ensures bytes { take result.0 place.new ++ percent_decode result.1.now
        ≡ percent_decode word.now }
    ensures fewer { length result.1.now < length word.now }
    ensures room { result.0 + length result.1.now ≤ length word.now }
    ensures len { length place.new ≡ length place.old }
{
    let plain = put_plain(word, place);
    match split_coded(&word[plain..]) {
        None => (plain, &word[plain..]),
        Some((byte, behind)) => {
            place[plain] = byte;
            (plain + 1, behind)
        }
    }
}

/// Returns how many bytes of a word come before the first `%`.
fn front_len(word: &[u8]) -> usize
    ensures within { result ≤ length word.now }
    ensures free { IsFreeOf 37 (take result word.now) }
{
    match word.find_byte(b'%') {
        Some(at) => at,
        None => word.len(),
    }
}

/// Returns the first byte that a word codes, and the word after what codes it. Returns `None` if
/// the word is empty.
fn split_coded(word: &[u8]) -> Option<(u8, &[u8])>
    ensures coded { MatchOption result (word.now ≡ [])
        (λ parts. percent_decode word.now ≡ parts.0 ∷ percent_decode parts.1.now) }
    ensures shorter { MatchOption result (word.now
        ≡ []) (λ parts. length parts.1.now < length word.now) }
{
    if let Some(parts) = split_escape(word) {
        return Some(parts);
    }
    let (first, behind) = word.split_first()?;
    Some((*first, behind))
}

/// Returns the byte that `%` and two hexadecimal digits code at the front of a word, and the rest
/// of the word. Returns `None` if the word does not begin with them.
fn split_escape(word: &[u8]) -> Option<(u8, &[u8])>
    ensures coded { SplitsEscape word.now result }
    ensures shorter { MatchOption result
        (Unit {0}) (λ parts. length parts.1.now < length word.now) }
{
    let [b'%', high, low, behind @ ..] = word else {
        return None;
    };
    let high = char::from(*high).to_digit(16)?;
    let low = char::from(*low).to_digit(16)?;
    Some(((16 * high + low) as u8, behind))
}

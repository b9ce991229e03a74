// The words that say how a file is opened, and from where an offset counts.
ghost use Rattle.std.specs.Prelude.{◌≡◌, ◌==◌, ℕ, List, Option, codes, if◌then◌else◌, true, false, Some, None};
ghost use Rattle.std.specs.Str.{bytes_eq};
ghost use Rattle.ft_words.specs.Calls.{parse_flags, parse_whence, split_letter, given_mode, access_of};

use crate::modes::parse_mode;
use ft_posix::{OpenFlags, Whence};
use ft_tree::AccessMode;

/// `r`, `w` or `rw`, then any of `c`, `x`, `t` and `a`, each at most once, in this order, and then
/// nothing or `=MODE`, the mode of a file that is made.
pub fn parse_flags(word: &[u8]) -> Option<OpenFlags>
    ensures { result ≡ parse_flags word.now }
{
    let (read, rest) = split_letter(b'r', word);
    let (write, rest) = split_letter(b'w', rest);
    let (create, rest) = split_letter(b'c', rest);
    let (excl, rest) = split_letter(b'x', rest);
    let (trunc, rest) = split_letter(b't', rest);
    let (append, rest) = split_letter(b'a', rest);
    let mode = given_mode(rest)?;
    let access = access_of(read, write)?;
    Some(OpenFlags {
        access,
        create,
        excl,
        trunc,
        append,
        mode,
    })
}

/// Returns whether a text begins with a letter, and the rest of the text.
fn split_letter(letter: u8, text: &[u8]) -> (bool, &[u8])
    ensures { (result.0, result.1.now) ≡ split_letter letter text.now }
{
    match text.split_first() {
        Some((first, rest)) if *first == letter => (true, rest),
        _ => (false, text),
    }
}

/// Returns the mode that a text gives after `=`, or no mode if the text is empty. Returns `None`
/// for any other text.
fn given_mode(rest: &[u8]) -> Option<Option<u16>>
    ensures { result ≡ given_mode rest.now }
{
    match rest {
        [] => Some(None),
        [b'=', word @ ..] => Some(Some(parse_mode(word)?)),
        _ => None,
    }
}

/// Returns the access for reading, for writing or for both. Returns `None` for neither.
fn access_of(read: bool, write: bool) -> Option<AccessMode>
    ensures { result ≡ access_of read write }
{
    match (read, write) {
        (true, true) => Some(AccessMode::ReadWrite),
        (true, false) => Some(AccessMode::ReadOnly),
        (false, true) => Some(AccessMode::WriteOnly),
        (false, false) => None,
    }
}

/// Returns the point from which an offset counts.
pub fn parse_whence(word: &[u8]) -> Option<Whence>
    ensures { result ≡ parse_whence word.now }
{
    if word == b"set".as_slice() {
        Some(Whence::Set)
    } else if word == b"cur".as_slice() {
        Some(Whence::Cur)
    } else if word == b"end".as_slice() {
        Some(Whence::End)
    } else {
        None
    }
}

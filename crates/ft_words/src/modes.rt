// Modes, and their owners.
ghost use Rattle.std.specs.Prelude.{◌≡◌, ◌+◌, ◌*◌, ◌≤◌, Some, None};
ghost use Rattle.ft_words.specs.Modes.{parse_mode, parse_owner, mode_text, owner_text, attributes_text, time_text, with_octal_digit};

use crate::numbers::parse_u32;
use ft_tree::{Attributes, MOST_MODE, Timestamp};
use std::fmt;

/// Returns the mode that a word of 1 to 5 octal digits stands for, if it is at most 07777.
pub fn parse_mode(word: &[u8]) -> Option<u16>
    ensures { result ≡ parse_mode word.now }
{
    if word.is_empty() || word.len() > 5 {
        return None;
    }
    let mut mode = 0;
    for byte in word {
        mode = with_octal_digit(mode, *byte)?;
    }
    Some(mode)
}

/// Returns the mode with this digit after its own digits. Returns `None` if the byte is no octal
/// digit, or if the mode would be above 07777.
fn with_octal_digit(mode: u16, byte: u8) -> Option<u16>
    requires { mode ≤ MOST_MODE }
    ensures { result ≡ with_octal_digit mode byte }
{
    if !matches!(byte, b'0'..=b'7') {
        return None;
    }
    let more = mode * 8 + u16::from(byte - b'0');
    (more <= MOST_MODE).then_some(more)
}

/// Returns the owner or the group that a word names: a number below 2^32 of at most 10 digits. `-`
/// names none, so that the one that is there stays. 4294967295 is none either and no such word,
/// since POSIX.1-2017 (System Interfaces, chown) has it stand for the one that is there.
pub fn parse_owner(word: &[u8]) -> Option<Option<u32>>
    ensures { result ≡ parse_owner word.now }
{
    if word == b"-".as_slice() {
        return Some(None);
    }
    match parse_u32(word)? {
        u32::MAX => None,
        owner => Some(Some(owner)),
    }
}

/// A mode, in four octal digits.
#[derive(Clone, Copy)]
pub struct ModeText(pub u16);

impl fmt::Display for ModeText {
    ghost output = { λ mode. Some (mode_text mode.0) };

    #[tactic(auto, using(crate::proofs::ModeTexts::padded_mode))]
    fn fmt<W: fmt::Write>(&self, f: &mut fmt::Formatter<W>) -> fmt::Result {
        write!(f, "{:04o}", self.0)
    }
}

/// An owner or a group, and `-` for the one that is there.
#[derive(Clone, Copy)]
pub struct OwnerText(pub Option<u32>);

impl fmt::Display for OwnerText {
    ghost output = { λ owner. Some (owner_text owner.0) };

    fn fmt<W: fmt::Write>(&self, f: &mut fmt::Formatter<W>) -> fmt::Result {
        match self.0 {
            Some(owner) => write!(f, "{owner}"),
            None => f.write_str("-"),
        }
    }
}

/// A mode, an owner and a group.
#[derive(Clone, Copy)]
pub(crate) struct AttributesText(pub(crate) Attributes);

impl fmt::Display for AttributesText {
    ghost output = { λ text. Some (attributes_text text.0) };

    fn fmt<W: fmt::Write>(&self, f: &mut fmt::Formatter<W>) -> fmt::Result {
        let Attributes { mode, owner, group } = self.0;
        write!(f, "{} {owner} {group}", ModeText(mode))
    }
}

/// The time of bytes.
#[derive(Clone, Copy)]
pub(crate) struct TimeText(pub(crate) Timestamp);

impl fmt::Display for TimeText {
    ghost output = { λ text. Some (time_text text.0) };

    fn fmt<W: fmt::Write>(&self, f: &mut fmt::Formatter<W>) -> fmt::Result {
        write!(f, "{} {}", self.0.seconds, self.0.nanoseconds)
    }
}

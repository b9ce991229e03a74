// The words of a line.
ghost use Rattle.std.specs.Prelude.{◌≡◌, ◌≢◌, ℕ, List, option_copied, if◌then◌else◌, Some, None};
ghost use Rattle.ft_words.specs.Calls.{only_word, last_word};
ghost use Rattle.ft_words.specs.Spelling.{words_of, words_of_line, words_left, stripped};

use crate::split::split_near;
use bstr::ByteSlice;
use std::marker::Model;

/// The words of a text, which are separated by single spaces.
#[derive(Drop)]
pub struct Words<'a> {
    rest: Option<&'a [u8]>,
}

impl<'a> Model for Words<'a> {
    ghost Value = { List (List ℕ) };

    ghost view = { λ words. words_left words.rest };
}

impl<'a> Words<'a> {
    /// Returns the words of this text: at least one, which may be empty.
    pub fn of(text: &'a [u8]) -> Words<'a>
        ensures { result ≡ words_of text.entry.now }
    {
        Words { rest: Some(text) }
    }

    /// The words of a line, the one carriage return at its end left out. A line has none where it
    /// is empty or a comment, which begins with `#`.
    pub fn of_line(line: &'a [u8]) -> Option<Words<'a>>
        ensures { result ≡ words_of_line line.entry.now }
    {
        let text = line.strip_suffix(b"\r".as_slice()).unwrap_or(line);
        if matches!(text.first(), None | Some(b'#')) {
            return None;
        }
        Some(Words::of(text))
    }

    /// Returns these words without this byte, which is no space, at the front of the first word.
    /// Returns `None` if the first word does not begin with this byte.
    #[tactic(auto, using(crate::proofs::Bytes::stripped_front))]
    pub fn strip_first_byte(&self, byte: u8) -> Option<Words<'a>>
        requires { byte ≢ 32 }
        ensures { result ≡ stripped byte self.now }
    {
        match self.rest?.split_first() {
            Some((first, rest)) if *first == byte => Some(Words::of(rest)),
            _ => None,
        }
    }

    /// Returns the word that is left, if it is the only one.
    pub fn sole(self) -> Option<&'a [u8]>
        ensures { option_copied result ≡ only_word self.entry }
    {
        alone(self.rest?)
    }

    /// Returns the only word that is left, or an empty word if none is left. Returns `None` if more
    /// than one is left.
    #[tactic(auto, using(crate::proofs::Bytes::last_of_text))]
    pub fn sole_or_empty(self) -> Option<&'a [u8]>
        ensures { option_copied result ≡ last_word self.entry }
    {
        match self.rest {
            None => Some(&[]),
            Some(text) => alone(text),
        }
    }
}

impl<'a> Iterator for Words<'a> {
    ghost use Rattle.std.specs.Iterator.{YieldsFirstRef, item_count};

    type Item = &'a [u8];

    ghost next_gives = { YieldsFirstRef (λ words. words) };

    ghost remaining = { item_count (λ words. words) };

    #[tactic(auto, using(crate::proofs::Bytes::words_of_cut, crate::proofs::Bytes::words_of_free))]
    fn next(&mut self) -> Option<&'a [u8]> {
        let text = self.rest?;
        match split_near(b' ', text) {
            None => {
                self.rest = None;
                Some(text)
            }
            Some((word, rest)) => {
                self.rest = Some(rest);
                Some(word)
            }
        }
    }
}

/// Returns a text that is one word: it has no space.
fn alone(text: &[u8]) -> Option<&[u8]>
    ensures { option_copied result ≡ only_word (words_of text.now) }
{
    match text.find_byte(b' ') {
        None => Some(text),
        Some(_) => None,
    }
}

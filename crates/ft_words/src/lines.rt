// The lines of a text.
ghost use Rattle.std.specs.Prelude.{◌≡◌, ℕ, List};
ghost use Rattle.ft_words.specs.Spelling.{lines_of};

use crate::split::split_once;
use std::marker::Model;

/// The lines of a text. Each ends at a line feed, which is no part of it, and which the last may
/// lack.
#[derive(Drop)]
pub struct Lines<'a> {
    rest: &'a [u8],
}

impl<'a> Model for Lines<'a> {
    ghost Value = { List (List ℕ) };

    ghost view = { λ lines. lines_of lines.rest.now };
}

impl<'a> Lines<'a> {
    /// Returns the lines of a text: none if it is empty.
    pub fn of(text: &'a [u8]) -> Lines<'a>
        ensures { result ≡ lines_of text.entry.now }
    {
        Lines { rest: text }
    }

    /// Returns the lines that are left, for another reader.
    pub fn copy(&self) -> Lines<'a>
        ensures { result ≡ self.now }
    {
        Lines { rest: self.rest }
    }
}

impl<'a> Iterator for Lines<'a> {
    ghost use Rattle.std.specs.Iterator.{YieldsFirstRef, item_count};

    type Item = &'a [u8];

    ghost next_gives = { YieldsFirstRef (λ lines. lines) };

    ghost remaining = { item_count (λ lines. lines) };

    #[tactic(auto, using(crate::proofs::LineCuts::lines_of_cut, crate::proofs::LineCuts::lines_of_rest))]
    fn next(&mut self) -> Option<&'a [u8]> {
        let text = self.rest;
        match split_once(b'\n', text) {
            None if text.is_empty() => None,
            None => {
                self.rest = &[];
                Some(text)
            }
            Some((line, rest)) => {
                self.rest = rest;
                Some(line)
            }
        }
    }
}

// The pieces of a text between its slashes.
ghost use Rattle.std.specs.Prelude.{◌≡◌, ◌==◌, ◌∷◌, ◌++◌, ℕ, List, false, MatchOption};
ghost use Rattle.std.specs.List.{slice_split};
ghost use Rattle.ft_path.specs.Name.{slash, has_slash};
ghost use Rattle.ft_path.specs.FilePath.{pieces_left};

use bstr::ByteSlice;
use std::marker::Model;

/// The pieces between the slashes of a text, in order, including the empty ones.
#[derive(Drop)]
pub(crate) struct Pieces<'a> {
    rest: Option<&'a [u8]>,
}

impl<'a> Model for Pieces<'a> {
    ghost Value = { List (List ℕ) };

    ghost view = { λ pieces. pieces_left pieces.rest };
}

impl<'a> Pieces<'a> {
    /// Returns the pieces of a text. There is at least one.
    pub(crate) fn of(text: &'a [u8]) -> Pieces<'a>
        ensures { result ≡ slice_split (λ b. b == slash) text.entry.now }
    {
        Pieces { rest: Some(text) }
    }
}

impl<'a> Iterator for Pieces<'a> {
    ghost use Rattle.std.specs.Iterator.{YieldsFirstRef, item_count};

    type Item = &'a [u8];

    ghost next_gives = { YieldsFirstRef (λ pieces. pieces) };

    ghost remaining = { item_count (λ pieces. pieces) };

    #[tactic(auto, using(crate::proofs::Pieces::pieces_of_cut, crate::proofs::Pieces::pieces_of_free))]
    fn next(&mut self) -> Option<&'a [u8]> {
        let text = self.rest?;
        match cut(text) {
            None => {
                self.rest = None;
                Some(text)
            }
            Some((piece, rest)) => {
                self.rest = Some(rest);
                Some(piece)
            }
        }
    }
}

/// Returns what comes before the first slash and what comes after it, if there is a slash.
fn cut(text: &[u8]) -> Option<(&[u8], &[u8])>
    ensures { MatchOption result (has_slash text.now ≡ false)
        (λ parts. (has_slash parts.0.now ≡ false)
        × (text.now ≡ parts.0.now ++ slash ∷ parts.1.now)) }
{
    match text.find_byte(b'/') {
        None => None,
        Some(at) => Some((&text[..at], &text[at + 1..])),
    }
}

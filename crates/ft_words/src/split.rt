// Where a byte stands in a text.
ghost use Rattle.std.specs.Prelude.{MatchOption};
ghost use Rattle.ft_words.specs.Spelling.{IsFreeOf, IsSplitAt};

use bstr::ByteSlice;

/// Returns what comes before the first place of a byte, and what comes after it, if the byte is
/// there.
pub fn split_once(byte: u8, text: &[u8]) -> Option<(&[u8], &[u8])>
    ensures { MatchOption result (IsFreeOf byte text.now)
        (λ parts. IsSplitAt byte text.now parts.0.now parts.1.now) }
{
    match text.find_byte(byte) {
        None => None,
        Some(at) => Some((&text[..at], &text[at + 1..])),
    }
}

/// Returns what comes before the first place of a byte, and what comes after it, if the byte is
/// there. This is for a byte that is likely to be near.
pub(crate) fn split_near(byte: u8, text: &[u8]) -> Option<(&[u8], &[u8])>
    ensures { MatchOption result (IsFreeOf byte text.now)
        (λ parts. IsSplitAt byte text.now parts.0.now parts.1.now) }
{
    for (at, other) in text.iter().enumerate() {
        if *other == byte {
            return Some((&text[..at], &text[at + 1..]));
        }
    }
    None
}

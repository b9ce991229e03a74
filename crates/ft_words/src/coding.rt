// Bytes, percent-coded piece by piece.
ghost use Rattle.std.specs.Prelude.{◌≡◌, ◌<◌, ◌≤◌, ◌++◌, length, take};
ghost use Rattle.ft_words.specs.Texts.{coded, coded_byte, is_coded};

use crate::lanes::{LANES, put_printed};
use percent_encoding::percent_encode_byte;

/// The most bytes that are put at once.
pub(crate) const CODED_PIECE: usize = 256;

/// The most bytes that a step makes.
const MOST_MADE: usize = LANES + 3;

/// Puts the first of some bytes, percent-coded, at the front of a place: all of them, or as many as
/// there is room for. Returns how many bytes that makes, and what is left.
pub(crate) fn put_coded<'a>(bytes: &'a [u8], place: &mut [u8; CODED_PIECE]) -> (usize, &'a [u8])
    ensures within { result.0 ≤ CODED_PIECE }
    ensures text { take result.0 place.new ++ coded result.1.now ≡ coded bytes.now }
    ensures fewer { 0 < length bytes.now → length result.1.now < length bytes.now }
{
    let mut end = 0;
    let mut rest = bytes;
    while !rest.is_empty() && end <= CODED_PIECE - MOST_MADE {
        let (made, behind) = put_next(rest, &mut place[end..]);
        end += made;
        rest = behind;
    }
    (end, rest)
}

/// Puts the first of some bytes: up to sixteen that are printed as they are, and the next one.
/// Returns how many bytes that makes, and the bytes that are left.
fn put_next<'a>(bytes: &'a [u8], place: &mut [u8]) -> (usize, &'a [u8])
    requires some { 0 < length bytes.now }
    requires room { MOST_MADE ≤ length place.old }
    ensures text { take result.0 place.new ++ coded result.1.now ≡ coded bytes.now }
    ensures fewer { length result.1.now < length bytes.now }
    ensures within { result.0 ≤ MOST_MADE }
    ensures len { length place.new ≡ length place.old }
{
    let printed = put_printed(bytes, place);
    match bytes[printed..].split_first() {
        None => (printed, &bytes[printed..]),
        Some((byte, behind)) => {
            let made = put_byte(*byte, &mut place[printed..]);
            (printed + made, behind)
        }
    }
}

/// Puts one byte, percent-coded, at the front of a place, and returns how many bytes that makes.
fn put_byte(byte: u8, place: &mut [u8]) -> usize
    requires { 3 ≤ length place.old }
    ensures within { result ≤ 3 }
    ensures len { length place.new ≡ length place.old }
    ensures text { take result place.new ≡ coded_byte byte }
{
    if !is_coded(byte) {
        place[0] = byte;
        return 1;
    }
    place[..3].copy_from_slice(percent_encode_byte(byte).as_bytes());
    3
}

/// Returns whether a byte is printed as `%` and two digits.
fn is_coded(byte: u8) -> bool
    ensures { result ≡ is_coded byte }
{
    byte <= b' ' || byte == b'%' || byte >= 127
}

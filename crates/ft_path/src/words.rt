// The bytes of a short name in their place, read as words of eight bytes.
ghost use Rattle.std.specs.Prelude.{◌≡◌, drop};
ghost use Rattle.std.specs.Bool.{Decides};
ghost use Rattle.std.specs.Ordering.{nat_cmp};
ghost use Rattle.std.specs.Cmp.Lexicographic.{slice_cmp};
ghost use Rattle.ft_path.specs.Front.{front_of};

use crate::SHORT_NAME;
use std::cmp::Ordering;

/// Returns whether two places have the same bytes.
pub(crate) fn are_same(place: &[u8; SHORT_NAME], other: &[u8; SHORT_NAME]) -> bool
    ensures { Decides result (place.now ≡ other.now) }
{
    first_eight(place) == first_eight(other)
        && second_eight(place) == second_eight(other)
        && last_eight(place) == last_eight(other)
}

/// Returns how the bytes of one place compare to those of another.
pub(crate) fn order(place: &[u8; SHORT_NAME], other: &[u8; SHORT_NAME]) -> Ordering
    ensures { result ≡ slice_cmp nat_cmp place.now other.now }
{
    match first_eight(place).cmp(&first_eight(other)) {
        Ordering::Equal => match second_eight(place).cmp(&second_eight(other)) {
            Ordering::Equal => last_eight(place).cmp(&last_eight(other)),
            order => order,
        },
        order => order,
    }
}

/// Returns the first eight bytes of a place as the digits of a number.
pub(crate) fn first_eight(place: &[u8; SHORT_NAME]) -> u64
    ensures { result ≡ front_of place.now }
{
    u64::from_be_bytes([
        place[0], place[1], place[2], place[3], place[4], place[5], place[6], place[7],
    ])
}

/// Returns the second eight bytes of a place as the digits of a number.
pub(crate) fn second_eight(place: &[u8; SHORT_NAME]) -> u64
    ensures { result ≡ front_of (drop 8 place.now) }
{
    u64::from_be_bytes([
        place[8], place[9], place[10], place[11], place[12], place[13], place[14], place[15],
    ])
}

/// Returns the last eight bytes of a place as the digits of a number. Their first two are also the
/// last two of the second eight.
fn last_eight(place: &[u8; SHORT_NAME]) -> u64
    ensures { result ≡ front_of (drop 14 place.now) }
{
    u64::from_be_bytes([
        place[14], place[15], place[16], place[17], place[18], place[19], place[20], place[21],
    ])
}

/// Returns the six bytes after the second eight, and two zeros after them, as the digits of a
/// number.
pub(crate) fn last_six(place: &[u8; SHORT_NAME]) -> u64
    ensures { result ≡ front_of (drop 16 place.now) }
{
    u64::from_be_bytes([
        place[16], place[17], place[18], place[19], place[20], place[21], 0, 0,
    ])
}

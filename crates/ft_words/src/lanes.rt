// Bytes, sixteen at a time.
ghost use Rattle.std.specs.Prelude.{◌≡◌, ℕ, ◌<◌, ◌≤◌, ◌==◌, false, true, length, nat_le, slice_index_or, take};
ghost use Rattle.std.specs.Int.{bit_at};
ghost use Rattle.ft_words.specs.declared.lanes.TheConstants.{LANES};
ghost use Rattle.ft_words.specs.Spelling.{IsFreeOf};
ghost use Rattle.ft_words.specs.Texts.{coded, is_coded};

use std::simd::prelude::*;

/// So many bytes are looked at at once.
pub(crate) const LANES: usize = 16;

/// Puts those of the first sixteen bytes that come before one that is printed as `%` and two digits
/// at the front of a place, which has room for sixteen. Returns how many there are: 0 if there are
/// fewer than sixteen bytes.
pub(crate) fn put_printed(bytes: &[u8], place: &mut [u8]) -> usize
    requires { LANES ≤ length place.old }
    ensures within { result ≤ length bytes.now }
    ensures few { result ≤ LANES }
    ensures printed { coded (take result bytes.now) ≡ take result bytes.now }
    ensures len { length place.new ≡ length place.old }
    ensures put { take result place.new ≡ take result bytes.now }
{
    if bytes.len() < LANES {
        return 0;
    }
    let lanes = u8x16::from_slice(bytes);
    lanes.copy_to_slice(place);
    first_bit(coded_bits(lanes))
}

/// Puts those of the first sixteen bytes that come before a `%` at the front of a place, which has
/// room for all bytes. Returns how many there are: 0 if there are fewer than sixteen bytes.
pub(crate) fn put_plain(bytes: &[u8], place: &mut [u8]) -> usize
    requires { length bytes.now ≤ length place.old }
    ensures within { result ≤ length bytes.now }
    ensures plain { IsFreeOf 37 (take result bytes.now) }
    ensures len { length place.new ≡ length place.old }
    ensures put { take result place.new ≡ take result bytes.now }
{
    if bytes.len() < LANES {
        return 0;
    }
    let lanes = u8x16::from_slice(bytes);
    lanes.copy_to_slice(place);
    first_bit(percent_bits(lanes))
}

/// Returns a bit for each place of a byte that is printed as `%` and two digits.
fn coded_bits(lanes: u8x16) -> u64
    ensures { (k : ℕ) → k < LANES → is_coded (slice_index_or lanes k 0) ≡ true
        → bit_at result k ≡ 1 }
{
    low_bits(lanes) | percent_bits(lanes) | high_bits(lanes)
}

/// Returns a bit for each place of a byte up to a space.
fn low_bits(lanes: u8x16) -> u64
    ensures { (k : ℕ) → k < LANES → nat_le (slice_index_or lanes k 0) 32 ≡ true
        → bit_at result k ≡ 1 }
{
    lanes.simd_le(u8x16::splat(b' ')).to_bitmask()
}

/// Returns a bit for each place of a byte from 127 on.
fn high_bits(lanes: u8x16) -> u64
    ensures { (k : ℕ) → k < LANES → nat_le 127 (slice_index_or lanes k 0) ≡ true
        → bit_at result k ≡ 1 }
{
    lanes.simd_ge(u8x16::splat(127)).to_bitmask()
}

/// Returns a bit for each place of a `%`.
fn percent_bits(lanes: u8x16) -> u64
    ensures { (k : ℕ) → k < LANES → (slice_index_or lanes k 0 == 37) ≡ true → bit_at result k ≡ 1 }
{
    lanes.simd_eq(u8x16::splat(b'%')).to_bitmask()
}

/// Returns the place of the lowest of the first sixteen bits that is set, or sixteen.
fn first_bit(bits: u64) -> usize
    ensures within { result ≤ LANES }
    ensures below { (k : ℕ) → k < result → bit_at bits k ≡ 0 }
{
    (bits | 1 << LANES).trailing_zeros() as usize
}

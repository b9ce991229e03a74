// The bytes of a name as they are kept.
ghost use Rattle.std.specs.Prelude.{◌≡◌, ◌≤◌, length, nat_eq, IfOk, IsOk};
ghost use Rattle.std.specs.Ordering.{nat_cmp};
ghost use Rattle.std.specs.Cmp.Lexicographic.{pointwise, slice_cmp};
ghost use Rattle.ft_path.specs.Kept.{kept, Fits};
ghost use Rattle.ft_path.specs.Hashed.{hashed};
ghost use Rattle.ft_path.specs.Name.{is_dot, is_dot_dot, IsNulFree};

use crate::{SHORT_NAME, hash, words};
use std::alloc::{AllocError, Global};
use std::cmp::Ordering;

/// The bytes of a name. Up to `SHORT_NAME` bytes are in place, after their number and before zeros.
/// More bytes are on the heap.
#[derive(Debug, Drop)]
pub(crate) enum Bytes {
    Short(u8, [u8; SHORT_NAME]),
    Long(Box<Vec<u8>>),
}

impl Bytes {
    /// Returns a copy of bytes. Up to `SHORT_NAME` bytes take no memory.
    pub(crate) fn copy_of(alloc: Global, bytes: &[u8]) -> Result<Bytes, AllocError>
        ensures kept { IfOk result (λ copy. kept copy ≡ bytes.now) }
        ensures fits { IfOk result (λ copy. Fits copy) }
        ensures short { length bytes.now ≤ SHORT_NAME → IsOk result }
    {
        let len = bytes.len();
        if len <= SHORT_NAME {
            let mut place = [0; SHORT_NAME];
            place[..len].copy_from_slice(bytes);
            return Ok(Bytes::Short(len as u8, place));
        }
        let long = Vec::from_slice(alloc, bytes)?;
        Ok(Bytes::Long(Box::new(alloc, long)?))
    }

    /// Returns another copy of these bytes. Up to `SHORT_NAME` bytes take no memory.
    pub(crate) fn copied(&self) -> Result<Bytes, AllocError>
        requires { Fits self.now }
        ensures kept { IfOk result (λ copy. kept copy ≡ kept self.now) }
        ensures fits { IfOk result (λ copy. Fits copy) }
        ensures short { length (kept self.now) ≤ SHORT_NAME → IsOk result }
    {
        match self {
            Bytes::Short(len, place) => Ok(Bytes::Short(*len, *place)),
            Bytes::Long(long) => Bytes::copy_of(*long.allocator(), long.as_slice()),
        }
    }

    /// Returns all of the bytes.
    pub(crate) fn as_slice(&self) -> &[u8]
        requires { Fits self.now }
        ensures { result.now ≡ kept self.now }
    {
        match self {
            Bytes::Short(len, place) => &place[..usize::from(*len)],
            Bytes::Long(long) => long.as_slice(),
        }
    }

    /// Returns whether the bytes are the same as others.
    pub(crate) fn is_same(&self, other: &Bytes) -> bool
        requires fits { Fits self.now }
        requires other_fits { Fits other.now }
        ensures { result ≡ pointwise nat_eq (kept self.now) (kept other.now) }
    {
        match (self, other) {
            (Bytes::Short(len, place), Bytes::Short(other_len, other_place)) => {
                len == other_len && words::are_same(place, other_place)
            }
            _ => self.as_slice() == other.as_slice(),
        }
    }

    /// Returns how the bytes compare to others. If both are in place, the zeros after them are
    /// compared too: they come before all other bytes.
    pub(crate) fn order(&self, other: &Bytes) -> Ordering
        requires fits { Fits self.now }
        requires other_fits { Fits other.now }
        requires nul_free { IsNulFree (kept self.now) }
        requires other_nul_free { IsNulFree (kept other.now) }
        ensures { result ≡ slice_cmp nat_cmp (kept self.now) (kept other.now) }
    {
        match (self, other) {
            (Bytes::Short(_, place), Bytes::Short(_, other_place)) => {
                words::order(place, other_place)
            }
            _ => self.as_slice().cmp(other.as_slice()),
        }
    }

    /// Returns the hash of the bytes under a seed.
    pub(crate) fn hashed(&self, seed: u64) -> u64
        requires { Fits self.now }
        ensures { result ≡ hashed seed (kept self.now) }
    {
        match self {
            Bytes::Short(len, place) => hash::of_place(seed, *len, place),
            Bytes::Long(long) => hash::of_text(seed, long.as_slice()),
        }
    }

    /// Returns whether the bytes are `.`.
    pub(crate) fn is_dot(&self) -> bool
        requires { Fits self.now }
        ensures { result ≡ is_dot (kept self.now) }
    {
        match self {
            Bytes::Short(1, place) => place[0] == b'.',
            _ => false,
        }
    }

    /// Returns whether the bytes are `..`.
    pub(crate) fn is_dot_dot(&self) -> bool
        requires { Fits self.now }
        ensures { result ≡ is_dot_dot (kept self.now) }
    {
        match self {
            Bytes::Short(2, place) => place[0] == b'.' && place[1] == b'.',
            _ => false,
        }
    }
}

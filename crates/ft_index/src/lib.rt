//! An index by hash: which keys have which hash, and the mixing that makes the hashes.
#![tactic(auto)]

mod candidates;
mod growth;
mod index;
mod mixing;
mod probe;
mod slot;

pub use candidates::Candidates;
pub use index::Index;
pub use mixing::mix;

/// The factor by which a seed and a word are multiplied: an odd number of 64 bits without a
/// pattern.
const MULTIPLIER: u64 = 0x9e37_79b9_7f4a_7c15;

/// The least number that no index takes as a key.
const KEYS_END: usize = 0xFFFF_FFFF;

/// How many homes an index has when it gets its first key.
const FIRST_HOMES: usize = 16;

/// How many homes an index has at most: one for each hash.
const MOST_HOMES: usize = 0x1_0000_0000;

/// For how many slots after the homes there is room at most, before that room grows.
const MOST_SPARE: usize = 32;

/// An index starts again without homes when it is cleared, if it has fewer keys than its homes
/// divided by this number.
const SPARSE: usize = 8;

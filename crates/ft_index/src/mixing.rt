// The mixing that makes the hashes.
ghost use Rattle.std.specs.Prelude.{◌≡◌, ◌*◌};
ghost use Rattle.ft_index.specs.Mix.{folded, mix as mixed};

use crate::MULTIPLIER;

/// Returns a hash of a word, which depends only on the seed and the word. The hash may be the seed
/// for the next of several words.
///
/// Its upper half is the hash that `Index` takes.
pub fn mix(seed: u64, word: u64) -> u64
    ensures { result ≡ mixed seed word }
{
    folded_multiply(seed ^ word, MULTIPLIER)
}

/// Returns the two halves of a product of 128 bits, joined by xor.
fn folded_multiply(a: u64, b: u64) -> u64
    ensures { result ≡ folded (a * b) }
{
    let product = a as u128 * b as u128;
    (product & 0xFFFF_FFFF_FFFF_FFFF) as u64 ^ (product >> 64) as u64
}

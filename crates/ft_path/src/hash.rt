// The hash of a name.
ghost use Rattle.std.specs.Prelude.{◌≡◌, take};
ghost use Rattle.ft_path.specs.Hashed.{hashed};
ghost use Rattle.ft_path.specs.Kept.{IsPadded};

use crate::SHORT_NAME;
use crate::front::front_of;
use crate::words::{first_eight, last_six, second_eight};
use ft_index::mix;

/// Returns the hash of a text under a seed.
pub(crate) fn of_text(seed: u64, bytes: &[u8]) -> u64
    ensures { result ≡ hashed seed bytes.now }
{
    let mut hash = mix(seed, bytes.len() as u64);
    for word in 0..bytes.len() / 8 + 1 {
        hash = mix(hash, front_of(&bytes[8 * word..]));
    }
    hash
}

/// Returns the hash, under a seed, of a text that is kept in place.
pub(crate) fn of_place(seed: u64, len: u8, place: &[u8; SHORT_NAME]) -> u64
    requires { IsPadded len place.now }
    ensures { result ≡ hashed seed (take len place.now) }
{
    let hash = mix(mix(seed, u64::from(len)), first_eight(place));
    if len < 8 {
        return hash;
    }
    let hash = mix(hash, second_eight(place));
    if len < 16 {
        return hash;
    }
    mix(hash, last_six(place))
}

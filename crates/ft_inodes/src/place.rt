// One place of a directory.
ghost use Rattle.std.specs.Prelude.{◌≡◌};
ghost use Rattle.ft_inodes.specs.Named.{short_hash};

use ft_cells::{Hinted, Node};
use ft_path::Name;

/// A name of a directory, and what the name leads to if it is an entry.
#[derive(Clone, Drop)]
pub(crate) struct Place {
    pub(crate) name: Name,
    pub(crate) child: Option<Hinted<Node>>,
}

/// Returns the hash of a name under a seed. An index finds the name by this hash.
pub(crate) fn hash_of(name: &Name, seed: u64) -> u32
    ensures { result ≡ short_hash seed name.now }
{
    (name.hashed(seed) >> 32) as u32
}

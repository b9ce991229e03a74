// How many transactions a forest allows, and how deep they may be.
ghost use Rattle.std.specs.Prelude.{◌≡◌};
ghost use Rattle.ft_forest.specs.Limits.{default_limits};

use crate::{DEFAULT_DEPTH, DEFAULT_TRANSACTIONS};

/// How many transactions a forest allows, and how deep they may be. No call changes these limits.
#[derive(Clone, Copy, Debug, PartialEq, Eq)]
pub struct ForestLimits {
    /// How many transactions there may be since the base.
    pub transactions: u64,
    /// How deep a transaction may be. A top-level one has depth 1.
    pub depth: u64,
}

impl Default for ForestLimits {
    fn default() -> ForestLimits
        ensures { result ≡ default_limits }
    {
        ForestLimits {
            transactions: DEFAULT_TRANSACTIONS,
            depth: DEFAULT_DEPTH,
        }
    }
}

// The limits of a core.
ghost use Rattle.std.specs.Prelude.{◌≡◌};
ghost use Rattle.ft_core.specs.Limits.{default_limits, greatest_limits, are_within, of_tree};

use crate::{DEFAULT_CALLS, MOST_CALLS, MOST_DEPTH, MOST_LINKS};
use ft_body::LARGEST_SIZE;
use ft_forest::{DEFAULT_DEPTH, DEFAULT_TRANSACTIONS, ForestLimits, MOST_TRANSACTIONS};
use ft_tree::TreeLimits;

/// The limits of a core. No request changes them.
#[derive(Clone, Copy, Debug, PartialEq, Eq)]
pub struct Limits {
    /// How many bytes a file may have.
    pub file_size: u64,
    /// How many entries may name a file.
    pub links: u64,
    /// How deep a transaction may be; a top-level one has depth 1.
    pub depth: u64,
    /// How many transactions there may be since the base.
    pub transactions: u64,
    /// How many calls may be granted since the base. A call that was undone counts too.
    pub calls: u64,
}

impl Default for Limits {
    fn default() -> Limits
        ensures { result ≡ default_limits }
    {
        let TreeLimits { file_size, links } = TreeLimits::default();
        Limits {
            file_size,
            links,
            depth: DEFAULT_DEPTH,
            transactions: DEFAULT_TRANSACTIONS,
            calls: DEFAULT_CALLS,
        }
    }
}

impl Limits {
    /// Returns the greatest limits that a core may have.
    pub fn greatest() -> Limits
        ensures { result ≡ greatest_limits }
    {
        Limits {
            file_size: LARGEST_SIZE,
            links: MOST_LINKS,
            depth: MOST_DEPTH,
            transactions: MOST_TRANSACTIONS,
            calls: MOST_CALLS,
        }
    }

    /// Returns whether each limit is at most that of `most`.
    pub fn are_within(&self, most: &Limits) -> bool
        ensures { result ≡ are_within self.now most.now }
    {
        self.file_size <= most.file_size
            && self.links <= most.links
            && self.depth <= most.depth
            && self.transactions <= most.transactions
            && self.calls <= most.calls
    }

    /// Returns the limits of the tree.
    pub(crate) fn of_tree(&self) -> TreeLimits
        ensures { result ≡ of_tree self.now }
    {
        TreeLimits {
            file_size: self.file_size,
            links: self.links,
        }
    }

    /// Returns the limits of the transactions.
    pub(crate) fn of_forest(&self) -> ForestLimits
        ensures transactions { result.transactions ≡ self.now.transactions }
        ensures depth { result.depth ≡ self.now.depth }
    {
        ForestLimits {
            transactions: self.transactions,
            depth: self.depth,
        }
    }
}

// The limits of a tree.
ghost use Rattle.std.specs.Prelude.{◌≡◌};
ghost use Rattle.ft_cells.specs.Limits.{default_limits};

use crate::{DEFAULT_FILE_SIZE, DEFAULT_LINKS};

/// The limits of a tree, like those that POSIX.1-2017 has for a file system (System Interfaces,
/// pathconf: FILESIZEBITS and LINK_MAX). No call changes them.
#[derive(Clone, Copy, Debug, PartialEq, Eq)]
pub struct TreeLimits {
    /// The most bytes that a file may have.
    pub file_size: u64,
    /// The most entries that may name a file.
    pub links: u64,
}

impl Default for TreeLimits {
    fn default() -> TreeLimits
        ensures { result ≡ default_limits }
    {
        TreeLimits {
            file_size: DEFAULT_FILE_SIZE,
            links: DEFAULT_LINKS,
        }
    }
}

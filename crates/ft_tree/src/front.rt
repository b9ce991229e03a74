// The fronts of paths, and where they lead.
ghost use Rattle.std.specs.Prelude.{◌≡◌, []};
ghost use Rattle.ft_tree.specs.Fronts.{front_end};

use crate::tree::ROOT;
use std::alloc::Global;

/// The front of a path: its text up to and including the slash before the last component. It also
/// has the directory to which each of its components leads.
#[derive(Debug, Drop)]
pub struct Front {
    pub text: Vec<u8>,
    pub dirs: Vec<u64>,
}

impl Front {
    /// Returns a front with no text, which leads to the root. Takes no memory.
    pub fn new(alloc: Global) -> Front
        ensures text { result.text.items ≡ [] }
        ensures dirs { result.dirs.items ≡ [] }
    {
        Front {
            text: Vec::new(alloc),
            dirs: Vec::new(alloc),
        }
    }

    /// Returns the directory to which the front leads.
    pub fn end(&self) -> u64
        ensures { result ≡ front_end self.now }
    {
        self.dirs.as_slice().last().copied().unwrap_or(ROOT)
    }
}

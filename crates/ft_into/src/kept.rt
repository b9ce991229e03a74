// The files and symbolic links of a directory that stay as they are.
ghost use Rattle.std.specs.Prelude.{◌≡◌, is_some, None, Some, OnOk, IsTrue, IsFalse, ◌≢◌};
ghost use Rattle.ft_into.specs.Knows.{with_kept};
ghost use Rattle.ft_into.specs.Views.{kept_of};

use ft_base::{Memory, Sequence};
use ft_copy::{FileFacts, FileId};
use std::alloc::Global;
use std::collections::HashMap;

/// The path in the tree of each file and symbolic link that stays as it is and has more than one
/// name. A file of the directory is at most one file of the tree.
#[derive(Drop)]
pub(crate) struct Kept {
    pub(crate) alloc: Global,
    pub(crate) paths: HashMap<FileId, Sequence<u8>>,
}

impl Kept {
    /// Returns no files. Takes no memory.
    pub(crate) fn new(alloc: Global) -> Kept
        ensures { kept_of result ≡ (λ _. None) }
    {
        Kept {
            alloc,
            paths: HashMap::new(alloc),
        }
    }

    /// Returns whether another path has this file already.
    pub(crate) fn has(&self, facts: FileFacts) -> bool
        ensures { result ≡ is_some (kept_of self.now facts.id) }
    {
        self.paths.contains_key(&facts.id)
    }

    /// Returns whether this file stays as it is at this path.
    pub(crate) fn is_at(&self, id: FileId, path: &[u8]) -> bool
        ensures yes { IsTrue result → kept_of self.now id ≡ Some path.now }
        ensures no { IsFalse result → kept_of self.now id ≢ Some path.now }
    {
        match self.paths.get(&id) {
            Some(first) => first.as_slice() == path,
            None => false,
        }
    }

    /// Notes a file that stays as it is, if it has more names than one.
    pub(crate) fn note(&mut self, facts: FileFacts, path: &[u8]) -> Result<(), Memory>
        ensures { OnOk result (kept_of self.new ≡ with_kept facts path.now (kept_of self.old)) }
    {
        if facts.links > 1 {
            let path = Vec::from_slice(self.alloc, path)?;
            self.paths.insert(facts.id, path.into())?;
        }
        Ok(())
    }
}

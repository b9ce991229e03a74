// The files and symbolic links with more than one name that were already copied.
ghost use Rattle.std.specs.Prelude.{◌≡◌, None, OnOk};
ghost use Rattle.std.specs.Option.{option_copied};
ghost use Rattle.ft_copy.specs.Walks.{firsts_of, with_first};

use crate::found::FileId;
use ft_base::{Memory, Sequence};
use std::alloc::Global;
use std::collections::HashMap;

/// The path at which each of these files was copied.
#[derive(Drop)]
pub(crate) struct Firsts {
    pub(crate) paths: HashMap<FileId, Sequence<u8>>,
}

impl Firsts {
    /// Returns an empty map. Takes no memory.
    pub(crate) fn new(alloc: Global) -> Firsts
        ensures { firsts_of result ≡ (λ _. None) }
    {
        Firsts {
            paths: HashMap::new(alloc),
        }
    }

    /// Returns the path of a file, if there is one.
    pub(crate) fn get(&self, id: FileId) -> Option<&Sequence<u8>>
        ensures { option_copied result ≡ firsts_of self.now id }
    {
        self.paths.get(&id)
    }

    /// Sets the path of a file.
    pub(crate) fn insert(&mut self, id: FileId, path: Sequence<u8>) -> Result<(), Memory>
        ensures { OnOk result (firsts_of self.new ≡ with_first id path (firsts_of self.old)) }
    {
        self.paths.insert(id, path)?;
        Ok(())
    }
}

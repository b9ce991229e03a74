// The names of a directory that the tree has not reached yet.
ghost use Rattle.std.specs.Prelude.{◌≡◌, ◌+◌, ◌∷◌, ◌++◌, [], is_some, IfNone, IfOk, IfSome, OnOk, if◌then◌else◌};
ghost use Rattle.std.specs.BTreeMap.{btree_map_len, insert_entry};
ghost use Rattle.std.specs.Map.{lookup, remove_entry};
ghost use Rattle.ft_into.specs.Compares.{IsEntered, IsThere};
ghost use Rattle.ft_into.specs.Knows.{is_path, path_order, with_names};
ghost use Rattle.ft_into.specs.Views.{names_of};

use crate::gone::child_path;
use ft_base::Memory;
use ft_copy::{CopyFault, FileId, FolderEntry, Found, Source};
use std::alloc::Global;
use std::collections::BTreeMap;

/// The paths that were listed and that the tree has not reached yet. Each has the number by which
/// the source knows what is there.
#[derive(Drop)]
pub(crate) struct Names {
    pub(crate) nodes: BTreeMap<Vec<u8>, u64>,
}

impl Names {
    /// Returns no names. Takes no memory.
    pub(crate) fn new(alloc: Global) -> Names
        ensures { names_of result ≡ [] }
    {
        Names {
            nodes: BTreeMap::new(alloc),
        }
    }

    /// Takes a path out, and returns what the source has there, with its number. Returns `None` if
    /// the path is not among the names.
    pub(crate) fn find<S: Source>(
        &mut self,
        disk: &S,
        path: &[u8],
    ) -> Result<Option<(u64, Found)>, CopyFault>
        ensures { IfOk result (λ there. IsThere (S.tells disk.now) path.now (names_of self.old)
            there
            (names_of self.new)) }
    {
        match self.take(path) {
            Some(node) => Ok(Some((node, disk.look(path, node)?))),
            None => Ok(None),
        }
    }

    /// Lists a directory that stays, and adds its names. If it is not this directory, the fault is
    /// `Read`.
    pub(crate) fn enter<S: Source>(
        &mut self,
        alloc: Global,
        disk: &S,
        path: &[u8],
        node: u64,
        id: FileId,
    ) -> Result<(), CopyFault>
        ensures { OnOk result (IsEntered (S.tells disk.now) path.now node id (names_of self.old)
            (names_of self.new)) }
    {
        let listing = disk.names(path, node)?;
        if listing.id != id {
            return Err(CopyFault::Read);
        }
        Ok(self.insert_all(alloc, path, listing.names)?)
    }

    /// Adds a path.
    fn insert(&mut self, path: Vec<u8>, node: u64) -> Result<(), Memory>
        ensures { OnOk result
            (names_of self.new ≡ insert_entry path_order (names_of self.old) path.items node) }
    {
        self.nodes.insert(path, node)?;
        Ok(())
    }

    /// Adds the names of a directory.
    fn insert_all(
        &mut self,
        alloc: Global,
        path: &[u8],
        names: Vec<FolderEntry>,
    ) -> Result<(), Memory>
        ensures { OnOk result
            (names_of self.new ≡ with_names path.now names.items (names_of self.old)) }
    {
        let mut names = names;
        while let Some(listed) = names.pop() {
            let child = child_path(alloc, path, listed.name.as_bytes())?;
            self.insert(child, listed.node)?;
        }
        Ok(())
    }

    /// Takes a path out, and returns its number, if it is there.
    fn take(&mut self, path: &[u8]) -> Option<u64>
        ensures value { result ≡ lookup (is_path path.now) (names_of self.old) }
        ensures taken { names_of self.new ≡ remove_entry (is_path path.now) (names_of self.old) }
    {
        self.nodes.remove(path)
    }

    /// Takes the last path out, and returns it with its number, if there is one.
    pub(crate) fn take_last(&mut self) -> Option<(Vec<u8>, u64)>
        ensures some { IfSome result
            (λ last. names_of self.old ≡ names_of self.new ++ (last.0.items, last.1) ∷ []) }
        ensures none { IfNone result ((names_of self.old ≡ []) × (names_of self.new ≡ [])) }
        ensures shorter { btree_map_len self.new.nodes + (if is_some result then 1 else 0)
            ≡ btree_map_len self.old.nodes }
    {
        self.nodes.pop_last()
    }
}

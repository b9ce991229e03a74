// The key of each cell in the table, by its hash.
ghost use Rattle.std.specs.Prelude.{◌≡◌, ◌↔◌, ℕ, true, None, Some, OnOk, OnErr, IfSome, IfNone};
ghost use Rattle.std.specs.FinMap as finite;
ghost use Rattle.std.specs.List.{Contains};
ghost use Rattle.ft_locks.specs.Hashes.{mixed, cell_hash, AreHashed};
ghost use Rattle.ft_locks.specs.Slots.{at_of};

use crate::cells::Locked;
use ft_base::Memory;
use ft_index::{Candidates, Index, mix};
use ft_tree::Cell;
use slab::Slab;
use std::alloc::Global;

/// The keys of the cells in a slab, by the hashes of the cells.
#[derive(Drop)]
pub(crate) struct CellIndex {
    pub(crate) index: Index,
    pub(crate) seed: u64,
}

/// Returns the number, the kind and the name of a cell, mixed with a seed.
fn mixed(seed: u64, cell: &Cell) -> u64
    ensures { result ≡ mixed seed cell.now }
{
    match cell {
        Cell::Entry(entry) => entry.name.hashed(mix(seed, entry.dir)),
        Cell::Names(dir) => mix(mix(seed, *dir), 1),
        Cell::Parent(dir) => mix(mix(seed, *dir), 2),
        Cell::Links(file) => mix(mix(seed, *file), 3),
        Cell::Bytes(file) => mix(mix(seed, *file), 4),
        Cell::Fd(fd) => mix(mix(seed, *fd), 5),
        Cell::DirAttributes(dir) => mix(mix(seed, *dir), 6),
        Cell::FileAttributes(file) => mix(mix(seed, *file), 7),
    }
}

/// Returns the hash of a cell.
#[tactic(auto, unfolding(crate::specs::Hashes::cell_hash))]
fn hash_of(seed: u64, cell: &Cell) -> u32
    ensures { result ≡ cell_hash seed cell.now }
{
    (mixed(seed, cell) >> 32) as u32
}

/// Returns whether a cell is stored under a key.
fn stands_at(locked: &Slab<Locked>, key: usize, cell: &Cell) -> bool
    ensures { (result ≡ true) ↔ (finite.get (at_of locked.now) key ≡ Some cell.now) }
{
    match locked.get(key) {
        Some(there) => there.cell == *cell,
        None => false,
    }
}

/// Returns the first of some keys under which a cell is stored, if there is one.
fn first_at(locked: &Slab<Locked>, keys: Candidates<'_>, cell: &Cell) -> Option<usize>
    ensures some { IfSome result (λ key. finite.get (at_of locked.now) key ≡ Some cell.now) }
    ensures none { IfNone result ((key : ℕ) → Contains keys.entry key
        → finite.get (at_of locked.now) key ≡ Some cell.now → ⊥) }
{
    for key in keys {
        if stands_at(locked, key, cell) {
            return Some(key);
        }
    }
    None
}

impl CellIndex {
    /// Returns an index without keys. Takes no memory.
    pub(crate) fn new(alloc: Global) -> CellIndex
        ensures { result.index ≡ finite.empty }
    {
        CellIndex {
            index: Index::new(alloc),
            seed: 0,
        }
    }

    /// Returns the key under which a cell is stored, if it is.
    pub(crate) fn find(&self, locked: &Slab<Locked>, cell: &Cell) -> Option<usize>
        requires { AreHashed self.now.index self.now.seed (at_of locked.now) }
        ensures some { IfSome result (λ key. finite.get (at_of locked.now) key ≡ Some cell.now) }
        ensures none { IfNone result ((key : ℕ) → finite.get (at_of locked.now) key ≡ Some cell.now
            → ⊥) }
    {
        let hash = hash_of(self.seed, cell);
        first_at(locked, self.index.candidates(hash), cell)
    }

    /// Adds a key that the index does not have, with the hash of this cell. If there is not enough
    /// memory, nothing changes.
    pub(crate) fn add(&mut self, key: usize, cell: &Cell) -> Result<(), Memory>
        requires { finite.get self.old.index key ≡ None }
        ensures seed { self.new.seed ≡ self.old.seed }
        ensures ok { OnOk result (self.new.index
            ≡ finite.insert self.old.index key (cell_hash self.old.seed cell.now)) }
        ensures err { OnErr result (self.new.index ≡ self.old.index) }
    {
        let hash = hash_of(self.seed, cell);
        self.index.insert(key, hash)
    }

    /// Removes the key of this cell. Takes no memory.
    pub(crate) fn remove(&mut self, key: usize, cell: &Cell)
        requires { finite.get self.old.index key ≡ Some (cell_hash self.old.seed cell.now) }
        ensures seed { self.new.seed ≡ self.old.seed }
        ensures index { self.new.index ≡ finite.remove self.old.index key }
    {
        let hash = hash_of(self.seed, cell);
        self.index.remove(key, hash);
    }
}

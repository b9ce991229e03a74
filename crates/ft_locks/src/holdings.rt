// The places of owners on cells, found both by cell and by owner.
ghost use Rattle.std.specs.Prelude.{◌≡◌, ◌≢◌, ◌+◌, ◌==◌, ℕ, Bool, cond, true, false, [], ◌∷◌, length, None, Some, IsSome, IfSome, IfNone, IfOk, OnOk, OnErr};
ghost use Rattle.std.specs.Option.{option_map, option_copied};
ghost use Rattle.std.specs.FinMap as finite;
ghost use Rattle.ft_owned_lists.specs.OwnedLists.{list_in, IsOpen};
ghost use Rattle.ft_cells.specs.declared.cell.Cell.{Cell};
ghost use Rattle.ft_cells.specs.CellOrder.{same_cell};
ghost use Rattle.std.specs.List.{list_any};
ghost use Rattle.ft_lock_rules.specs.LockModes.{with_marks};
ghost use Rattle.ft_lock_rules.specs.Cells.{marks_at, after_hand, UpdatesMark};
ghost use Rattle.ft_lock_rules.specs.Holdings.{AreOpenStill, AreSingle, AreUsed, IsDropped, cells_under, has_place, popped};

use crate::bulk_released::BulkReleased;
use crate::cells::LockedCells;
use ft_base::Memory;
use ft_lock_rules::{CellLocks, LockKind, LockLine, LockModes};
use ft_owned_lists::{OwnedLists, Values};
use ft_posix::Access;
use ft_tree::Cell;
use std::alloc::Global;
use std::marker::Model;

/// The places of owners on cells, with the locks of each.
///
/// A cell's owners are found by its hash. An owner's cells are found by its list, which has their
/// keys. A change to one owner takes the time of its own places only, and hashes none of them.
#[derive(Drop)]
pub(crate) struct Holdings {
    cells: LockedCells,
    chains: OwnedLists<usize>,
}

impl Model for Holdings {
    ghost use Rattle.ft_lock_rules.specs.Holdings.{Held, coded_held, AreJoined, lists_under};

    ghost Value = { Held };

    ghost coded = { coded_held };

    ghost view = { λ a. record { cells = a.cells.cells; lists = lists_under a.cells.at a.chains } };

    ghost invariant = { λ a. AreJoined a.cells a.chains };
}

/// The result of removing an owner's place.
#[derive(Drop)]
pub(crate) struct Dropped {
    /// The cell of the place, if no owner has a place there now.
    pub(crate) freed: Option<Cell>,
}

/// Removes the newest place of an owner's list, if there is one.
fn discard_front(chains: &mut OwnedLists<usize>, owner: u64)
    ensures { chains.new ≡ popped chains.old owner }
{
    let _ = chains.pop_front(owner);
}

/// Hands the places of an owner to another. These are the keys of all cells on which it has places.
fn hand_all(cells: &mut LockedCells, keys: Values<'_, usize>, from: u64, to: u64)
    requires used { AreUsed cells.old.at keys }
    requires single { AreSingle (cells_under cells.old.at keys) }
    requires listed { (c : Cell)
        → list_any (same_cell c) (cells_under cells.old.at keys)
        ≡ has_place cells.old.cells c from }
    requires apart { from ≢ to }
    ensures marks { (c : Cell) (u : ℕ)
        → marks_at cells.new.cells c u ≡ after_hand from to (marks_at cells.old.cells c) u }
    ensures at { cells.new.at ≡ cells.old.at }
{
    for key in keys {
        cells.hand_over(*key, from, to);
    }
}

impl Holdings {
    ghost use Rattle.ft_lock_rules.specs.Listing.{AreAdded, once};
    ghost use Rattle.ft_lock_rules.specs.Seen.{has_line, is_kept_at};
    ghost use Rattle.ft_lock_rules.specs.Surveys.{HoldsAll};
    ghost use Rattle.ft_locks.specs.Giving.{KeepsOtherLines, AddsPlaces, AddsLinesAtPlaces};
    ghost use Rattle.ft_locks.specs.BulkReleased.{left_in, is_left};
    ghost use Rattle.ft_lock_rules.specs.Holdings.{after_back};

    /// Returns a table without owners and places. Takes no memory.
    pub(crate) fn new(alloc: Global) -> Holdings
        ensures cells { result.cells ≡ finite.empty }
        ensures lists { result.lists ≡ finite.empty }
    {
        Holdings {
            cells: LockedCells::new(alloc),
            chains: OwnedLists::new(alloc),
        }
    }

    /// Sets the seed for the hashes of cells if no owner has a place. Callers see no difference.
    pub(crate) fn seed(&mut self, seed: u64)
        ensures { self.new ≡ self.old }
    {
        self.cells.seed(seed);
    }

    /// Returns whether an owner is open.
    pub(crate) fn is_open(&self, owner: u64) -> bool
        ensures { result ≡ finite.contains_key self.now.lists owner }
    {
        self.chains.is_open(owner)
    }

    /// Opens an owner. If it is already open, it stays open. If there is not enough memory, nothing
    /// changes.
    pub(crate) fn open(&mut self, owner: u64) -> Result<(), Memory>
        ensures cells { self.new.cells ≡ self.old.cells }
        ensures ok { OnOk result (self.new.lists
            ≡ finite.insert self.old.lists owner (list_in self.old.lists owner)) }
        ensures err { OnErr result (self.new ≡ self.old) }
    {
        self.chains.open(owner)
    }

    /// Opens owner 0, the owner of the released cells, which is not open yet. Takes no memory.
    pub(crate) fn open_zero(&mut self)
        requires { finite.contains_key self.old.lists 0 ≡ false }
        ensures cells { self.new.cells ≡ self.old.cells }
        ensures lists { self.new.lists ≡ finite.insert self.old.lists 0 (list_in self.old.lists 0) }
    {
        self.chains.open_zero();
    }

    /// Closes an owner that has no place. Takes no memory.
    pub(crate) fn close(&mut self, owner: u64)
        requires { list_in self.old.lists owner ≡ [] }
        ensures cells { self.new.cells ≡ self.old.cells }
        ensures lists { self.new.lists ≡ finite.remove self.old.lists owner }
    {
        self.chains.close(owner);
    }

    /// Returns the holders of a cell, if there are any.
    pub(crate) fn holders(&self, cell: &Cell) -> Option<&CellLocks>
        ensures { option_copied result ≡ finite.get self.now.cells cell.now }
    {
        self.cells.get(cell)
    }

    /// Returns whether an owner has no place.
    pub(crate) fn is_bare(&self, owner: u64) -> bool
        ensures { result ≡ true → (c : Cell) → marks_at self.now.cells c owner ≡ None }
    {
        self.chains.is_empty(owner)
    }

    /// Returns the cells on which any owner has a place.
    pub(crate) fn cells(&self) -> &LockedCells
        ensures { result.now.cells ≡ self.now.cells }
    {
        &self.cells
    }

    /// Lists all locks, each once.
    pub(crate) fn list(&self, lines: &mut Vec<LockLine>) -> Result<(), Memory>
        ensures { OnOk result (AreAdded lines.old.items
            lines.new.items (λ l. once (has_line self.now.cells l))) }
    {
        self.cells.list(lines)
    }

    /// Gives an owner a place on a cell, with these locks, in front of its others. If it already
    /// has a place there, nothing changes and its locks are returned. If there is not enough
    /// memory, nothing changes.
    pub(crate) fn place(
        &mut self,
        owner: u64,
        cell: &Cell,
        marks: LockModes,
    ) -> Result<Option<LockModes>, Memory>
        requires { IsOpen self.old.lists owner }
        ensures had { IfOk result (λ had. had ≡ marks_at self.old.cells cell.now owner) }
        ensures placed { IfOk result
            (λ had. had ≡ None → UpdatesMark self.old.cells self.new.cells
            cell.now owner (λ _. Some marks)) }
        ensures list { IfOk result
            (λ had. had ≡ None → self.new.lists
            ≡ finite.insert self.old.lists owner (cell.now ∷ list_in self.old.lists owner)) }
        ensures kept { IfOk result (λ had. IsSome had → self.new ≡ self.old) }
        ensures err { OnErr result ((c : Cell) (u : ℕ)
            → marks_at self.new.cells c u ≡ marks_at self.old.cells c u) }
        ensures lists { OnErr result (self.new.lists ≡ self.old.lists) }
    {
        let place = self.cells.place(cell, owner, marks)?;
        if place.had.is_some() {
            return Ok(place.had);
        }
        if self.chains.push_front(owner, place.key).is_err() {
            self.cells.take_out(place.key, owner);
            return Err(Memory);
        }
        Ok(None)
    }

    /// Adds these locks to those of an owner that has a place on a cell. Takes no memory.
    pub(crate) fn mark(&mut self, owner: u64, cell: &Cell, marks: LockModes)
        ensures marks { UpdatesMark self.old.cells self.new.cells
            cell.now owner (option_map (λ own. with_marks own marks)) }
        ensures lists { self.new.lists ≡ self.old.lists }
    {
        self.cells.mark(cell, owner, marks);
    }

    /// Removes the newest place of an owner, if it has one. Takes no memory.
    pub(crate) fn drop_front(&mut self, owner: u64) -> Option<Dropped>
        ensures none { IfNone result (((c : Cell) → marks_at self.old.cells c owner ≡ None)
            × (self.new ≡ self.old)) }
        ensures dropped { IfSome result
            (λ dropped. IsDropped self.old self.new owner dropped.freed) }
    {
        let key = self.chains.pop_front(owner)?;
        let freed = self.cells.take_out(key, owner);
        Some(Dropped { freed })
    }

    /// Hands the newest place of an owner to another, and returns whether there was one. Takes no
    /// memory.
    pub(crate) fn hand_front(&mut self, from: u64, to: u64) -> bool
        requires open { IsOpen self.old.lists to }
        requires apart { from ≢ to }
        ensures done { result ≡ false → list_in self.old.lists from ≡ [] }
        ensures gone { result ≡ false → (c : Cell) → marks_at self.old.cells c from ≡ None }
        ensures fewer { result ≡ true
            → length (list_in self.old.lists from) ≡ length (list_in self.new.lists from) + 1 }
        ensures marks { (c : Cell) (u : ℕ)
            → after_hand from to (marks_at self.new.cells c) u
            ≡ after_hand from to (marks_at self.old.cells c) u }
        ensures still { AreOpenStill self.old.lists self.new.lists }
        ensures same { result ≡ false → self.new ≡ self.old }
    {
        let Some(key) = self.chains.first(from) else {
            return false;
        };
        if self.cells.hand_over(*key, from, to) {
            discard_front(&mut self.chains, from);
        } else {
            self.chains.move_front(from, to);
        }
        true
    }

    /// Hands each place of an owner to another that has none, and moves the whole list at once.
    /// Takes no memory.
    fn hand_whole(&mut self, from: u64, to: u64)
        requires there { IsOpen self.old.lists from }
        requires open { IsOpen self.old.lists to }
        requires none { list_in self.old.lists to ≡ [] }
        requires apart { from ≢ to }
        ensures marks { (c : Cell) (u : ℕ)
            → marks_at self.new.cells c u ≡ after_hand from to (marks_at self.old.cells c) u }
        ensures list { list_in self.new.lists from ≡ [] }
        ensures still { AreOpenStill self.old.lists self.new.lists }
    {
        hand_all(&mut self.cells, self.chains.values(from), from, to);
        self.chains.splice(from, to);
    }

    /// Hands each place of an owner to another. If the other has no place yet, the lists are not
    /// changed place by place. Takes no memory.
    pub(crate) fn hand_over(&mut self, from: u64, to: u64)
        requires there { IsOpen self.old.lists from }
        requires open { IsOpen self.old.lists to }
        requires apart { from ≢ to }
        ensures marks { (c : Cell) (u : ℕ)
            → marks_at self.new.cells c u ≡ after_hand from to (marks_at self.old.cells c) u }
        ensures list { list_in self.new.lists from ≡ [] }
        ensures still { AreOpenStill self.old.lists self.new.lists }
    {
        if self.chains.is_empty(to) {
            self.hand_whole(from, to);
            return;
        }
        while self.hand_front(from, to) {}
    }

    /// Moves all cells to `bulk` at once and returns true, if no other owner has a place and no key
    /// below the greatest is free. Otherwise it returns false and changes nothing. Takes no memory.
    pub(crate) fn give_up(&mut self, owner: u64, bulk: &mut BulkReleased) -> bool
        requires { IsOpen self.old.lists owner }
        ensures alone { result ≡ true → (c : Cell) (u : ℕ) → (u == owner) ≡ false
            → marks_at self.old.cells c u ≡ None }
        ensures single { result ≡ true → (all : Bool) → AreSingle (left_in all bulk.new) }
        ensures given { result ≡ true → (all : Bool) (c : Cell)
            → is_left all bulk.new c ≡ is_kept_at all self.old.cells c }
        ensures cells { result ≡ true → self.new.cells ≡ finite.empty }
        ensures list { result ≡ true → list_in self.new.lists owner ≡ [] }
        ensures still { AreOpenStill self.old.lists self.new.lists }
        ensures kept { result ≡ false → (self.new ≡ self.old) × (bulk.new ≡ bulk.old) }
    {
        let Some(end) = self.cells.end_if_all_of(owner) else {
            return false;
        };
        self.chains.clear(owner);
        self.cells.give_up(bulk, end);
        true
    }

    /// Removes the `count` newest places of an owner, or all if it has fewer. Takes no memory.
    fn take_back(&mut self, owner: u64, mut count: usize)
        ensures marks { (c : Cell) (u : ℕ)
            → marks_at self.new.cells c u
            ≡ after_back count owner self.old.cells self.old.lists c u }
        ensures still { AreOpenStill self.old.lists self.new.lists }
    {
        while count > 0 {
            self.drop_front(owner);
            count -= 1;
        }
    }

    /// Gives an owner a place on each cell that is accessed, with the lock of the access if it had
    /// no place there.
    ///
    /// Returns whether it now has all these locks: one may still be missing on a cell on which it
    /// already had a place. If there is not enough memory, nothing changes.
    pub(crate) fn reserve(&mut self, owner: u64, accesses: &[Access]) -> Result<bool, Memory>
        requires { IsOpen self.old.lists owner }
        ensures lines { OnOk result
            (KeepsOtherLines self.old.cells self.new.cells owner accesses.now) }
        ensures all { IfOk result
            (λ has_all. has_all ≡ true → HoldsAll self.new.cells owner accesses.now) }
        ensures places { OnOk result
            (AddsPlaces self.old.cells self.new.cells owner accesses.now) }
        ensures err { OnErr result ((c : Cell) (u : ℕ)
            → marks_at self.new.cells c u ≡ marks_at self.old.cells c u) }
        ensures still { AreOpenStill self.old.lists self.new.lists }
    {
        let mut has_all = true;
        let mut made = 0;
        for access in accesses {
            let had = match self.place(owner, &access.cell, LockModes::held(access.mode)) {
                Ok(had) => had,
                Err(refused) => {
                    self.take_back(owner, made);
                    return Err(refused);
                }
            };
            if let Some(own) = had {
                has_all &= own.has(access.mode, LockKind::Held);
                continue;
            }
            made += 1;
        }
        Ok(has_all)
    }

    /// Gives an owner the locks of these accesses on all cells on which it has a place. Takes no
    /// memory.
    pub(crate) fn mark_all(&mut self, owner: u64, accesses: &[Access])
        ensures lines { AddsLinesAtPlaces self.old.cells self.new.cells owner accesses.now }
        ensures places { (c : Cell) (u : ℕ)
            → has_place self.new.cells c u ≡ has_place self.old.cells c u }
        ensures lists { self.new.lists ≡ self.old.lists }
    {
        for access in accesses {
            self.mark(owner, &access.cell, LockModes::held(access.mode));
        }
    }
}

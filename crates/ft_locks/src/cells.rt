// The cells on which any owner has a place. A slab stores the cells, and an index has their keys.
ghost use Rattle.std.specs.Prelude.{◌≡◌, ◌≢◌, ℕ, Bool, cond, ◌==◌, true, false, None, Some, IsSome, IsSomeAnd, is_some, OnOk, OnErr, OnSome, IfOk, IfSome, IfNone, ◌<◌};
ghost use Rattle.std.specs.Option.{option_map, option_copied, option_copied_mut};
ghost use Rattle.std.specs.FinMap as finite;
ghost use Rattle.std.specs.Borrow.{sem};
ghost use Rattle.ft_cells.specs.declared.cell.Cell.{Cell};
ghost use Rattle.ft_cells.specs.declared.cell.Cell.TheVariants.{Names};
ghost use Rattle.std.specs.List.{list_any};
ghost use Rattle.ft_posix.specs.Posix.{file_of};
ghost use Rattle.ft_lock_rules.specs.LockModes.{with_marks};
ghost use Rattle.slab.specs.Slab.{get};
ghost use Rattle.ft_lock_rules.specs.Blocking.{AreEntriesOf};
ghost use Rattle.ft_locks.specs.Hashes.{cell_hash};
ghost use Rattle.ft_locks.specs.EntryKeys.{key_at, listed_keys, spot_of, is_spot, UpdatesKeys};
ghost use Rattle.ft_locks.specs.Slots.{ArePlaced, HaveGap, ShowSame, with_place, is_names};
ghost use Rattle.ft_lock_rules.specs.Cells.{marks_at, passed_to, holders_under, Keeps, UpdatesMark, HandsPlace};
ghost use Rattle.ft_lock_rules.specs.Holdings.{AreSingle};
ghost use Rattle.ft_lock_rules.specs.Listing.{AreAdded, once};
ghost use Rattle.ft_lock_rules.specs.Seen.{has_line, empties, keeps_of, is_kept_among, is_kept_at};
ghost use Rattle.ft_locks.specs.BulkReleased.{left_in, is_left, IsAllOf};

use crate::bulk_released::BulkReleased;
use crate::cell_index::CellIndex;
use crate::entry_keys::EntryKeys;
use crate::listing::list_cells;
use ft_base::Memory;
use ft_lock_rules::{CellLocks, LockLine, LockModes, OwnerLocks};
use ft_posix::Mode;
use ft_tree::Cell;
use slab::Slab;
use std::alloc::Global;
use std::marker::Model;

/// A cell in the table with its holders.
#[derive(Drop)]
pub(crate) struct Locked {
    pub(crate) cell: Cell,
    pub(crate) holders: CellLocks,
    /// The place of its key in its directory's list, if the cell is an entry.
    pub(crate) place: usize,
}

/// The holders of each cell in the table.
///
/// A cell keeps its key from when it enters the table until it leaves. With the key it is found
/// without its hash. To find a cell itself takes the time to hash it, however many cells there are.
/// The entries of a directory are found by their keys, without a look at other cells.
#[derive(Drop)]
pub(crate) struct LockedCells {
    alloc: Global,
    locked: Slab<Locked>,
    index: CellIndex,
    entries: EntryKeys,
    /// Whether the names of a directory came into the table since it was last empty. (A count would
    /// have to be kept at each removal.)
    has_names: bool,
}

impl Model for LockedCells {
    ghost use Rattle.ft_lock_rules.specs.Cells.{Keyed, coded_keyed};
    ghost use Rattle.ft_locks.specs.Slots.{keyed_of, AreKept};

    ghost Value = { Keyed };

    ghost coded = { coded_keyed };

    ghost view = { λ a. keyed_of a.locked };

    ghost invariant = { λ a. AreKept a.locked a.index.index a.index.seed a.entries.keys
        a.has_names };
}

/// A place of an owner on a cell.
#[derive(Drop)]
pub(crate) struct Place {
    /// The key of the cell.
    pub(crate) key: usize,
    /// The locks that the owner had there, if it already had the place.
    pub(crate) had: Option<LockModes>,
}

/// The owner of the places on released cells. Transactions have numbers from 1 on.
pub(crate) const RELEASED: u64 = 0;

/// Returns the locks that the next owner of a place gets: none if the cell is released, else the
/// same ones, retained.
fn handed_to(to: u64, marks: LockModes) -> LockModes
    ensures { result ≡ passed_to to marks }
{
    if to == RELEASED {
        LockModes::none()
    } else {
        marks.as_retained()
    }
}

/// Returns whether a cell is of a file.
fn is_of_file(cell: &Cell) -> bool
    ensures { result ≡ is_some (file_of cell.now) }
{
    matches!(
        cell,
        Cell::Links(_) | Cell::Bytes(_) | Cell::FileAttributes(_)
    )
}

/// Returns whether an owner with these locks may have emptied the place of a cell: by a lock to
/// write or, if the cell is of a file, by any lock. (The last close of a file only reads its
/// links.)
fn may_empty(cell: &Cell, marks: LockModes) -> bool
    ensures { result ≡ empties cell.now marks }
{
    marks.conflicts_with(Mode::Read) || (is_of_file(cell) && marks.is_some())
}

/// Returns whether one of these locks keeps a cell from a sweep: any lock if `all`, and otherwise
/// one by which the cell's place may have been emptied.
fn keeps(cell: &Cell, marks: LockModes, all: bool) -> bool
    ensures { result ≡ keeps_of all cell.now (Some marks) }
{
    if all {
        return marks.is_some();
    }
    may_empty(cell, marks)
}

/// Returns whether the locks of some owner in a list keep a cell from a sweep.
fn is_kept_in(cell: &Cell, list: &[OwnerLocks], all: bool) -> bool
    ensures { result ≡ list_any (λ h. keeps_of all cell.now (Some h.marks)) list.now }
{
    list.iter().any(|holding| keeps(cell, holding.marks, all))
}

/// Returns whether the locks of some owner of a cell keep the cell from a sweep.
pub(crate) fn is_kept_among(cell: &Cell, holders: &CellLocks, all: bool) -> bool
    ensures { result ≡ is_kept_among all cell.now holders.now }
{
    is_kept_in(cell, holders.as_slice(), all)
}

/// Returns whether a cell is the names of a directory.
fn is_names(cell: &Cell) -> bool
    ensures { result ≡ is_names cell.now }
{
    matches!(cell, Cell::Names(_))
}

/// Sets the place that the cell under a key keeps, if there is one.
fn set_place(slab: &mut Slab<Locked>, key: usize, place: usize)
    ensures { (k : ℕ) → get slab.new k
        ≡ cond (k == key) (with_place place (get slab.old k)) (get slab.old k) }
{
    if let Some(locked) = slab.get_mut(key) {
        locked.place = place;
    }
}

/// Removes a key from a directory's list. If another key moves into the gap, its cell gets the
/// place.
fn close_gap(locked: &mut Slab<Locked>, entries: &mut EntryKeys, dir: u64, place: usize)
    requires there { IsSome (key_at entries.old.keys dir place) }
    requires gap { HaveGap (get locked.old) entries.old.keys dir place }
    ensures placed { ArePlaced (get locked.new) entries.new.keys }
    ensures same { ShowSame (get locked.old) (get locked.new) }
{
    if let Some(moved) = entries.remove(dir, place) {
        set_place(locked, moved, place);
    }
}

/// Adds the key of a cell to the index and to its directory's list, and returns its place there. If
/// there is not enough memory, nothing changes.
fn note_key(
    index: &mut CellIndex,
    entries: &mut EntryKeys,
    key: usize,
    cell: &Cell,
) -> Result<usize, Memory>
    requires { finite.get index.old.index key ≡ None }
    ensures seed { index.new.seed ≡ index.old.seed }
    ensures hashed { OnOk result (index.new.index
        ≡ finite.insert index.old.index key (cell_hash index.old.seed cell.now)) }
    ensures free { IfOk result
        (λ place. (t : ℕ × ℕ) → is_spot (spot_of cell.now place) t ≡ true
        → key_at entries.old.keys t.0 t.1 ≡ None) }
    ensures listed { IfOk result
        (λ place. UpdatesKeys entries.old.keys entries.new.keys (is_spot (spot_of cell.now place))
        (Some key)) }
    ensures index_kept { OnErr result (index.new.index ≡ index.old.index) }
    ensures lists_kept { OnErr result ((t : ℕ × ℕ)
        → key_at entries.new.keys t.0 t.1 ≡ key_at entries.old.keys t.0 t.1) }
{
    index.add(key, cell)?;
    let noted = entries.note(cell, key);
    if noted.is_err() {
        index.remove(key, cell);
    }
    noted
}

/// Returns whether there is a cell under a key on which no owner but this one has a place.
fn is_only_of(locked: &Slab<Locked>, key: usize, owner: u64) -> bool
    ensures { result ≡ true → IsSomeAnd
        (get locked.now key) (λ there. IsAllOf owner there.holders) }
{
    match locked.get(key) {
        Some(there) => there.holders.is_last(owner),
        None => false,
    }
}

/// Returns whether there is such a cell under each of the first `count` keys: no owner but this one
/// has a place on it.
fn are_only_of(locked: &Slab<Locked>, count: usize, owner: u64) -> bool
    ensures { result ≡ true → (k : ℕ) → k < count
        → IsSomeAnd (get locked.now k) (λ there. IsAllOf owner there.holders) }
{
    for key in 0..count {
        if !is_only_of(locked, key, owner) {
            return false;
        }
    }
    true
}

impl LockedCells {
    ghost use Rattle.ft_locks.specs.Lending.{LendsHolders};

    /// Returns a table without cells. Takes no memory.
    pub(crate) fn new(alloc: Global) -> LockedCells
        ensures cells { result.cells ≡ finite.empty }
        ensures at { result.at ≡ finite.empty }
    {
        LockedCells {
            alloc,
            locked: Slab::new(alloc),
            index: CellIndex::new(alloc),
            entries: EntryKeys::new(alloc),
            has_names: false,
        }
    }

    /// Sets the seed for the hashes of cells if the table is empty. Callers see no difference.
    pub(crate) fn seed(&mut self, seed: u64)
        ensures { self.new ≡ self.old }
    {
        if self.locked.is_empty() {
            self.index.seed = seed;
        }
    }

    /// Returns the key of a cell, if it is in the table.
    fn key_of(&self, cell: &Cell) -> Option<usize>
        ensures at { IfSome result (λ key. finite.get self.now.at key ≡ Some cell.now) }
        ensures there { is_some result ≡ finite.contains_key self.now.cells cell.now }
    {
        if self.locked.is_empty() {
            return None;
        }
        self.index.find(&self.locked, cell)
    }

    /// Returns the holders of the cell under a key, if there is one.
    pub(crate) fn under(&self, key: usize) -> Option<&CellLocks>
        ensures { option_copied result ≡ holders_under self.now key }
    {
        let locked = self.locked.get(key)?;
        Some(&locked.holders)
    }

    /// Returns the holders of a cell, if it is in the table.
    pub(crate) fn get(&self, cell: &Cell) -> Option<&CellLocks>
        ensures { option_copied result ≡ finite.get self.now.cells cell.now }
    {
        let key = self.key_of(cell)?;
        self.under(key)
    }

    /// Returns the keys of a directory's entries that are in the table, if there are any.
    pub(crate) fn entries_of(&self, dir: u64) -> Option<&Vec<usize>>
        ensures { AreEntriesOf self.now dir (listed_keys (option_copied result)) }
    {
        self.entries.of(dir)
    }

    /// Returns whether the names of some directory may be in the table. If they are not, an access
    /// to an entry need not look for them.
    pub(crate) fn may_have_names(&self) -> bool
        ensures { result ≡ false → (d : ℕ) → finite.get self.now.cells (Names d) ≡ None }
    {
        self.has_names
    }

    /// Lists the locks on all cells, each once.
    pub(crate) fn list(&self, lines: &mut Vec<LockLine>) -> Result<(), Memory>
        ensures { OnOk result (AreAdded lines.old.items
            lines.new.items (λ l. once (has_line self.now.cells l))) }
    {
        list_cells(lines, &self.locked)
    }

    /// Gives an owner a place on a cell, with these locks, if it has none there. Returns the place
    /// and the locks that the owner already had there. If there is not enough memory, nothing
    /// changes.
    pub(crate) fn place(
        &mut self,
        cell: &Cell,
        owner: u64,
        marks: LockModes,
    ) -> Result<Place, Memory>
        ensures key { IfOk result (λ place. finite.get self.new.at place.key ≡ Some cell.now) }
        ensures had { IfOk result (λ place. place.had ≡ marks_at self.old.cells cell.now owner) }
        ensures placed { IfOk result
            (λ place. place.had ≡ None
            → UpdatesMark self.old.cells self.new.cells cell.now owner (λ _. Some marks)) }
        ensures kept { IfOk result (λ place. IsSome place.had → self.new ≡ self.old) }
        ensures others { OnOk result ((k : ℕ) → IsSome (finite.get self.old.at k)
            → finite.get self.new.at k ≡ finite.get self.old.at k) }
        ensures err { OnErr result (self.new ≡ self.old) }
    {
        if let Some(key) = self.key_of(cell) {
            let holders = self.get_mut(key).unwrap();
            let had = holders.place(owner, marks)?;
            return Ok(Place { key, had });
        }
        let mut holders = CellLocks::new(self.alloc);
        holders.add(owner, marks)?;
        let key = self.insert(cell, holders)?;
        Ok(Place { key, had: None })
    }

    /// Adds these locks to those of an owner that has a place on a cell. Takes no memory.
    pub(crate) fn mark(&mut self, cell: &Cell, owner: u64, marks: LockModes)
        ensures marks { UpdatesMark self.old.cells self.new.cells
            cell.now owner (option_map (λ own. with_marks own marks)) }
        ensures at { self.new.at ≡ self.old.at }
    {
        if let Some(key) = self.key_of(cell) {
            let holders = self.get_mut(key).unwrap();
            holders.mark(owner, marks);
        }
    }

    /// Hands an owner's place on the cell under a key to another owner. Returns whether the other
    /// already had a place there. Takes no memory.
    pub(crate) fn hand_over(&mut self, key: usize, from: u64, to: u64) -> bool
        requires there { IsSomeAnd
            (finite.get self.old.at key) (λ cell. IsSome (marks_at self.old.cells cell from)) }
        requires apart { from ≢ to }
        ensures merged { IfSome (finite.get self.old.at key) (λ cell. result
            ≡ is_some (marks_at self.old.cells cell to)) }
        ensures after { IfSome (finite.get self.old.at key)
            (λ cell. HandsPlace self.old.cells self.new.cells cell from to) }
        ensures at { self.new.at ≡ self.old.at }
    {
        let holders = self.get_mut(key).unwrap();
        let own = holders.get(from).unwrap();
        holders.hand_over(from, to, handed_to(to, own))
    }

    /// Removes an owner's place on the cell under a key. If it was the last place, the cell leaves
    /// the table and is returned. Takes no memory.
    pub(crate) fn take_out(&mut self, key: usize, owner: u64) -> Option<Cell>
        requires { IsSomeAnd (finite.get self.old.at key) (λ cell. IsSome
            (marks_at self.old.cells cell owner)) }
        ensures cell { IfSome result (λ cell. finite.get self.old.at key ≡ Some cell) }
        ensures after { IfSome (finite.get self.old.at key) (λ cell. UpdatesMark self.old.cells
            self.new.cells cell owner (λ _. None)) }
        ensures gone { IfSome result (λ cell. (u : ℕ) → marks_at self.new.cells cell u ≡ None) }
        ensures more { IfNone result (IfSome (finite.get self.old.at key) (λ cell. (u : ℕ)
            × IsSome (marks_at self.new.cells cell u))) }
        ensures keys { Keeps self.old self.new }
    {
        let holders = self.get_mut(key).unwrap();
        if !holders.is_last(owner) {
            holders.remove(owner);
            return None;
        }
        self.remove(key)
    }

    /// Returns an end above the keys of all cells, if no other owner has a place and no key below
    /// the end is free. Takes at most the time of this owner's own places.
    pub(crate) fn end_if_all_of(&self, owner: u64) -> Option<usize>
        ensures alone { OnSome result ((c : Cell) (u : ℕ) → (u == owner) ≡ false
            → marks_at self.now.cells c u ≡ None) }
        ensures end { IfSome result (λ end. (k : ℕ) → IsSome (finite.get self.now.at k) → k < end) }
    {
        let end = self.locked.len();
        if !are_only_of(&self.locked, end, owner) {
            return None;
        }
        Some(end)
    }

    /// Moves all cells, whose keys are below an end, to `bulk` at once, with their holders. Takes
    /// no memory.
    pub(crate) fn give_up(&mut self, bulk: &mut BulkReleased, end: usize)
        requires { (k : ℕ) → IsSome (finite.get self.old.at k) → k < end }
        ensures single { (all : Bool) → AreSingle (left_in all bulk.new) }
        ensures given { (all : Bool) (c : Cell) → is_left all bulk.new c
            ≡ is_kept_at all self.old.cells c }
        ensures cells { self.new.cells ≡ finite.empty }
        ensures at { self.new.at ≡ finite.empty }
    {
        bulk.fill(&mut self.locked, end);
        self.index.index.clear();
        self.entries.keys.clear();
        self.has_names = false;
    }

    /// Returns the holders of the cell under a key, mutably, if there is one. Takes no memory.
    fn get_mut(&mut self, key: usize) -> Option<&mut CellLocks>
        ensures* writes_back { sem 𝓛 (LendsHolders self.entry key result) }
        ensures value { option_copied_mut result ≡ holders_under self.old key }
    {
        let locked = self.locked.get_mut(key)?;
        Some(&mut locked.holders)
    }

    /// Adds a cell that is not in the table, with its holders, and returns its key. If there is not
    /// enough memory, nothing changes.
    fn insert(&mut self, cell: &Cell, holders: CellLocks) -> Result<usize, Memory>
        requires { finite.get self.old.cells cell.now ≡ None }
        ensures fresh { IfOk result (λ key. finite.get self.old.at key ≡ None) }
        ensures cells { OnOk result (self.new.cells
            ≡ finite.insert self.old.cells cell.now holders) }
        ensures at { IfOk result (λ key. self.new.at ≡ finite.insert self.old.at key cell.now) }
        ensures err { OnErr result (self.new ≡ self.old) }
    {
        let cell = cell.clone()?;
        self.locked.reserve(1)?;
        let key = self.locked.vacant_key();
        let place = note_key(&mut self.index, &mut self.entries, key, &cell)?;
        self.has_names |= is_names(&cell);
        Ok(
            self.locked.insert_reserved(Locked {
                cell,
                holders,
                place,
            }),
        )
    }

    /// Removes the cell under a key from the table and returns it, if there is one. Takes no
    /// memory.
    fn remove(&mut self, key: usize) -> Option<Cell>
        ensures cell { result ≡ finite.get self.old.at key }
        ensures cells { IfSome result (λ cell. self.new.cells ≡ finite.remove self.old.cells cell) }
        ensures at { self.new.at ≡ finite.remove self.old.at key }
    {
        let Locked {
            cell,
            holders: _,
            place,
        } = self.locked.try_remove(key)?;
        self.index.remove(key, &cell);
        self.has_names &= !self.locked.is_empty();
        if let Cell::Entry(entry) = &cell {
            close_gap(&mut self.locked, &mut self.entries, entry.dir, place);
        }
        Some(cell)
    }
}

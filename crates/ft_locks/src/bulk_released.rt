// The cells that were released all at once, until they are reported.
ghost use Rattle.std.specs.Prelude.{◌≡◌, ◌<◌, ◌==◌, ◌&&◌, ℕ, true, false, [], IsSome, IfSome, IfNone};
ghost use Rattle.slab.specs.Slab.{get, entries};
ghost use Rattle.ft_locks.specs.declared.cells.Locked.{Locked as LockedOf};
ghost use Rattle.ft_lock_rules.specs.Holdings.{AreSingle};
ghost use Rattle.ft_lock_rules.specs.Knowing.{is_known};
ghost use Rattle.ft_lock_rules.specs.Locks.{is_released};
ghost use Rattle.ft_lock_rules.specs.Seen.{locks_in};
ghost use Rattle.ft_locks.specs.BulkReleased.{has_keeper, is_unreported, IsUnreportedAt, left_in, with_bulk, IsTaken};

use crate::cells::{Locked, RELEASED, is_kept_among};
use crate::holdings::Holdings;
use ft_tree::Cell;
use slab::Slab;
use std::alloc::Global;
use std::marker::Model;
use std::mem;

/// Cells that were released all at once, with the owners that had places on them. Its model is the
/// list of those that are left.
///
/// They stay in their slab and are passed in the order of their keys. None is hashed, only those
/// that are reported are moved, and all are dropped together.
#[derive(Drop)]
pub(crate) struct BulkReleased {
    cells: Slab<Locked>,
    /// The first key of those that are left.
    next: usize,
    /// An end above the keys of all cells.
    end: usize,
}

impl Model for BulkReleased {
    ghost use Rattle.std.specs.Prelude.{ℕ, List};
    ghost use Rattle.ft_locks.specs.declared.cells.Locked.{Locked as LockedOf};
    ghost use Rattle.std.specs.Coded.{coded_list, coded×, coded_ℕ};
    ghost use Rattle.ft_locks.specs.contracts.cells.Locked as locked;
    ghost use Rattle.ft_locks.specs.BulkReleased.{left_from, EndBefore};

    ghost Value = { List (ℕ × LockedOf) };

    ghost coded = { coded_list (coded× coded_ℕ locked.the_row.coded) };

    ghost view = { λ a. left_from a.next a.cells };

    ghost invariant = { λ a. EndBefore a.cells a.end };
}

/// Returns whether a cell is locked, or was released one by one.
fn is_known(holdings: &Holdings, cell: &Cell) -> bool
    ensures { result ≡ is_known (locks_in holdings.now) cell.now }
{
    match holdings.holders(cell) {
        Some(holders) => holders.is_locked() || holders.get(RELEASED).is_some(),
        None => false,
    }
}

/// Returns whether some owner had a lock that kept a cell from a sweep: any lock if `all`, and
/// otherwise one by which the owner may have emptied the cell's place.
fn has_keeper(bulk: &Locked, all: bool) -> bool
    ensures { result ≡ has_keeper all bulk.now }
{
    is_kept_among(&bulk.cell, &bulk.holders, all)
}

/// Returns whether a cell that was released with others at once is to be reported: a lock kept it
/// from a sweep, it is not locked now, and it was not released one by one.
fn is_unreported(holdings: &Holdings, bulk: &Locked, all: bool) -> bool
    ensures { result ≡ is_unreported all (locks_in holdings.now) bulk.now }
{
    has_keeper(bulk, all) && !is_known(holdings, &bulk.cell)
}

/// Returns the cell under a key, if there is one and it is to be reported, and puts another in its
/// place. Takes no memory.
fn take_cell(cells: &mut Slab<Locked>, key: usize, holdings: &Holdings, all: bool) -> Option<Cell>
    ensures told { IfSome result
        (IsUnreportedAt all (locks_in holdings.now) cells.old key) }
    ensures passed { IfNone result ((l : LockedOf) → get cells.old key ≡ Some l
        → is_unreported all (locks_in holdings.now) l ≡ false) }
    ensures others { (k : ℕ) → (k == key) ≡ false → get cells.new k ≡ get cells.old k }
    ensures still { (k : ℕ) → IsSome (get cells.new k) → IsSome (get cells.old k) }
{
    let locked = cells.get_mut(key)?;
    if !is_unreported(holdings, locked, all) {
        return None;
    }
    Some(mem::replace(&mut locked.cell, Cell::Fd(0)))
}

impl BulkReleased {
    /// Returns a list without cells. Takes no memory.
    pub(crate) fn new(alloc: Global) -> BulkReleased
        ensures { result ≡ [] }
    {
        BulkReleased {
            cells: Slab::new(alloc),
            next: 0,
            end: 0,
        }
    }

    /// Returns whether no cell is left.
    pub(crate) fn is_empty(&self) -> bool
        ensures { result ≡ true → self.now ≡ [] }
    {
        self.next >= self.end
    }

    /// Takes over the cells of a slab, whose keys are below an end, and leaves the slab empty.
    /// Cells that were left from before are dropped. Takes no memory.
    pub(crate) fn fill(&mut self, cells: &mut Slab<Locked>, end: usize)
        requires { (key : ℕ) → IsSome (get cells.old key) → key < end }
        ensures filled { self.new ≡ entries cells.old }
        ensures empty { cells.new.slots ≡ [] }
    {
        self.cells.clear();
        mem::swap(cells, &mut self.cells);
        self.next = 0;
        self.end = end;
    }

    /// Removes the cells up to the first one that is to be reported, and returns that one. If there
    /// is none, all are removed. Takes no memory.
    ///
    /// If `all`, each cell on which some owner had a lock is to be reported. Otherwise only a cell
    /// whose place some owner may have emptied is.
    pub(crate) fn take(&mut self, holdings: &Holdings, all: bool) -> Option<Cell>
        requires { AreSingle (left_in all self.old) }
        ensures single { AreSingle (left_in all self.new) }
        ensures cell { IfSome result
            (λ cell. is_released (with_bulk all self.old (locks_in holdings.now)) cell ≡ true) }
        ensures taken { IfSome result
            (λ cell. IsTaken (with_bulk all self.old (locks_in holdings.now))
            (with_bulk all self.new (locks_in holdings.now)) cell) }
        ensures none { IfNone result ((self.new ≡ [])
            × (with_bulk all self.old (locks_in holdings.now) ≡ locks_in holdings.now)) }
    {
        while self.next < self.end {
            let key = self.next;
            self.next += 1;
            let told = take_cell(&mut self.cells, key, holdings, all);
            if told.is_some() {
                return told;
            }
        }
        None
    }
}

// The cells that a call touches, noted as they are found.
ghost use Rattle.std.specs.Prelude.{◌≡◌, true, false, IfOk, OnOk, OnErr, if◌then◌else◌};
ghost use Rattle.std.specs.FinMap as finite;
ghost use Rattle.ft_cells.specs.Entries.{entry_in};
ghost use Rattle.ft_cells.specs.CellOrder.{same_cell};
ghost use Rattle.ft_cells.specs.declared.cell.Cell.TheVariants.{Entry};
ghost use Rattle.ft_posix.specs.declared.call.Mode.TheVariants.{Read as ReadMode, Write as WriteMode};
ghost use Rattle.ft_posix.specs.Accesses.{listed, place_in, is_noted, AreInOrder};
ghost use Rattle.ft_looks.specs.Notes.{notes_of, AreInOrderIf};

use ft_base::Memory;
use ft_posix::{Access, Mode};
use ft_tree::{Cell, EntryRef};
use std::alloc::Global;
use std::cmp::Ordering;
use std::marker::Model;

/// The greatest number of accesses that are moved to put another before them.
const NEAR: usize = 8;

/// The cells that a call reads and writes, each once. A cell that is read and then written counts
/// as written.
///
/// Most cells come in about the order of cells, so the accesses are kept in that order. A cell is
/// searched for at the end, and then by halves. If a new cell belongs far before the end, the order
/// is given up. From then on each access is pushed, and they are sorted when all are known.
///
/// Noting a cell costs at most the logarithm of the number of noted cells, in whatever order cells
/// come. After the order was given up, a cell that is noted again takes room again. A call reads
/// before it writes, so a read is never noted after a write of the same cell.
#[derive(Drop)]
pub(crate) struct AccessSet {
    list: Vec<Access>,
    /// Whether the list has each cell once, in the order of cells.
    is_in_order: bool,
}

impl Model for AccessSet {
    ghost use Rattle.std.specs.FinMap as finite;
    ghost use Rattle.ft_cells.specs.contracts.cell.Cell as cell;
    ghost use Rattle.ft_posix.specs.contracts.call.Mode as mode;
    ghost use Rattle.ft_posix.specs.Accesses.{Modes};
    ghost use Rattle.ft_looks.specs.Notes.{notes_of, AreInOrderIf};

    ghost Value = { Modes };

    ghost coded = { finite.code cell.the_row.coded mode.the_row.coded };

    ghost view = { λ a. notes_of a.list.items };

    ghost invariant = { λ a. AreInOrderIf a.is_in_order a.list.items };
}

impl AccessSet {
    /// Returns an empty set. Takes no memory.
    pub(crate) fn new(alloc: Global) -> AccessSet
        ensures { result ≡ finite.empty }
    {
        AccessSet {
            list: Vec::new(alloc),
            is_in_order: true,
        }
    }

    /// Notes that a cell is looked at.
    pub(crate) fn read(&mut self, cell: Cell) -> Result<(), Memory>
        ensures noted { OnOk result (self.new ≡ finite.insert self.old cell ReadMode) }
        ensures wanting { OnErr result (self.new ≡ self.old) }
    {
        self.note(cell, Mode::Read)
    }

    /// Notes that an entry is looked at.
    pub(crate) fn read_entry(&mut self, entry: EntryRef<'_>) -> Result<(), Memory>
        ensures noted { OnOk result (self.new
            ≡ finite.insert self.old (Entry (entry_in entry.entry)) ReadMode) }
        ensures wanting { OnErr result (self.new ≡ self.old) }
    {
        self.note(entry, Mode::Read)
    }

    /// Notes that a cell is given a value.
    pub(crate) fn write(&mut self, cell: Cell) -> Result<(), Memory>
        ensures { OnOk result (self.new ≡ finite.insert self.old cell WriteMode) }
    {
        self.note(cell, Mode::Write)
    }

    /// Notes that an entry is given a value.
    pub(crate) fn write_entry(&mut self, entry: EntryRef<'_>) -> Result<(), Memory>
        ensures { OnOk result (self.new
            ≡ finite.insert self.old (Entry (entry_in entry.entry)) WriteMode) }
    {
        self.note(entry, Mode::Write)
    }

    /// Returns the accesses, in the order of their cells. Takes memory only if that order was given
    /// up.
    pub(crate) fn into_accesses(self) -> Result<Vec<Access>, Memory>
        ensures { IfOk result (λ list. list.items ≡ listed self) }
    {
        let Self {
            mut list,
            is_in_order,
        } = self;
        if is_in_order {
            return Ok(list);
        }
        list.sort_by(|one, other| one.cell.cmp(&other.cell))?;
        list.dedup_by(merge);
        Ok(list)
    }

    /// Notes how a cell is touched. If there is not enough memory, nothing has changed.
    fn note<T: Touch>(&mut self, touched: T, mode: Mode) -> Result<(), Memory>
        ensures noted { OnOk result (self.new ≡ finite.insert self.old (T.cell touched) mode) }
        ensures wanting { OnErr result (self.new ≡ self.old) }
    {
        if !self.is_in_order {
            let cell = touched.into_cell()?;
            self.list.push(Access { cell, mode })?;
            return Ok(());
        }
        let (at, is_noted) = place_of(self.list.as_slice(), &touched);
        if is_noted {
            self.list[at].mode = mode;
            return Ok(());
        }
        let cell = touched.into_cell()?;
        put(
            &mut self.list,
            &mut self.is_in_order,
            at,
            Access { cell, mode },
        )
    }
}

/// A cell that is touched: the cell itself, or an entry whose name is borrowed. The name is copied
/// only if the cell is put into the list.
trait Touch: Drop {
    ghost use Rattle.std.specs.Prelude.{◌≡◌, IfOk};
    ghost use Rattle.ft_cells.specs.declared.cell.Cell.{Cell};
    ghost use Rattle.ft_cells.specs.CellOrder.{cell_cmp};

    /// The cell that is touched.
    ghost cell: { Self → Cell };

    /// Returns how the cell compares to another in the order of cells.
    fn cmp_cell(&self, other: &Cell) -> Ordering
        ensures { result ≡ cell_cmp (cell self.now) other.now };

    /// Returns the cell. Only the cell of an entry takes memory, for its name.
    fn into_cell(self) -> Result<Cell, Memory>
        ensures { IfOk result (λ own. own ≡ cell self) };
}

impl Touch for Cell {
    ghost cell = { λ own. own };

    fn cmp_cell(&self, other: &Cell) -> Ordering {
        self.cmp(other)
    }

    fn into_cell(self) -> Result<Cell, Memory> {
        Ok(self)
    }
}

impl Touch for EntryRef<'_> {
    ghost use Rattle.ft_cells.specs.Entries.{entry_in};
    ghost use Rattle.ft_cells.specs.declared.cell.Cell.TheVariants.{Entry};

    ghost cell = { λ entry. Entry (entry_in entry) };

    fn cmp_cell(&self, other: &Cell) -> Ordering {
        other.cmp_entry(*self)
    }

    fn into_cell(self) -> Result<Cell, Memory> {
        Ok(Cell::Entry(self.to_entry()?))
    }
}

/// Returns whether an access is to the same cell as the kept one before it. If so, the kept one
/// gets its mode.
fn merge(later: &mut Access, kept: &mut Access) -> bool
    ensures same { result ≡ same_cell later.old.cell kept.old.cell }
    ensures kept { kept.new ≡ (if result then record {
      cell = kept.old.cell;
      mode = later.old.mode;
    } else kept.old) }
    ensures later { later.new ≡ later.old }
{
    let is_same = later.cell == kept.cell;
    if is_same {
        kept.mode = later.mode;
    }
    is_same
}

/// Returns how many accesses come before a cell's, and whether the cell has an access. Most cells
/// come after all others, so the end is tried first. Any other place is found by halves.
fn place_of<T: Touch>(list: &[Access], touched: &T) -> (usize, bool)
    requires { AreInOrder list.now }
    ensures place { result.0 ≡ place_in (T.cell touched.now) list.now }
    ensures noted { result.1 ≡ is_noted (T.cell touched.now) list.now }
{
    let mut from = 0;
    let mut to = list.len();
    let mut at = to.saturating_sub(1);
    while from < to {
        match touched.cmp_cell(&list[at].cell) {
            Ordering::Less => to = at,
            Ordering::Equal => return (at, true),
            Ordering::Greater => from = at + 1,
        }
        at = from + (to - from) / 2;
    }
    (from, false)
}

/// Puts an access into a list in order that has none to its cell, after `at` other accesses. If it
/// belongs far before the end, it is pushed, and the order is given up.
// (inline, since an access is large, and would be moved once more)
#[inline(always)]
fn put(
    list: &mut Vec<Access>,
    is_in_order: &mut bool,
    at: usize,
    access: Access,
) -> Result<(), Memory>
    requires said { is_in_order.old ≡ true }
    requires order { AreInOrder list.old.items }
    requires place { at ≡ place_in access.cell list.old.items }
    requires missing { is_noted access.cell list.old.items ≡ false }
    ensures order { AreInOrderIf is_in_order.new list.new.items }
    ensures noted { OnOk result (notes_of list.new.items
        ≡ finite.insert (notes_of list.old.items) access.cell access.mode) }
    ensures wanting { OnErr result (list.new.items ≡ list.old.items) }
{
    let behind = list.len() - at;
    if behind == 0 {
        list.push(access)?;
    } else if behind <= NEAR {
        list.insert(at, access)?;
    } else {
        list.push(access)?;
        *is_in_order = false;
    }
    Ok(())
}

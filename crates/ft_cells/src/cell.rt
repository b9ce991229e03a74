ghost use Rattle.std.specs.Prelude.{◌≡◌, ◌++◌, ◌∷◌, [], Some, refl};
ghost use Rattle.std.proofs.Common.{ap};
ghost use Rattle.std.specs.Hash as fed;
ghost use Rattle.std.specs.Ordering.{eq_by_cmp};
ghost use Rattle.std.specs.Cmp.{eq_by_cmp_equiv, partial_equiv_from_equiv, partial_order_from_total};
ghost use Rattle.ft_cells.specs.Entries.{entry_in};
ghost use Rattle.ft_cells.specs.CellOrder.{cell_cmp, cell_cmp_total, cell_rank, cell_number, cell_name, same_cell-is};

use crate::entry::{Entry, EntryRef};
use std::alloc::AllocError;
use std::cmp::Ordering;
use std::hash::{Hash, Hasher};

/// A part of a tree that calls read and write as one. Locks are taken on cells.
///
/// Two cells overlap if they are the same. They also overlap if one is the names of a directory and
/// the other is an entry of that directory.
///
/// Locks are listed in the order of cells: by the kind of cell, in the order below, then by number,
/// and then by name. This order is a rule of this project.
#[derive(Debug, Drop)]
pub enum Cell {
    /// The target of a name in a directory, if the name is an entry.
    Entry(Entry),
    /// All names of a directory, with what they lead to. This cell is read, but it is never written
    /// as a whole.
    Names(u64),
    /// The parent of a directory: the directory that has its entry. The root has none.
    Parent(u64),
    /// The number of entries that name a file.
    Links(u64),
    /// The bytes of a file, and the time of these bytes.
    Bytes(u64),
    /// The open file description of a descriptor.
    Fd(u64),
    /// The mode and the owners of a directory.
    DirAttributes(u64),
    /// The mode and the owners of a file. A symbolic link has none of its own.
    FileAttributes(u64),
}

impl Cell {
    ghost use Rattle.ft_cells.specs.declared.cell.Cell.TheVariants.{Entry as EntryCell};

    /// Returns how the cell of an entry compares to this cell in the order of cells.
    pub fn cmp_entry(&self, entry: EntryRef<'_>) -> Ordering
        ensures { result ≡ cell_cmp (EntryCell (entry_in entry.entry)) self.now }
    {
        match self {
            Cell::Entry(own) => match entry.dir.cmp(&own.dir) {
                Ordering::Equal => entry.name.cmp(&own.name),
                order => order,
            },
            _ => Ordering::Less,
        }
    }

    /// Returns the rank of the kind of this cell in the order of cells.
    fn rank(&self) -> u8
        ensures { result ≡ cell_rank self.now }
    {
        match self {
            Cell::Entry(..) => 0,
            Cell::Names(_) => 1,
            Cell::Parent(_) => 2,
            Cell::Links(_) => 3,
            Cell::Bytes(_) => 4,
            Cell::Fd(_) => 5,
            Cell::DirAttributes(_) => 6,
            Cell::FileAttributes(_) => 7,
        }
    }

    /// Returns the number of the cell: that of its directory, file or descriptor.
    pub fn number(&self) -> u64
        ensures { result ≡ cell_number self.now }
    {
        match self {
            Cell::Entry(entry) => entry.dir,
            Cell::Names(number)
            | Cell::Parent(number)
            | Cell::Links(number)
            | Cell::Bytes(number)
            | Cell::Fd(number)
            | Cell::DirAttributes(number)
            | Cell::FileAttributes(number) => *number,
        }
    }

    /// Returns the bytes of the name if the cell is an entry, or no bytes.
    fn name(&self) -> &[u8]
        ensures { result.now ≡ cell_name self.now }
    {
        match self {
            Cell::Entry(entry) => entry.name.as_bytes(),
            _ => &[],
        }
    }
}

impl PartialEq for Cell {
    ghost eq = { eq_by_cmp cell_cmp };

    ghost laws = { partial_equiv_from_equiv (eq_by_cmp_equiv cell_cmp_total) };

    fn eq(&self, other: &Cell) -> bool {
        match self {
            // Tables look for entries by this comparison. Most names differ in their first bytes,
            // which are compared as one number.
            Cell::Entry(entry) => other.cmp_entry(entry.as_ref()).is_eq(),
            _ => self.cmp(other).is_eq(),
        }
    }
}

impl Eq for Cell {
    ghost laws = { eq_by_cmp_equiv cell_cmp_total };
}

impl PartialOrd for Cell {
    ghost partial_cmp = { λ x y. Some (cell_cmp x y) };

    ghost laws = { partial_order_from_total cell_cmp_total };

    fn partial_cmp(&self, other: &Cell) -> Option<Ordering> {
        Some(self.cmp(other))
    }
}

impl Ord for Cell {
    ghost cmp = { cell_cmp };

    ghost total = { cell_cmp_total };

    ghost matches_partial_cmp = { λ x y. refl };

    ghost matches_eq = { λ x y. refl };

    fn cmp(&self, other: &Cell) -> Ordering {
        match self.rank().cmp(&other.rank()) {
            Ordering::Equal => match self.number().cmp(&other.number()) {
                Ordering::Equal => self.name().cmp(other.name()),
                order => order,
            },
            order => order,
        }
    }
}

impl Clone for Cell {
    ghost is_clone = { λ cell copy. copy ≡ cell };

    fn clone(&self) -> Result<Cell, AllocError> {
        Ok(match self {
            Cell::Entry(entry) => Cell::Entry(entry.clone()?),
            Cell::Names(dir) => Cell::Names(*dir),
            Cell::Parent(dir) => Cell::Parent(*dir),
            Cell::Links(file) => Cell::Links(*file),
            Cell::Bytes(file) => Cell::Bytes(*file),
            Cell::Fd(fd) => Cell::Fd(*fd),
            Cell::DirAttributes(dir) => Cell::DirAttributes(*dir),
            Cell::FileAttributes(file) => Cell::FileAttributes(*file),
        })
    }
}

impl Hash for Cell {
    ghost hash_input = { λ cell. fed.u64 (cell_number cell) ++ fed.u8 (cell_rank cell)
        ++ cell_name cell ∷ [] };

    ghost respects_eq = { λ x y same. ap (λ cell. fed.u64 (cell_number cell)
        ++ fed.u8 (cell_rank cell) ++ cell_name cell ∷ []) (same_cell-is x y same) };

    fn hash<H: Hasher>(&self, state: &mut H) {
        state.write_u64(self.number());
        state.write_u8(self.rank());
        state.write(self.name());
    }
}

// The locks, a line for each.
ghost use Rattle.std.specs.Prelude.{OnOk};
ghost use Rattle.std.specs.List.{count_by};
ghost use Rattle.slab.specs.Slab.{entries};
ghost use Rattle.ft_lock_rules.specs.Listing.{AreAdded, once, is_by, is_lock_of};
ghost use Rattle.ft_locks.specs.Slots.{is_on};

use crate::cells::Locked;
use ft_base::Memory;
use ft_forest::TxnId;
use ft_lock_rules::{LockKind, LockLine, OwnerLocks};
use ft_posix::Mode;
use ft_tree::Cell;
use slab::Slab;

/// Lists one lock of an owner on a cell, if the owner has it.
fn list_lock(
    lines: &mut Vec<LockLine>,
    cell: &Cell,
    holding: &OwnerLocks,
    mode: Mode,
    kind: LockKind,
) -> Result<(), Memory>
    ensures { OnOk result (AreAdded lines.old.items
        lines.new.items (λ l. once
        (is_lock_of cell.now holding.now mode kind l))) }
{
    if holding.marks.has(mode, kind) {
        let cell = cell.clone()?;
        let owner = TxnId(holding.owner);
        lines.push(LockLine {
            cell,
            owner,
            mode,
            kind,
        })?;
    }
    Ok(())
}

/// Lists the locks of an owner on a cell.
fn list_holding(lines: &mut Vec<LockLine>, cell: &Cell, holding: &OwnerLocks) -> Result<(), Memory>
    ensures { OnOk result (AreAdded lines.old.items
        lines.new.items (λ l. once (is_by cell.now l holding.now))) }
{
    list_lock(lines, cell, holding, Mode::Read, LockKind::Held)?;
    list_lock(lines, cell, holding, Mode::Read, LockKind::Retained)?;
    list_lock(lines, cell, holding, Mode::Write, LockKind::Held)?;
    list_lock(lines, cell, holding, Mode::Write, LockKind::Retained)
}

/// Lists the locks on a cell.
fn list_cell(lines: &mut Vec<LockLine>, cell: &Cell, list: &[OwnerLocks]) -> Result<(), Memory>
    ensures { OnOk result (AreAdded lines.old.items
        lines.new.items (λ l. count_by (is_by cell.now l) list.now)) }
{
    for holding in list {
        list_holding(lines, cell, holding)?;
    }
    Ok(())
}

/// Lists the locks on all cells.
pub(crate) fn list_cells(lines: &mut Vec<LockLine>, cells: &Slab<Locked>) -> Result<(), Memory>
    ensures { OnOk result (AreAdded lines.old.items
        lines.new.items (λ l. count_by (λ e. is_on l e.1) (entries cells.now))) }
{
    for (_, locked) in cells.iter() {
        list_cell(lines, &locked.cell, locked.holders.as_slice())?;
    }
    Ok(())
}

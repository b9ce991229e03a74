// The owners that block an access.
ghost use Rattle.std.specs.Prelude.{◌≡◌, ℕ, true, [], ◌∷◌, OnOk, IfOk};
ghost use Rattle.std.specs.Option.{option_copied};
ghost use Rattle.std.specs.FinMap as finite;
ghost use Rattle.ft_cells.specs.declared.cell.Cell.TheVariants.{Names};
ghost use Rattle.ft_lock_rules.specs.LockModes.{conflicts_with};
ghost use Rattle.ft_lock_rules.specs.Blocking.{AreNoted, against, way, is_listed_in_way, is_holder_in_way, beside, blocks};
ghost use Rattle.ft_lock_rules.specs.Rules.{is_strict};
ghost use Rattle.ft_lock_rules.specs.Seen.{has_line};
ghost use Rattle.ft_lock_rules.specs.Surveys.{KeepOthersOut, KeepHoldersOut, HoldsAll};
ghost use Rattle.ft_locks.specs.Asking.{against_asker};

use crate::holdings::Holdings;
use ft_base::{Memory, Table};
use ft_forest::{Forest, TxnId};
use ft_lock_rules::{CellLocks, LockKind, OwnerLocks, Rule};
use ft_posix::{Access, Mode};
use ft_tree::Cell;
use std::alloc::Global;

/// The transaction that asks, and the rule by which it is judged.
#[derive(Clone, Copy)]
pub(crate) struct Asker {
    pub(crate) txn: TxnId,
    pub(crate) rule: Rule,
}

/// Returns whether one of an owner's locks conflicts with an access in this mode and counts against
/// the asker. The locks of the asker and of its ancestors do not count. By Moss's rule those that
/// an ancestor holds count too.
fn is_blocker(forest: &Forest, asker: &Asker, holding: OwnerLocks, mode: Mode) -> bool
    ensures { result ≡ conflicts_with
        (against asker.now.rule forest.now asker.now.txn holding.owner holding.marks) mode }
{
    let OwnerLocks { owner, marks } = holding;
    if !marks.conflicts_with(mode) {
        return false;
    }
    if !forest.is_below(asker.txn, TxnId(owner)) {
        return true;
    }
    asker.rule == Rule::Moss && owner != asker.txn.0 && marks.only_held().conflicts_with(mode)
}

/// Notes each owner in a list with a lock that conflicts with this mode and counts against the
/// asker.
fn note_list(
    found: &mut Table<()>,
    forest: &Forest,
    asker: &Asker,
    list: &[OwnerLocks],
    mode: Mode,
) -> Result<(), Memory>
    ensures { OnOk result (AreNoted found.old found.new
        (is_listed_in_way (against_asker asker.now forest.now) list.now mode)) }
{
    for holding in list {
        if is_blocker(forest, asker, *holding, mode) {
            found.insert(holding.owner, ())?;
        }
    }
    Ok(())
}

/// Notes each holder of a cell with a lock that conflicts with this mode and counts against the
/// asker. Without holders, it notes none.
fn note_holders(
    found: &mut Table<()>,
    forest: &Forest,
    asker: &Asker,
    holders: Option<&CellLocks>,
    mode: Mode,
) -> Result<(), Memory>
    ensures { OnOk result (AreNoted found.old found.new
        (is_holder_in_way (against_asker asker.now forest.now) (option_copied holders.entry)
        mode)) }
{
    match holders {
        Some(holders) => note_list(found, forest, asker, holders.may_conflict(mode), mode),
        None => Ok(()),
    }
}

/// Notes each owner on a cell with a lock that conflicts with this mode and counts against the
/// asker.
fn note_cell(
    holdings: &Holdings,
    found: &mut Table<()>,
    forest: &Forest,
    asker: &Asker,
    cell: &Cell,
    mode: Mode,
) -> Result<(), Memory>
    ensures { OnOk result (AreNoted found.old found.new
        (way (against_asker asker.now forest.now) holdings.now.cells cell.now mode)) }
{
    note_holders(found, forest, asker, holdings.holders(cell), mode)
}

/// Notes each owner on an entry of a directory with a lock that conflicts with this mode and counts
/// against the asker.
fn note_entries(
    holdings: &Holdings,
    found: &mut Table<()>,
    forest: &Forest,
    asker: &Asker,
    dir: u64,
    mode: Mode,
) -> Result<(), Memory>
    ensures { OnOk result (AreNoted found.old found.new
        (beside (against_asker asker.now forest.now) holdings.now.cells (Names dir) mode)) }
{
    let cells = holdings.cells();
    let Some(keys) = cells.entries_of(dir) else {
        return Ok(());
    };
    for key in keys {
        note_holders(found, forest, asker, cells.under(*key), mode)?;
    }
    Ok(())
}

/// Notes the owners that block an access by their locks on other cells that overlap its cell.
fn note_beside(
    holdings: &Holdings,
    found: &mut Table<()>,
    forest: &Forest,
    asker: &Asker,
    access: &Access,
) -> Result<(), Memory>
    ensures { OnOk result (AreNoted found.old found.new
        (beside (against_asker asker.now forest.now) holdings.now.cells access.now.cell
        access.now.mode)) }
{
    let mode = access.mode;
    match &access.cell {
        Cell::Entry(entry) => {
            if !holdings.cells().may_have_names() {
                return Ok(());
            }
            let names = Cell::Names(entry.dir);
            note_cell(holdings, found, forest, asker, &names, mode)
        }
        Cell::Names(dir) => note_entries(holdings, found, forest, asker, *dir, mode),
        Cell::Parent(_)
        | Cell::Links(_)
        | Cell::Bytes(_)
        | Cell::Fd(_)
        | Cell::DirAttributes(_)
        | Cell::FileAttributes(_) => Ok(()),
    }
}

/// Notes the owners that block an access by their locks on its cell or on others that overlap it.
pub(crate) fn note_access(
    holdings: &Holdings,
    found: &mut Table<()>,
    forest: &Forest,
    asker: &Asker,
    access: &Access,
) -> Result<(), Memory>
    ensures { OnOk result (AreNoted found.old found.new
        (blocks (against_asker asker.now forest.now) holdings.now.cells access.now)) }
{
    note_cell(holdings, found, forest, asker, &access.cell, access.mode)?;
    note_beside(holdings, found, forest, asker, access)
}

/// Notes the owners that block an access, and returns whether the asker holds the lock of the
/// access, by one look at its cell.
///
/// If a lock of the asker's own covers the access, only ancestors have a lock that conflicts with
/// it. By Moss's rule none of them holds one.
pub(crate) fn check_access(
    holdings: &Holdings,
    found: &mut Table<()>,
    forest: &Forest,
    asker: &Asker,
    access: &Access,
) -> Result<bool, Memory>
    requires alone { KeepOthersOut (has_line holdings.now.cells) forest.now asker.now.txn }
    requires no_holder { is_strict asker.now.rule ≡ true
        → KeepHoldersOut (has_line holdings.now.cells) forest.now }
    ensures noted { OnOk result
        (AreNoted found.old found.new
        (blocks (against_asker asker.now forest.now) holdings.now.cells access.now)) }
    ensures held { IfOk result
        (λ is_held. is_held ≡ true → HoldsAll holdings.now.cells asker.now.txn (access.now ∷ [])) }
{
    let mode = access.mode;
    if let Some(holders) = holdings.holders(&access.cell) {
        if let Some(own) = holders.get(asker.txn.0) {
            if own.suffice_for(mode) {
                return Ok(own.has(mode, LockKind::Held));
            }
        }
        note_list(found, forest, asker, holders.may_conflict(mode), mode)?;
    }
    note_beside(holdings, found, forest, asker, access)?;
    Ok(false)
}

/// Returns the owners that were noted, in rising order.
pub(crate) fn sorted_owners(alloc: Global, found: &Table<()>) -> Result<Vec<TxnId>, Memory>
    ensures { IfOk result (λ owners. owners.items ≡ finite.keys found.now) }
{
    let mut owners = Vec::new(alloc);
    if found.is_empty() {
        return Ok(owners);
    }
    for (owner, _) in found.sorted(alloc)? {
        owners.push(TxnId(owner))?;
    }
    Ok(owners)
}

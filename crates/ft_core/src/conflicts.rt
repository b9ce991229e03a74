// Conflicts of calls.
ghost use Rattle.std.specs.Prelude.{◌≡◌, ◌&&◌, nat_lt};
ghost use Rattle.std.specs.List.{list_any};
ghost use Rattle.ft_cells.specs.CellOrder.{cell_number, overlap};
ghost use Rattle.ft_posix.specs.Accesses.{conflict, is_write};

use ft_calls::Access;
use ft_cells::Cell;
use ft_posix::Mode;

/// Returns whether some access of one list conflicts with some of another, on what has a number
/// below the next one: their cells overlap, and one of them writes.
pub(crate) fn some_conflict(some: &[Access], others: &[Access], next: u64) -> bool
    ensures { result ≡ list_any (λ access. nat_lt (cell_number access.cell) next
        && list_any (conflict access) others.now) some.now }
{
    some.iter().any(|access| access.cell.number() < next && conflicts_with(access, others))
}

/// Returns whether an access conflicts with one of the others.
fn conflicts_with(access: &Access, others: &[Access]) -> bool
    ensures { result ≡ list_any (conflict access.now) others.now }
{
    others.iter().any(|other| conflict(access, other))
}

/// Returns whether two accesses conflict: their cells overlap, and one of them writes.
fn conflict(access: &Access, other: &Access) -> bool
    ensures { result ≡ conflict access.now other.now }
{
    overlap(&access.cell, &other.cell) && (is_write(access.mode) || is_write(other.mode))
}

/// Returns whether cells are the same, or one is the names of a directory and the other an entry of
/// it.
fn overlap(cell: &Cell, other: &Cell) -> bool
    ensures { result ≡ overlap cell.now other.now }
{
    match (cell, other) {
        (Cell::Entry(entry), Cell::Names(dir)) => entry.dir == *dir,
        (Cell::Names(dir), Cell::Entry(entry)) => *dir == entry.dir,
        _ => cell == other,
    }
}

/// Returns whether a mode is that of a write.
fn is_write(mode: Mode) -> bool
    ensures { result ≡ is_write mode }
{
    match mode {
        Mode::Read => false,
        Mode::Write => true,
    }
}

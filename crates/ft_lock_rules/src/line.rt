ghost use Rattle.std.specs.Prelude.{◌≡◌, Some, refl};
ghost use Rattle.std.specs.Ordering.{eq_by_cmp};
ghost use Rattle.std.specs.Cmp.{eq_by_cmp_equiv, partial_equiv_from_equiv, partial_order_from_total};
ghost use Rattle.ft_lock_rules.specs.Ranks.{mode_rank, kind_rank};

use ft_forest::TxnId;
use ft_posix::Mode;
use ft_tree::Cell;
use std::cmp::Ordering;

/// How a transaction got a lock (Moss 1981, holding and retaining).
#[derive(Clone, Copy, Debug, PartialEq, Eq, PartialOrd, Ord)]
pub enum LockKind {
    /// It asked for the access itself.
    Held,
    /// A child of it held or retained the lock when the child committed.
    Retained,
}

/// Returns the rank of a mode among the modes.
fn rank_of_mode(mode: Mode) -> u8
    ensures { result ≡ mode_rank mode }
{
    match mode {
        Mode::Read => 0,
        Mode::Write => 1,
    }
}

/// Returns the rank of a kind among the kinds.
fn rank_of_kind(kind: LockKind) -> u8
    ensures { result ≡ kind_rank kind }
{
    match kind {
        LockKind::Held => 0,
        LockKind::Retained => 1,
    }
}

/// One lock: its cell, its owner, the mode of access, and how the owner got it.
///
/// Locks are listed by cell, then by owner, Read before Write, and Held before Retained. This is a
/// rule of this project.
#[derive(Debug, Drop)]
pub struct LockLine {
    pub cell: Cell,
    pub owner: TxnId,
    pub mode: Mode,
    pub kind: LockKind,
}

impl PartialEq for LockLine {
    ghost use Rattle.ft_lock_rules.specs.Locks.{line_cmp, line_cmp_total};

    ghost eq = { eq_by_cmp line_cmp };

    ghost laws = { partial_equiv_from_equiv (eq_by_cmp_equiv line_cmp_total) };

    fn eq(&self, other: &LockLine) -> bool {
        self.cmp(other).is_eq()
    }
}

impl Eq for LockLine {
    ghost use Rattle.ft_lock_rules.specs.Locks.{line_cmp_total};

    ghost laws = { eq_by_cmp_equiv line_cmp_total };
}

impl PartialOrd for LockLine {
    ghost use Rattle.ft_lock_rules.specs.Locks.{line_cmp, line_cmp_total};

    ghost partial_cmp = { λ x y. Some (line_cmp x y) };

    ghost laws = { partial_order_from_total line_cmp_total };

    fn partial_cmp(&self, other: &LockLine) -> Option<Ordering> {
        Some(self.cmp(other))
    }
}

impl Ord for LockLine {
    ghost use Rattle.ft_lock_rules.specs.Locks.{line_cmp, line_cmp_total};

    ghost cmp = { line_cmp };

    ghost total = { line_cmp_total };

    ghost matches_partial_cmp = { λ x y. refl };

    ghost matches_eq = { λ x y. refl };

    fn cmp(&self, other: &LockLine) -> Ordering {
        self.cell
            .cmp(&other.cell)
            .then(self.owner.0.cmp(&other.owner.0))
            .then(rank_of_mode(self.mode).cmp(&rank_of_mode(other.mode)))
            .then(rank_of_kind(self.kind).cmp(&rank_of_kind(other.kind)))
    }
}

// The parts of a view that are no longer of use.
ghost use Rattle.std.specs.Prelude.{◌≡◌, ◌<◌, ℕ, None, false, OnOk, OnErr};
ghost use Rattle.ft_tree.specs.Sound.{AreSoundCells, IsFree};
ghost use Rattle.ft_tree.specs.Tidy.{tidy};
ghost use Rattle.ft_posix.specs.Exec.{exec};
ghost use Rattle.ft_view.specs.Cleared.{DropsMet};
ghost use Rattle.ft_view.specs.Replay.{IsReadable};
ghost use Rattle.ft_view.specs.declared.TheConstants.{READING};

use ft_base::Memory;
use ft_calls::{Call, Prepared, prepare};
use ft_cells::Cell;
use ft_posix::Access;
use ft_tree::{Keeps, Tree};
use ft_undo::apply;
use std::alloc::Global;

/// A cell that a call came upon, to be reported once. No cell of a view is kept, because no call is
/// undone there.
#[derive(Drop)]
struct Passed {
    cell: Option<Cell>,
}

impl Keeps for Passed {
    ghost use Rattle.ft_view.specs.Cleared.{passed};

    ghost kept = { λ _ _. false };

    ghost released_cells = { λ a. passed a.cell };

    ghost all_told = { λ a. record a { cell = None } };

    /// Returns false: no cell is kept.
    fn keeps(&self, _cell: &Cell) -> bool {
        false
    }

    /// Removes and returns the cell, if it was not reported yet.
    fn take_released(&mut self) -> Option<Cell> {
        self.cell.take()
    }
}

/// Makes a call on a tree, and drops what is useless after it: the places of removed names, and the
/// bytes of removed files. The reply of the call is not made.
///
/// Out of memory is the only refusal, and then nothing has changed.
pub(crate) fn make(alloc: Global, tree: &mut Tree, stamp: u64, call: &Call) -> Result<(), Memory>
    requires readable { IsReadable tree.old }
    requires below { stamp < READING }
    requires free { IsFree tree.old stamp }
    ensures made { OnOk result (tidy tree.new ≡ (exec (tidy tree.old) stamp call.now).0) }
    ensures readable { IsReadable tree.new }
    ensures refused { OnErr result (tree.new ≡ tree.old) }
{
    let Prepared { accesses, intent } = prepare(alloc, tree, stamp, call)?;
    drop(apply(alloc, tree, intent)?);
    clear(tree, accesses);
    Ok(())
}

/// Drops the useless places, with the bytes of removed files, among those that a call came upon.
/// The tree that callers see stays the same. Takes no memory.
fn clear(tree: &mut Tree, accesses: Vec<Access>)
    ensures tidy { tidy tree.new ≡ tidy tree.old }
    ensures dropped { DropsMet accesses.items tree.old tree.new }
    ensures sound { AreSoundCells tree.old → AreSoundCells tree.new }
    ensures free { (k : ℕ) → IsFree tree.old k → IsFree tree.new k }
{
    for access in accesses {
        let mut passed = Passed {
            cell: Some(access.cell),
        };
        tree.sweep(&mut passed);
    }
}

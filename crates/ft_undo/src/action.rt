ghost use Rattle.std.specs.Prelude.{◌≡◌, ◌≢◌, ℕ, map, IfOk, OnOk, OnErr};
ghost use Rattle.ft_laws.specs.Effects.{before};
ghost use Rattle.ft_tree.specs.Sound.{AreSoundCells, IsFree};
ghost use Rattle.ft_tree.specs.Tidy.{tidy};
ghost use Rattle.ft_posix.specs.Exec.{exec};
ghost use Rattle.ft_posix.specs.Stored.{outcome, after};
ghost use Rattle.ft_posix.specs.Accesses.{written_cell};
ghost use Rattle.ft_posix.specs.Perform.{OnlyTells};
ghost use Rattle.ft_posix.specs.Posix.{posix};
ghost use Rattle.ft_undo.specs.Undone.{given_back, AreAsLeft, MayRevert};

use crate::undo::{Undo, apply};
use ft_base::Memory;
use ft_calls::{Call, Prepared, Reply, prepare};
use ft_tree::Tree;
use std::alloc::Global;

/// Makes a call on a tree, as POSIX.1-2017 describes it and as `Call` documents for each, and
/// returns its reply and its undo. A call that fails by an errno returns `Failed` as its reply: it
/// is not refused.
///
/// The stamp becomes the number of what the call makes, so it is at least 2 and numbers nothing in
/// the tree. The tree is sound before and after. Every other number that was free stays free. A
/// call that fails, or only reports, changes nothing.
///
/// The undo gives each cell that the call wrote its value from before. Each of these cells has its
/// place after the call. `revert` may apply the undo if each cell has its place and holds what the
/// call left in it.
///
/// Out of memory is the only refusal, and then nothing has changed.
pub fn perform(
    alloc: Global,
    tree: &mut Tree,
    stamp: u64,
    call: &Call,
) -> Result<(Reply, Undo), Memory>
    requires sound { AreSoundCells tree.old }
    requires free { IsFree tree.old stamp }

    // About the stored cells, and about the plain tree that they represent.
    ensures reply { IfOk result (λ done. done.0 ≡ (outcome tree.old stamp call.now).reply) }
    ensures stored { OnOk result (tree.new ≡ after tree.old stamp call.now) }
    ensures plain { IfOk result
        (λ done. exec (tidy tree.old) stamp call.now ≡ (tidy tree.new, done.0)) }
    ensures refused { OnErr result (tree.new ≡ tree.old) }

    ensures stays_sound { AreSoundCells tree.new }
    ensures stays_free { OnOk result ((k : ℕ) → IsFree tree.old k → k ≢ stamp → IsFree tree.new k) }
    ensures told_alone { IfOk result (λ done. OnlyTells done.0 → tree.new ≡ tree.old) }

    // The inverse, in the form of the abstract calls, and when it may be put to a tree.
    ensures left { OnOk result
        (AreAsLeft tree.new tree.new (map written_cell (outcome tree.old stamp call.now).writes)) }
    ensures inverse { IfOk result
        (λ done. map given_back done.1
        ≡ before posix tree.old (outcome tree.old stamp call.now).writes) }
    ensures may_revert { IfOk result
        (λ done. MayRevert tree.new (outcome tree.old stamp call.now).writes done.1) }
{
    let Prepared {
        accesses: _,
        intent,
    } = prepare(alloc, tree, stamp, call)?;
    let reply = intent.reply(alloc, tree)?;
    let undo = apply(alloc, tree, intent)?;
    Ok((reply, undo))
}

// The replay of a list of calls.
ghost use Rattle.std.specs.Prelude.{◌≡◌, ◌≢◌, IfOk};
ghost use Rattle.ft_laws.specs.Lists.{Each, Pairs};
ghost use Rattle.ft_tree.specs.Sound.{AreSoundCells, IsFree};
ghost use Rattle.ft_tree.specs.Tidy.{tidy};
ghost use Rattle.ft_view.specs.Replay.{replayed, replies_of};

use ft_base::Memory;
use ft_calls::Reply;
use ft_posix::StampedCall;
use ft_tree::Tree;
use ft_undo::perform;
use std::alloc::Global;

/// Returns a new tree, in the state after these calls were made one after another, and the reply of
/// each, in their order. A call that fails replies `Failed`. The given tree is not changed.
///
/// The stamps are free in the tree, and no two are the same. Out of memory is the only refusal.
pub fn replay(
    alloc: Global,
    tree: &Tree,
    calls: &[StampedCall],
) -> Result<(Tree, Vec<Reply>), Memory>
    requires sound { AreSoundCells tree.now }
    requires free { Each (λ call. IsFree tree.now call.stamp) calls.now }
    requires distinct { Pairs (λ before after. before.stamp ≢ after.stamp) calls.now }
    ensures tree { IfOk result (λ done. tidy done.0 ≡ replayed (tidy tree.now) calls.now) }
    ensures replies { IfOk result (λ done. done.1.items ≡ replies_of (tidy tree.now) calls.now) }
    ensures sound { IfOk result (λ done. AreSoundCells done.0) }
{
    let mut copy = tree.copy()?;
    let mut replies = Vec::new(alloc);
    for StampedCall { stamp, call } in calls {
        let (reply, _) = perform(alloc, &mut copy, *stamp, call)?;
        replies.push(reply)?;
    }
    Ok((copy, replies))
}

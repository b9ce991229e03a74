// The serial order: what is in it, and that its replay gives the tree of the core, from a new tree
// and from a base.
ghost use Rattle.std.specs.Prelude.{◌≢◌};
ghost use Rattle.ft_laws.specs.Lists.{Each, Pairs};
ghost use Rattle.ft_tree.specs.Sound.{AreSoundCells, IsFree};

use ft_calls::Reply;
use ft_core::Fault;
use ft_posix::StampedCall;
use ft_record::Recorded;
use ft_record::laws::reached;
use ft_serial::laws::serial_runs;
use ft_serial::serial;
use ft_tree::Tree;
use ft_view::replay;
use std::test::Fail;
use test_scripts::{Line, Wanted, is_reply, plays};

/// Returns whether the calls of the serial list have these stamps.
pub(crate) fn is_serial(core: &Recorded, stamps: &[u64]) -> Result<bool, Fail> {
    let calls = serial(core)?;
    Ok(
        calls
            .iter()
            .map(|call| call.stamp)
            .eq(stamps.iter().copied()),
    )
}

/// Returns whether calls get the replies that are wanted, each with the stamp of its call.
fn are_replies(calls: &[StampedCall], replies: &[Reply], wanted: &[Wanted]) -> bool {
    calls.len() == wanted.len()
        && replies.len() == wanted.len()
        && calls.iter().zip(replies).zip(wanted).all(|((call, reply), wanted)| is_reply(
            call.stamp, reply, *wanted,
        ))
}

/// Returns whether calls, replayed from a tree, get the replies that are wanted, and leave the tree
/// of the core.
fn replays(
    core: &Recorded,
    from: &Tree,
    calls: &[StampedCall],
    wanted: &[Wanted],
) -> Result<bool, Fail>
    requires sound { AreSoundCells from.now }
    requires free { Each (λ call. IsFree from.now call.stamp) calls.now }
    requires distinct { Pairs (λ before after. before.stamp ≢ after.stamp) calls.now }
{
    let (tree, replies) = replay(core.alloc(), from, calls)?;
    let (rows, wanted_rows) = (tree.rows()?, core.tree().rows()?);
    let is_tree = rows.as_slice() == wanted_rows.as_slice();
    Ok(is_tree && are_replies(calls, replies.as_slice(), wanted))
}

/// Returns whether the calls of the serial list, replayed from a new tree, get the replies that are
/// wanted and leave the tree of the core.
pub(crate) fn replays_from_new(core: &Recorded, wanted: &[Wanted]) -> Result<bool, Fail> {
    reached(core);
    serial_runs(core);
    let calls = serial(core)?;
    let empty = Tree::new(core.alloc())?;
    replays(core, &empty, calls.as_slice(), wanted)
}

/// Returns whether the calls of the serial list, replayed from the base, get the replies that are
/// wanted and leave the tree of the core.
fn replays_from_base(core: &Recorded, wanted: &[Wanted]) -> Result<bool, Fail> {
    reached(core);
    serial_runs(core);
    let calls = serial(core)?;
    replays(core, core.base(), calls.as_slice(), wanted)
}

#[test]
fn serial_leaves_out_the_aborted(rt: HostRuntime) -> Result<(), Fail> {
    let alloc = rt.alloc();
    let script = [
        (Line::Begin, Wanted::Txn(1)),
        (Line::Mkdir(1, b"/d".as_slice()), Wanted::Done(2)),
        (Line::Commit(1), Wanted::Committed),
        (Line::Begin, Wanted::Txn(2)),
        (Line::Begin, Wanted::Txn(3)),
        (Line::Mkdir(2, b"/d/a".as_slice()), Wanted::Done(3)),
        (Line::Mkdir(3, b"/d/b".as_slice()), Wanted::Done(4)),
        (Line::Abort(2), Wanted::Aborted(1)),
        (
            Line::List(3, b"/d".as_slice()),
            Wanted::Directories(5, b"b".as_slice()),
        ),
    ];
    let replies = [
        Wanted::Done(2),
        Wanted::Done(4),
        Wanted::Directories(5, b"b".as_slice()),
    ];
    let mut core = Recorded::new(alloc)?;
    assert!(rt; is_serial(&core, &[])?);
    assert!(rt; plays(alloc, &mut core, &script)?);
    assert!(rt; is_serial(&core, &[2, 4, 5])?);
    assert!(rt; replays_from_new(&core, &replies)?);
    Ok(())
}

#[test]
fn serial_from_a_checkpoint(rt: HostRuntime) -> Result<(), Fail> {
    let alloc = rt.alloc();
    let script = [
        (Line::Begin, Wanted::Txn(1)),
        (Line::Open(1, b"/f".as_slice()), Wanted::Number(2, 2)),
        (Line::Commit(1), Wanted::Committed),
        (Line::Checkpoint, Wanted::Cleared),
        (Line::Retry(1), Wanted::Refused(Fault::NoTxn)),
        (Line::Begin, Wanted::Txn(2)),
        (Line::Write(2, 2, b"hi".as_slice()), Wanted::Number(3, 2)),
        (Line::Unlink(2, b"/f".as_slice()), Wanted::Done(4)),
        (Line::Abort(2), Wanted::Aborted(2)),
        (Line::Begin, Wanted::Txn(3)),
        (Line::Fstat(3, 2), Wanted::File(5, [2, 1, 0])),
    ];
    let mut core = Recorded::new(alloc)?;
    assert!(rt; plays(alloc, &mut core, &script)?);
    assert!(rt; is_serial(&core, &[5])?);
    assert!(rt; replays_from_base(&core, &[Wanted::File(5, [2, 1, 0])])?);
    Ok(())
}

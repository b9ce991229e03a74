// The undo logs by a worked example: two calls of transaction 1 and one of its child 2, which
// commits.
ghost use Rattle.ft_tree.specs.Sound.{AreSoundCells, IsFree};

use ft_base::Memory;
use ft_calls::Call;
use ft_tree::Tree;
use ft_undo::{LogRecord, Logs, Undo, perform};
use std::alloc::Global;
use std::test::Fail;

#[test]
fn small_calls(rt: HostRuntime) -> Result<(), Fail> {
    let mut logs = Logs::new(rt.alloc());
    open_and_record(rt.alloc(), &mut logs)?;
    assert!(rt; hands_up(&mut logs, 2, 1));
    assert!(rt; gives(&mut logs, 1, &[4, 3, 2]));
    Ok(())
}

/// Opens the lists of two transactions, and records calls in them.
fn open_and_record(alloc: Global, logs: &mut Logs) -> Result<(), Memory> {
    logs.open(1)?;
    logs.open(2)?;
    record(alloc, logs, 1, 2)?;
    record(alloc, logs, 1, 3)?;
    record(alloc, logs, 2, 4)
}

/// Takes a call of this stamp into the list of a transaction that is open.
fn record(alloc: Global, logs: &mut Logs, txn: u64, stamp: u64) -> Result<(), Memory> {
    let undo = undo_of_a_read(alloc)?;
    if logs.is_open(txn) {
        logs.push(txn, stamp, undo)?;
    }
    Ok(())
}

/// Moves a child's list to its parent's, if both are open. Returns whether it has.
fn hands_up(logs: &mut Logs, child: u64, parent: u64) -> bool {
    let can = child != parent && logs.is_open(child) && logs.is_open(parent);
    if can {
        logs.splice(child, parent);
    }
    can && !logs.is_open(child)
}

/// Returns whether a list gives the calls of these stamps, and then no more.
fn gives(logs: &mut Logs, txn: u64, stamps: &[u64]) -> bool {
    for stamp in stamps {
        if logs.newest(txn) != Some(*stamp) || last_of(logs, txn) != Some(*stamp) {
            return false;
        }
    }
    logs.newest(txn).is_none() && last_of(logs, txn).is_none()
}

/// Removes the last record of a transaction, and returns its stamp.
fn last_of(logs: &mut Logs, txn: u64) -> Option<u64> {
    let LogRecord { stamp, undo: _ } = logs.take_last(txn)?;
    Some(stamp)
}

/// The inverse of a call that changes nothing.
fn undo_of_a_read(alloc: Global) -> Result<Undo, Memory> {
    let mut tree = Tree::new(alloc)?;
    undo_of(alloc, &mut tree, &Call::Read { fd: 9, len: 1 })
}

/// Makes a call, and returns its undo.
fn undo_of(alloc: Global, tree: &mut Tree, call: &Call) -> Result<Undo, Memory>
    requires sound { AreSoundCells tree.old }
    requires free { IsFree tree.old 2 }
{
    let (_reply, undo) = perform(alloc, tree, 2, call)?;
    Ok(undo)
}

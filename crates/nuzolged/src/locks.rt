// The locks of a transaction.
ghost use Rattle.std.specs.Prelude.{◌≡◌, IfOk, string_bytes};
ghost use Rattle.nuzolged.specs.Answers.{IsTold};
ghost use Rattle.nuzolged.specs.Locks.{AreLocksTold, HasLocks, IsTextOfLocks};

use crate::answered::{Answered, tell};
use crate::handle::Handle;
use crate::nuz_answer::{CLOSED, MEMORY, NuzAnswer};
use ft_base::Memory;
use ft_core::{Core, TxnId};
use ft_line::{AttributeLocksText, LocksText};
use ft_session::copy_into;
use std::alloc::Global;

/// Copies the locks of a transaction, as the reports of a script list them. The answer holds how
/// many bytes the text has, and as many as have room are copied.
#[unsafe(no_mangle)]
pub extern "C" fn nuz_locks(
    alloc: Global,
    tree: &mut Handle,
    txn: u64,
    buffer: &mut [u8],
    answer: &mut Answered,
) -> u32
    ensures same { tree.new.session ≡ tree.old.session }
    ensures locks { AreLocksTold tree.old.session txn answer.new.told buffer.old buffer.new }
    ensures told { IsTold tree.new.session result answer.new }
{
    let told = locks(alloc, tree, TxnId(txn), buffer);
    tell(alloc, tree, told, answer)
}

/// Copies the text of the locks of a transaction of a tree.
fn locks(alloc: Global, tree: &mut Handle, txn: TxnId, buffer: &mut [u8]) -> NuzAnswer
    ensures same { tree.new.session ≡ tree.old.session }
    ensures told { AreLocksTold tree.old.session txn result buffer.old buffer.new }
{
    match tree.take(alloc) {
        None => NuzAnswer::of(CLOSED, 0, 0),
        Some(session) => {
            let told = tell_locks(alloc, &session.core, txn, buffer);
            tree.put(session);
            told
        }
    }
}

/// Copies the text of the locks of a transaction of a core, and returns how many bytes it has.
fn tell_locks(alloc: Global, core: &Core, txn: TxnId, buffer: &mut [u8]) -> NuzAnswer
    ensures { HasLocks core.now.state txn result buffer.old buffer.new }
{
    match text_of_locks(alloc, core, txn) {
        Ok(text) => NuzAnswer::of_size(copy_into(text.as_bytes(), buffer)),
        Err(Memory) => NuzAnswer::of(MEMORY, 0, 0),
    }
}

/// Returns the text of the locks of a transaction.
fn text_of_locks(alloc: Global, core: &Core, txn: TxnId) -> Result<String, Memory>
    ensures { IfOk result (λ text. IsTextOfLocks core.now.state txn (string_bytes text)) }
{
    let mut locks = core.lock_lines()?;
    locks.retain(|lock| lock.owner == txn);
    let own = locks.as_slice();
    Ok(format!(in alloc; "{}\n{}\n", LocksText(own), AttributeLocksText(own))?)
}

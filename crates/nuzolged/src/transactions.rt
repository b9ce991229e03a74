// Transactions.
ghost use Rattle.std.specs.Prelude.{◌≡◌, ◌≢◌};
ghost use Rattle.ft_core.specs.declared.request.Request.TheVariants.{Begin, Sub, Commit, Abort, Undo, Retry, Drop, Checkpoint};
ghost use Rattle.ft_session.specs.Buffers.{filled_by};
ghost use Rattle.nuzolged.specs.Answers.{IsTold};
ghost use Rattle.nuzolged.specs.Asked.{IsAsked};
ghost use Rattle.nuzolged.specs.Numbers.{no_memory};
ghost use Rattle.nuzolged.specs.Parts.{data_held};

use crate::answered::{Answered, tell};
use crate::asking::{answer_request, checkpoint};
use crate::handle::Handle;
use crate::parts::copy_data;
use ft_core::{Request, TxnId};
use std::alloc::Global;

/// Begins a transaction. The answer holds its number.
#[unsafe(no_mangle)]
pub extern "C" fn nuz_begin(alloc: Global, tree: &mut Handle, answer: &mut Answered) -> u32
    ensures asked { IsAsked tree.old.session Begin answer.new.told tree.new.session }
    ensures told { IsTold tree.new.session result answer.new }
{
    let told = answer_request(alloc, tree, Request::Begin);
    tell(alloc, tree, told, answer)
}

/// Begins a subtransaction. The answer holds its number.
#[unsafe(no_mangle)]
pub extern "C" fn nuz_begin_sub(
    alloc: Global,
    tree: &mut Handle,
    txn: u64,
    answer: &mut Answered,
) -> u32
    ensures asked { IsAsked tree.old.session (Sub txn) answer.new.told tree.new.session }
    ensures told { IsTold tree.new.session result answer.new }
{
    let told = answer_request(alloc, tree, Request::Sub(TxnId(txn)));
    tell(alloc, tree, told, answer)
}

/// Commits a transaction.
#[unsafe(no_mangle)]
pub extern "C" fn nuz_commit(
    alloc: Global,
    tree: &mut Handle,
    txn: u64,
    answer: &mut Answered,
) -> u32
    ensures asked { IsAsked tree.old.session (Commit txn) answer.new.told tree.new.session }
    ensures told { IsTold tree.new.session result answer.new }
{
    let told = answer_request(alloc, tree, Request::Commit(TxnId(txn)));
    tell(alloc, tree, told, answer)
}

/// Aborts a transaction with all that is live below it. The answer holds how many calls were
/// undone.
#[unsafe(no_mangle)]
pub extern "C" fn nuz_abort(
    alloc: Global,
    tree: &mut Handle,
    txn: u64,
    answer: &mut Answered,
) -> u32
    ensures asked { IsAsked tree.old.session (Abort txn) answer.new.told tree.new.session }
    ensures told { IsTold tree.new.session result answer.new }
{
    let told = answer_request(alloc, tree, Request::Abort(TxnId(txn)));
    tell(alloc, tree, told, answer)
}

/// Undoes the last of a transaction's own standing calls. The answer holds its stamp. It may be one
/// that only looked, or that failed.
#[unsafe(no_mangle)]
pub extern "C" fn nuz_undo(alloc: Global, tree: &mut Handle, txn: u64, answer: &mut Answered) -> u32
    ensures asked { IsAsked tree.old.session (Undo txn) answer.new.told tree.new.session }
    ensures told { IsTold tree.new.session result answer.new }
{
    let told = answer_request(alloc, tree, Request::Undo(TxnId(txn)));
    tell(alloc, tree, told, answer)
}

/// Forgets the call that a transaction waits for.
#[unsafe(no_mangle)]
pub extern "C" fn nuz_cancel(
    alloc: Global,
    tree: &mut Handle,
    txn: u64,
    answer: &mut Answered,
) -> u32
    ensures asked { IsAsked tree.old.session (Drop txn) answer.new.told tree.new.session }
    ensures told { IsTold tree.new.session result answer.new }
{
    let told = answer_request(alloc, tree, Request::Drop(TxnId(txn)));
    tell(alloc, tree, told, answer)
}

/// Makes the call that a transaction waits for. The answer is that of the call, and the bytes that
/// it has read, or the names that it lists, are at the front of a buffer.
#[unsafe(no_mangle)]
pub extern "C" fn nuz_retry(
    alloc: Global,
    tree: &mut Handle,
    txn: u64,
    buffer: &mut [u8],
    answer: &mut Answered,
) -> u32
    ensures asked { IsAsked tree.old.session (Retry txn) answer.new.told tree.new.session }
    ensures bytes { buffer.new ≡ filled_by (data_held tree.new.session) buffer.old }
    ensures told { IsTold tree.new.session result answer.new }
{
    let told = answer_request(alloc, tree, Request::Retry(TxnId(txn)));
    copy_data(alloc, tree, buffer);
    tell(alloc, tree, told, answer)
}

/// Makes the present tree the base, and forgets the transactions. Takes no memory.
#[unsafe(no_mangle)]
pub extern "C" fn nuz_checkpoint(alloc: Global, tree: &mut Handle, answer: &mut Answered) -> u32
    ensures asked { IsAsked tree.old.session Checkpoint answer.new.told tree.new.session }
    ensures memory { answer.new.told ≢ no_memory }
    ensures told { IsTold tree.new.session result answer.new }
{
    let told = checkpoint(alloc, tree);
    tell(alloc, tree, told, answer)
}

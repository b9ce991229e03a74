// The calls on descriptors.
ghost use Rattle.std.specs.Prelude.{◌≡◌, length};
ghost use Rattle.ft_core.specs.declared.request.Request.TheVariants.{Ask};
ghost use Rattle.ft_posix.specs.declared.call.Call.TheVariants as calls;
ghost use Rattle.ft_session.specs.Buffers.{filled_by};
ghost use Rattle.nuzolged.specs.Answers.{IsTold};
ghost use Rattle.nuzolged.specs.Asked.{whence_of, IsAsked, IsCallAsked, IsSeekAsked};
ghost use Rattle.nuzolged.specs.Parts.{data_held};

use crate::answered::{Answered, tell};
use crate::asking::{bad_argument, bytes_of, call, limits_of, most_at, most_of, refuse};
use crate::handle::Handle;
use crate::parts::copy_data;
use ft_base::Memory;
use ft_calls::{Call, Whence};
use std::alloc::Global;

/// Closes a descriptor.
#[unsafe(no_mangle)]
pub extern "C" fn nuz_close(
    alloc: Global,
    tree: &mut Handle,
    txn: u64,
    fd: u64,
    answer: &mut Answered,
) -> u32
    ensures asked { IsAsked tree.old.session (Ask txn (calls.Close fd)) answer.new.told
        tree.new.session }
    ensures told { IsTold tree.new.session result answer.new }
{
    let told = call(alloc, tree, txn, Call::Close { fd });
    tell(alloc, tree, told, answer)
}

/// Looks at what a descriptor has open.
#[unsafe(no_mangle)]
pub extern "C" fn nuz_fstat(
    alloc: Global,
    tree: &mut Handle,
    txn: u64,
    fd: u64,
    answer: &mut Answered,
) -> u32
    ensures asked { IsAsked tree.old.session (Ask txn (calls.Fstat fd)) answer.new.told
        tree.new.session }
    ensures told { IsTold tree.new.session result answer.new }
{
    let told = call(alloc, tree, txn, Call::Fstat { fd });
    tell(alloc, tree, told, answer)
}

/// Cuts the file of a descriptor to a length, or adds zeros up to it.
#[unsafe(no_mangle)]
pub extern "C" fn nuz_ftruncate(
    alloc: Global,
    tree: &mut Handle,
    txn: u64,
    fd: u64,
    len: i64,
    answer: &mut Answered,
) -> u32
    ensures asked { IsAsked tree.old.session (Ask txn (calls.Ftruncate fd len)) answer.new.told
        tree.new.session }
    ensures told { IsTold tree.new.session result answer.new }
{
    let told = call(alloc, tree, txn, Call::Ftruncate { fd, len });
    tell(alloc, tree, told, answer)
}

/// Sets an offset, which the answer holds. `whence` is 0 for the start, 1 for the offset and 2 for
/// the end.
#[unsafe(no_mangle)]
pub extern "C" fn nuz_lseek(
    alloc: Global,
    tree: &mut Handle,
    txn: u64,
    fd: u64,
    off: i64,
    whence: u32,
    answer: &mut Answered,
) -> u32
    ensures asked { IsSeekAsked tree.old.session txn fd off whence answer.new.told
        tree.new.session }
    ensures told { IsTold tree.new.session result answer.new }
{
    let told = match whence_of(whence) {
        Some(whence) => call(alloc, tree, txn, Call::Lseek { fd, whence, off }),
        None => bad_argument(alloc, tree),
    };
    tell(alloc, tree, told, answer)
}

/// Writes at the offset. The answer holds how many bytes were written. No more are copied than a
/// file may have.
#[unsafe(no_mangle)]
pub extern "C" fn nuz_write(
    alloc: Global,
    tree: &mut Handle,
    txn: u64,
    fd: u64,
    bytes: &[u8],
    answer: &mut Answered,
) -> u32
    ensures asked { IsCallAsked tree.old.session txn (calls.Write fd bytes.now) answer.new.told
        tree.new.session }
    ensures told { IsTold tree.new.session result answer.new }
{
    let most = most_of(limits_of(alloc, tree));
    let told = match bytes_of(alloc, bytes, most) {
        Ok(bytes) => call(alloc, tree, txn, Call::Write { fd, bytes }),
        Err(Memory) => refuse(alloc, tree, txn),
    };
    tell(alloc, tree, told, answer)
}

/// Writes at a place. The answer holds how many bytes were written. No more are copied than have
/// room there.
#[unsafe(no_mangle)]
pub extern "C" fn nuz_pwrite(
    alloc: Global,
    tree: &mut Handle,
    txn: u64,
    fd: u64,
    bytes: &[u8],
    off: i64,
    answer: &mut Answered,
) -> u32
    ensures asked { IsCallAsked tree.old.session txn (calls.Pwrite fd off bytes.now) answer.new.told
        tree.new.session }
    ensures told { IsTold tree.new.session result answer.new }
{
    let most = most_at(limits_of(alloc, tree), off);
    let told = match bytes_of(alloc, bytes, most) {
        Ok(bytes) => call(alloc, tree, txn, Call::Pwrite { fd, off, bytes }),
        Err(Memory) => refuse(alloc, tree, txn),
    };
    tell(alloc, tree, told, answer)
}

/// Reads at the offset as many bytes as a buffer has room for. The answer holds how many there
/// were, and they are at the front of the buffer.
#[unsafe(no_mangle)]
pub extern "C" fn nuz_read(
    alloc: Global,
    tree: &mut Handle,
    txn: u64,
    fd: u64,
    buffer: &mut [u8],
    answer: &mut Answered,
) -> u32
    ensures asked { IsAsked tree.old.session (Ask txn (calls.Read fd (length buffer.old)))
        answer.new.told tree.new.session }
    ensures bytes { buffer.new ≡ filled_by (data_held tree.new.session) buffer.old }
    ensures told { IsTold tree.new.session result answer.new }
{
    let len = buffer.len() as u64;
    let told = call(alloc, tree, txn, Call::Read { fd, len });
    copy_data(alloc, tree, buffer);
    tell(alloc, tree, told, answer)
}

/// Reads at a place as many bytes as a buffer has room for. The answer holds how many there were,
/// and they are at the front of the buffer.
#[unsafe(no_mangle)]
pub extern "C" fn nuz_pread(
    alloc: Global,
    tree: &mut Handle,
    txn: u64,
    fd: u64,
    buffer: &mut [u8],
    off: i64,
    answer: &mut Answered,
) -> u32
    ensures asked { IsAsked tree.old.session (Ask txn (calls.Pread fd off (length buffer.old)))
        answer.new.told tree.new.session }
    ensures bytes { buffer.new ≡ filled_by (data_held tree.new.session) buffer.old }
    ensures told { IsTold tree.new.session result answer.new }
{
    let len = buffer.len() as u64;
    let told = call(alloc, tree, txn, Call::Pread { fd, off, len });
    copy_data(alloc, tree, buffer);
    tell(alloc, tree, told, answer)
}

/// Returns the point from which an offset counts, by its number.
fn whence_of(number: u32) -> Option<Whence>
    ensures { result ≡ whence_of number }
{
    match number {
        0 => Some(Whence::Set),
        1 => Some(Whence::Cur),
        2 => Some(Whence::End),
        _ => None,
    }
}

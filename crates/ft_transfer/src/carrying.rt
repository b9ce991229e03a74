// A transfer, carried out on a core.
ghost use Rattle.std.specs.Prelude.{◌≡◌, length, pos};
ghost use Rattle.ft_transfer.specs.Transfers.{answer_of, EndsSub, Gets, GetsIn, IsTransfer, Puts, PutsIn};

use crate::asking::{bytes_of, done, number_of, txn_of, well};
use crate::disk::DiskFiles;
use crate::transfer::{Direction, Transfer, TransferAnswer};
use ft_base::Sequence;
use ft_calls::{Call, OpenFlags};
use ft_core::{AccessMode, Answer, Core, FilePath, Request, TxnId};
use ft_line::execute;

/// The flags of `open wct`.
const WRITING: OpenFlags = OpenFlags {
    access: AccessMode::WriteOnly,
    create: true,
    excl: false,
    trunc: true,
    append: false,
    mode: None,
};

/// The flags of `open r`.
const READING: OpenFlags = OpenFlags {
    access: AccessMode::ReadOnly,
    create: false,
    excl: false,
    trunc: false,
    append: false,
    mode: None,
};

/// Carries out a transfer in a subtransaction, which it begins and ends.
///
/// The subtransaction commits if each request in it did what it requests, and if the file of the
/// disk could be written. Otherwise it aborts. The answer is that to the last request in it, or to
/// the first request that did not do what it requests, or `File`. If the file of the disk can't be
/// read, nothing is requested.
pub fn carry_out<F: DiskFiles>(transfer: Transfer, files: &F, core: &mut Core) -> TransferAnswer
    ensures { IsTransfer (F.tells files.now) core.old.state transfer result core.new.state }
{
    match transfer.direction {
        Direction::Put => answer_of(put(transfer, files, core)),
        Direction::Get => answer_of(get(transfer, files, core)),
    }
}

/// Returns the answer to a transfer that ended so.
fn answer_of(made: Result<Answer, TransferAnswer>) -> TransferAnswer
    ensures { result ≡ answer_of made }
{
    match made {
        Ok(last) => TransferAnswer::Request(last),
        Err(answer) => answer,
    }
}

/// Puts the bytes of a file of the disk into a file of the tree.
fn put<F: DiskFiles>(
    transfer: Transfer,
    files: &F,
    core: &mut Core,
) -> Result<Answer, TransferAnswer>
    ensures { Puts (F.tells files.now) transfer core.old.state result core.new.state }
{
    let bytes = files.read_file(transfer.file.as_bytes())?;
    let sub = txn_of(core, Request::Sub(transfer.txn))?;
    let made = put_in(sub, transfer.path, bytes.into(), core);
    end_sub(sub, made, core)
}

/// Puts bytes into a file of the tree, in the subtransaction of a transfer.
fn put_in(
    sub: TxnId,
    path: FilePath,
    bytes: Sequence<u8>,
    core: &mut Core,
) -> Result<Answer, TransferAnswer>
    ensures { PutsIn path bytes sub core.old.state result core.new.state }
{
    let flags = WRITING;
    let fd = number_of(core, Request::Ask(sub, Call::Open { path, flags }))?;
    done(core, Request::Ask(sub, resizing(fd, &bytes)))?;
    done(core, Request::Ask(sub, Call::Write { fd, bytes }))?;
    let closed = well(core, Request::Ask(sub, Call::Close { fd }))?;
    Ok(closed)
}

/// Returns the call that gives an open file the length of these bytes.
fn resizing(fd: u64, bytes: &Sequence<u8>) -> Call
    ensures { result ≡ Call.Ftruncate fd (pos (length bytes.now)) }
{
    Call::Ftruncate {
        fd,
        len: bytes.as_slice().len() as i64,
    }
}

/// Puts the bytes of a file of the tree into a file of the disk.
fn get<F: DiskFiles>(
    transfer: Transfer,
    files: &F,
    core: &mut Core,
) -> Result<Answer, TransferAnswer>
    ensures { Gets (F.tells files.now) transfer core.old.state result core.new.state }
{
    let sub = txn_of(core, Request::Sub(transfer.txn))?;
    let made = get_in(sub, transfer, files, core);
    end_sub(sub, made, core)
}

/// Puts the bytes of a file of the tree into a file of the disk, in the subtransaction of a
/// transfer.
fn get_in<F: DiskFiles>(
    sub: TxnId,
    transfer: Transfer,
    files: &F,
    core: &mut Core,
) -> Result<Answer, TransferAnswer>
    ensures { GetsIn (F.tells files.now) transfer.path transfer.file sub core.old.state result
        core.new.state }
{
    let path = transfer.path;
    let flags = READING;
    let len = u64::MAX;
    let fd = number_of(core, Request::Ask(sub, Call::Open { path, flags }))?;
    let bytes = bytes_of(core, Request::Ask(sub, Call::Read { fd, len }))?;
    let closed = well(core, Request::Ask(sub, Call::Close { fd }))?;
    files.write_file(transfer.file.as_bytes(), bytes.as_slice())?;
    Ok(closed)
}

/// Commits the subtransaction of a transfer if all was done in it, and aborts it otherwise.
fn end_sub(
    sub: TxnId,
    made: Result<Answer, TransferAnswer>,
    core: &mut Core,
) -> Result<Answer, TransferAnswer>
    ensures { EndsSub sub core.old.state made result core.new.state }
{
    match made {
        Ok(last) => {
            done(core, Request::Commit(sub))?;
            Ok(last)
        }
        Err(answer) => {
            execute(core, Request::Abort(sub));
            Err(answer)
        }
    }
}

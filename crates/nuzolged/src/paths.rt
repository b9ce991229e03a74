// The calls on paths.
ghost use Rattle.std.specs.Prelude.{◌≡◌, ◌||◌, None, cond};
ghost use Rattle.ft_path.specs.Name.{has_nul};
ghost use Rattle.ft_posix.specs.declared.call.Call.TheVariants as calls;
ghost use Rattle.ft_session.specs.Buffers.{filled_by};
ghost use Rattle.nuzolged.specs.Answers.{IsTold};
ghost use Rattle.nuzolged.specs.Asked.{IsCalled, given_of, IsOpenAsked};
ghost use Rattle.nuzolged.specs.Flags.{open_call};
ghost use Rattle.nuzolged.specs.Parts.{data_held};
ghost use Rattle.nuzolged.specs.Reads.{read_call};

use crate::answered::{Answered, tell};
use crate::asking::{
    BadArgument, bad_argument, call, given_of, mode_of, path_of, paths_of, refuse, reject,
};
use crate::flags::{Opening, opening_of};
use crate::handle::Handle;
use crate::nuz_answer::NuzAnswer;
use crate::parts::copy_data;
use ft_calls::{Call, OpenFlags};
use ft_path::FilePath;
use std::alloc::Global;

/// Makes a directory, with a mode if one is given.
#[unsafe(no_mangle)]
pub extern "C" fn nuz_mkdir(
    alloc: Global,
    tree: &mut Handle,
    txn: u64,
    path: &[u8],
    mode: u32,
    answer: &mut Answered,
) -> u32
    ensures asked { IsCalled (has_nul path.now) tree.old.session txn
        (calls.Mkdir path.now (given_of mode)) answer.new.told tree.new.session }
    ensures told { IsTold tree.new.session result answer.new }
{
    let mode = given_of(mode).map(mode_of);
    let told = match path_of(alloc, path) {
        Ok(path) => call(alloc, tree, txn, Call::Mkdir { path, mode }),
        Err(why) => reject(alloc, tree, txn, why),
    };
    tell(alloc, tree, told, answer)
}

/// Removes an empty directory.
#[unsafe(no_mangle)]
pub extern "C" fn nuz_rmdir(
    alloc: Global,
    tree: &mut Handle,
    txn: u64,
    path: &[u8],
    answer: &mut Answered,
) -> u32
    ensures asked { IsCalled (has_nul path.now) tree.old.session txn (calls.Rmdir path.now)
        answer.new.told tree.new.session }
    ensures told { IsTold tree.new.session result answer.new }
{
    let told = match path_of(alloc, path) {
        Ok(path) => call(alloc, tree, txn, Call::Rmdir { path }),
        Err(why) => reject(alloc, tree, txn, why),
    };
    tell(alloc, tree, told, answer)
}

/// Counts the names of a directory; `nuz_name` returns each.
#[unsafe(no_mangle)]
pub extern "C" fn nuz_list(
    alloc: Global,
    tree: &mut Handle,
    txn: u64,
    path: &[u8],
    answer: &mut Answered,
) -> u32
    ensures asked { IsCalled (has_nul path.now) tree.old.session txn (calls.List path.now)
        answer.new.told tree.new.session }
    ensures told { IsTold tree.new.session result answer.new }
{
    let told = match path_of(alloc, path) {
        Ok(path) => call(alloc, tree, txn, Call::List { path }),
        Err(why) => reject(alloc, tree, txn, why),
    };
    tell(alloc, tree, told, answer)
}

/// Lists the names of a directory. The answer holds how many there are, and how many bytes they
/// have in a buffer, with the kind of each before it and a null byte after it. As many of these
/// bytes as have room are in the buffer.
#[unsafe(no_mangle)]
pub extern "C" fn nuz_list_all(
    alloc: Global,
    tree: &mut Handle,
    txn: u64,
    path: &[u8],
    buffer: &mut [u8],
    answer: &mut Answered,
) -> u32
    ensures asked { IsCalled (has_nul path.now) tree.old.session txn (calls.List path.now)
        answer.new.told tree.new.session }
    ensures names { buffer.new
        ≡ filled_by (cond (has_nul path.now) None (data_held tree.new.session)) buffer.old }
    ensures told { IsTold tree.new.session result answer.new }
{
    let told = read_path(alloc, tree, txn, path, Reads::Names, buffer);
    tell(alloc, tree, told, answer)
}

/// Looks at what a path leads to. A last symbolic link is followed.
#[unsafe(no_mangle)]
pub extern "C" fn nuz_stat(
    alloc: Global,
    tree: &mut Handle,
    txn: u64,
    path: &[u8],
    answer: &mut Answered,
) -> u32
    ensures asked { IsCalled (has_nul path.now) tree.old.session txn (calls.Stat path.now)
        answer.new.told tree.new.session }
    ensures told { IsTold tree.new.session result answer.new }
{
    let told = match path_of(alloc, path) {
        Ok(path) => call(alloc, tree, txn, Call::Stat { path }),
        Err(why) => reject(alloc, tree, txn, why),
    };
    tell(alloc, tree, told, answer)
}

/// Removes a name of a file.
#[unsafe(no_mangle)]
pub extern "C" fn nuz_unlink(
    alloc: Global,
    tree: &mut Handle,
    txn: u64,
    path: &[u8],
    answer: &mut Answered,
) -> u32
    ensures asked { IsCalled (has_nul path.now) tree.old.session txn (calls.Unlink path.now)
        answer.new.told tree.new.session }
    ensures told { IsTold tree.new.session result answer.new }
{
    let told = match path_of(alloc, path) {
        Ok(path) => call(alloc, tree, txn, Call::Unlink { path }),
        Err(why) => reject(alloc, tree, txn, why),
    };
    tell(alloc, tree, told, answer)
}

/// Cuts a file to a length, or adds zeros up to it.
#[unsafe(no_mangle)]
pub extern "C" fn nuz_truncate(
    alloc: Global,
    tree: &mut Handle,
    txn: u64,
    path: &[u8],
    len: i64,
    answer: &mut Answered,
) -> u32
    ensures asked { IsCalled (has_nul path.now) tree.old.session txn (calls.Truncate len path.now)
        answer.new.told tree.new.session }
    ensures told { IsTold tree.new.session result answer.new }
{
    let told = match path_of(alloc, path) {
        Ok(path) => call(alloc, tree, txn, Call::Truncate { len, path }),
        Err(why) => reject(alloc, tree, txn, why),
    };
    tell(alloc, tree, told, answer)
}

/// Gives a file a further name.
#[unsafe(no_mangle)]
pub extern "C" fn nuz_link(
    alloc: Global,
    tree: &mut Handle,
    txn: u64,
    from: &[u8],
    to: &[u8],
    answer: &mut Answered,
) -> u32
    ensures asked { IsCalled (has_nul from.now
        || has_nul to.now) tree.old.session txn (calls.Link from.now to.now) answer.new.told
        tree.new.session }
    ensures told { IsTold tree.new.session result answer.new }
{
    let told = match paths_of(alloc, from, to) {
        Ok((old, new)) => call(alloc, tree, txn, Call::Link { old, new }),
        Err(why) => reject(alloc, tree, txn, why),
    };
    tell(alloc, tree, told, answer)
}

/// Gives a file or a directory another name, in place of what had that name.
#[unsafe(no_mangle)]
pub extern "C" fn nuz_rename(
    alloc: Global,
    tree: &mut Handle,
    txn: u64,
    from: &[u8],
    to: &[u8],
    answer: &mut Answered,
) -> u32
    ensures asked { IsCalled (has_nul from.now
        || has_nul to.now) tree.old.session txn (calls.Rename from.now to.now) answer.new.told
        tree.new.session }
    ensures told { IsTold tree.new.session result answer.new }
{
    let told = match paths_of(alloc, from, to) {
        Ok((old, new)) => call(alloc, tree, txn, Call::Rename { old, new }),
        Err(why) => reject(alloc, tree, txn, why),
    };
    tell(alloc, tree, told, answer)
}

/// Makes a symbolic link, which holds a target.
#[unsafe(no_mangle)]
pub extern "C" fn nuz_symlink(
    alloc: Global,
    tree: &mut Handle,
    txn: u64,
    target: &[u8],
    path: &[u8],
    answer: &mut Answered,
) -> u32
    ensures asked { IsCalled (has_nul target.now
        || has_nul path.now) tree.old.session txn (calls.Symlink target.now path.now)
        answer.new.told tree.new.session }
    ensures told { IsTold tree.new.session result answer.new }
{
    let told = match paths_of(alloc, target, path) {
        Ok((target, path)) => call(alloc, tree, txn, Call::Symlink { target, path }),
        Err(why) => reject(alloc, tree, txn, why),
    };
    tell(alloc, tree, told, answer)
}

/// Reads the target of a symbolic link. The answer holds how many bytes it has, and as many as a
/// buffer has room for are at its front.
#[unsafe(no_mangle)]
pub extern "C" fn nuz_readlink(
    alloc: Global,
    tree: &mut Handle,
    txn: u64,
    path: &[u8],
    buffer: &mut [u8],
    answer: &mut Answered,
) -> u32
    ensures asked { IsCalled (has_nul path.now) tree.old.session txn (calls.Readlink path.now)
        answer.new.told tree.new.session }
    ensures bytes { buffer.new
        ≡ filled_by (cond (has_nul path.now) None (data_held tree.new.session)) buffer.old }
    ensures told { IsTold tree.new.session result answer.new }
{
    let told = read_path(alloc, tree, txn, path, Reads::Target, buffer);
    tell(alloc, tree, told, answer)
}

/// Looks at what a path leads to. A last symbolic link is not followed.
#[unsafe(no_mangle)]
pub extern "C" fn nuz_lstat(
    alloc: Global,
    tree: &mut Handle,
    txn: u64,
    path: &[u8],
    answer: &mut Answered,
) -> u32
    ensures asked { IsCalled (has_nul path.now) tree.old.session txn (calls.Lstat path.now)
        answer.new.told tree.new.session }
    ensures told { IsTold tree.new.session result answer.new }
{
    let told = match path_of(alloc, path) {
        Ok(path) => call(alloc, tree, txn, Call::Lstat { path }),
        Err(why) => reject(alloc, tree, txn, why),
    };
    tell(alloc, tree, told, answer)
}

/// Opens a file by the flags of a word. The answer holds its descriptor. A file that is made has a
/// mode if one is given.
#[unsafe(no_mangle)]
pub extern "C" fn nuz_open(
    alloc: Global,
    tree: &mut Handle,
    txn: u64,
    path: &[u8],
    flags: u32,
    mode: u32,
    answer: &mut Answered,
) -> u32
    ensures asked { IsOpenAsked tree.old.session txn path.now flags mode answer.new.told
        tree.new.session }
    ensures told { IsTold tree.new.session result answer.new }
{
    let told = match opening_of(flags) {
        Some(opening) => open(alloc, tree, txn, path, opening, given_of(mode)),
        None => bad_argument(alloc, tree),
    };
    tell(alloc, tree, told, answer)
}

/// A kind of read of a path into a buffer.
#[derive(Clone, Copy, Debug, PartialEq, Eq)]
enum Reads {
    // The names of a directory.
    Names,
    // The target of a symbolic link.
    Target,
}

/// Returns the call that reads a path in this way.
fn read_call(reads: Reads, path: FilePath) -> Call
    ensures { result ≡ read_call reads path }
{
    match reads {
        Reads::Names => Call::List { path },
        Reads::Target => Call::Readlink { path },
    }
}

/// Reads the names of a directory, or the target of a symbolic link, into a buffer.
fn read_path(
    alloc: Global,
    tree: &mut Handle,
    txn: u64,
    path: &[u8],
    reads: Reads,
    buffer: &mut [u8],
) -> NuzAnswer
    ensures asked { IsCalled (has_nul path.now) tree.old.session txn (read_call reads path.now)
        result tree.new.session }
    ensures bytes { buffer.new
        ≡ filled_by (cond (has_nul path.now) None (data_held tree.new.session)) buffer.old }
{
    let told = match path_of(alloc, path) {
        Ok(path) => call(alloc, tree, txn, read_call(reads, path)),
        Err(BadArgument::Memory) => refuse(alloc, tree, txn),
        Err(BadArgument::Bad) => return bad_argument(alloc, tree),
    };
    copy_data(alloc, tree, buffer);
    told
}

/// Opens a file, with a mode if one is given.
fn open(
    alloc: Global,
    tree: &mut Handle,
    txn: u64,
    path: &[u8],
    opening: Opening,
    mode: Option<u32>,
) -> NuzAnswer
    ensures { IsCalled (has_nul path.now) tree.old.session txn (open_call path.now opening mode)
        result tree.new.session }
{
    match path_of(alloc, path) {
        Ok(path) => {
            let opens = Call::Open {
                path,
                flags: OpenFlags {
                    access: opening.access,
                    create: opening.create,
                    excl: opening.excl,
                    trunc: opening.trunc,
                    append: opening.append,
                    mode: mode.map(mode_of),
                },
            };
            call(alloc, tree, txn, opens)
        }
        Err(why) => reject(alloc, tree, txn, why),
    }
}

// The calls on modes, owners and times.
ghost use Rattle.ft_core.specs.declared.request.Request.TheVariants.{Ask};
ghost use Rattle.ft_path.specs.Name.{has_nul};
ghost use Rattle.ft_posix.specs.declared.call.Call.TheVariants as calls;
ghost use Rattle.nuzolged.specs.Answers.{IsTold};
ghost use Rattle.nuzolged.specs.Asked.{IsAsked, IsCallAsked, IsCalled, given_of, time_given};

use crate::answered::{Answered, tell};
use crate::asking::{call, given_of, mode_of, path_of, reject};
use crate::handle::Handle;
use ft_calls::Call;
use ft_tree::Timestamp;
use std::alloc::Global;

/// Sets the mode of a directory or file.
#[unsafe(no_mangle)]
pub extern "C" fn nuz_chmod(
    alloc: Global,
    tree: &mut Handle,
    txn: u64,
    path: &[u8],
    mode: u32,
    answer: &mut Answered,
) -> u32
    ensures asked { IsCalled (has_nul path.now) tree.old.session txn (calls.Chmod mode path.now)
        answer.new.told tree.new.session }
    ensures told { IsTold tree.new.session result answer.new }
{
    let mode = mode_of(mode);
    let told = match path_of(alloc, path) {
        Ok(path) => call(alloc, tree, txn, Call::Chmod { mode, path }),
        Err(why) => reject(alloc, tree, txn, why),
    };
    tell(alloc, tree, told, answer)
}

/// Sets the mode of the file of a descriptor.
#[unsafe(no_mangle)]
pub extern "C" fn nuz_fchmod(
    alloc: Global,
    tree: &mut Handle,
    txn: u64,
    fd: u64,
    mode: u32,
    answer: &mut Answered,
) -> u32
    ensures asked { IsCallAsked tree.old.session txn (calls.Fchmod fd mode) answer.new.told
        tree.new.session }
    ensures told { IsTold tree.new.session result answer.new }
{
    let mode = mode_of(mode);
    let told = call(alloc, tree, txn, Call::Fchmod { fd, mode });
    tell(alloc, tree, told, answer)
}

/// Sets the owner and the group of a directory or file. With the greatest number, the old one
/// stays.
#[unsafe(no_mangle)]
pub extern "C" fn nuz_chown(
    alloc: Global,
    tree: &mut Handle,
    txn: u64,
    path: &[u8],
    owner: u32,
    group: u32,
    answer: &mut Answered,
) -> u32
    ensures asked { IsCalled (has_nul path.now) tree.old.session txn
        (calls.Chown (given_of owner) (given_of group) path.now) answer.new.told tree.new.session }
    ensures told { IsTold tree.new.session result answer.new }
{
    let (owner, group) = (given_of(owner), given_of(group));
    let told = match path_of(alloc, path) {
        Ok(path) => call(alloc, tree, txn, Call::Chown { owner, group, path }),
        Err(why) => reject(alloc, tree, txn, why),
    };
    tell(alloc, tree, told, answer)
}

/// Sets the owner and the group of a directory or file. A last symbolic link is not followed.
#[unsafe(no_mangle)]
pub extern "C" fn nuz_lchown(
    alloc: Global,
    tree: &mut Handle,
    txn: u64,
    path: &[u8],
    owner: u32,
    group: u32,
    answer: &mut Answered,
) -> u32
    ensures asked { IsCalled (has_nul path.now) tree.old.session txn
        (calls.Lchown (given_of owner) (given_of group) path.now) answer.new.told tree.new.session }
    ensures told { IsTold tree.new.session result answer.new }
{
    let (owner, group) = (given_of(owner), given_of(group));
    let told = match path_of(alloc, path) {
        Ok(path) => call(alloc, tree, txn, Call::Lchown { owner, group, path }),
        Err(why) => reject(alloc, tree, txn, why),
    };
    tell(alloc, tree, told, answer)
}

/// Sets the owner and the group of the file of a descriptor.
#[unsafe(no_mangle)]
pub extern "C" fn nuz_fchown(
    alloc: Global,
    tree: &mut Handle,
    txn: u64,
    fd: u64,
    owner: u32,
    group: u32,
    answer: &mut Answered,
) -> u32
    ensures asked { IsAsked tree.old.session
        (Ask txn (calls.Fchown fd (given_of owner) (given_of group))) answer.new.told
        tree.new.session }
    ensures told { IsTold tree.new.session result answer.new }
{
    let (owner, group) = (given_of(owner), given_of(group));
    let told = call(alloc, tree, txn, Call::Fchown { fd, owner, group });
    tell(alloc, tree, told, answer)
}

/// Sets the time of a file's bytes.
#[unsafe(no_mangle)]
pub extern "C" fn nuz_utime(
    alloc: Global,
    tree: &mut Handle,
    txn: u64,
    path: &[u8],
    seconds: i64,
    nanoseconds: u32,
    answer: &mut Answered,
) -> u32
    ensures asked { IsCalled (has_nul path.now) tree.old.session txn
        (calls.Utime (time_given seconds nanoseconds) path.now) answer.new.told tree.new.session }
    ensures told { IsTold tree.new.session result answer.new }
{
    let time = Timestamp {
        seconds,
        nanoseconds,
    };
    let told = match path_of(alloc, path) {
        Ok(path) => call(alloc, tree, txn, Call::Utime { time, path }),
        Err(why) => reject(alloc, tree, txn, why),
    };
    tell(alloc, tree, told, answer)
}

/// Sets the time of a file's bytes. A last symbolic link is not followed.
#[unsafe(no_mangle)]
pub extern "C" fn nuz_lutime(
    alloc: Global,
    tree: &mut Handle,
    txn: u64,
    path: &[u8],
    seconds: i64,
    nanoseconds: u32,
    answer: &mut Answered,
) -> u32
    ensures asked { IsCalled (has_nul path.now) tree.old.session txn
        (calls.Lutime (time_given seconds nanoseconds) path.now) answer.new.told tree.new.session }
    ensures told { IsTold tree.new.session result answer.new }
{
    let time = Timestamp {
        seconds,
        nanoseconds,
    };
    let told = match path_of(alloc, path) {
        Ok(path) => call(alloc, tree, txn, Call::Lutime { time, path }),
        Err(why) => reject(alloc, tree, txn, why),
    };
    tell(alloc, tree, told, answer)
}

/// Sets the time of the bytes of a descriptor's file.
#[unsafe(no_mangle)]
pub extern "C" fn nuz_futime(
    alloc: Global,
    tree: &mut Handle,
    txn: u64,
    fd: u64,
    seconds: i64,
    nanoseconds: u32,
    answer: &mut Answered,
) -> u32
    ensures asked { IsAsked tree.old.session
        (Ask txn (calls.Futime fd (time_given seconds nanoseconds))) answer.new.told
        tree.new.session }
    ensures told { IsTold tree.new.session result answer.new }
{
    let time = Timestamp {
        seconds,
        nanoseconds,
    };
    let told = call(alloc, tree, txn, Call::Futime { fd, time });
    tell(alloc, tree, told, answer)
}

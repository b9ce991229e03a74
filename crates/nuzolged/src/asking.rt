// Requests through a handle.
ghost use Rattle.std.specs.Prelude.{◌≡◌, ◌≢◌, ℤ, Bool, IfOk, take};
ghost use Rattle.ft_posix.specs.declared.call.Call.{Call as CallOf};
ghost use Rattle.ft_core.specs.declared.request.Request.TheVariants.{Ask, Checkpoint};
ghost use Rattle.nuzolged.specs.Asked.{given_of, limits_of, IsAsked, IsCallAsked, IsCalled, IsBad, IsPath, ArePaths, is_bad};
ghost use Rattle.nuzolged.specs.Cuts.{cut_mode, cut_of, most_at, most_of};
ghost use Rattle.nuzolged.specs.Numbers.{no_memory};

use crate::handle::Handle;
use crate::nuz_answer::{BAD, CLOSED, NuzAnswer, told_of};
use ft_base::{Memory, Sequence};
use ft_calls::Call;
use ft_core::{Limits, Request, TxnId};
use ft_path::{FilePath, LONGEST_PATH, PathFault};
use ft_tree::{MOST_MODE, TreeLimits};
use std::alloc::Global;

/// Why a call could not be requested.
#[derive(Clone, Copy, Debug, PartialEq, Eq)]
pub(crate) enum BadArgument {
    /// There was no memory for a copy of its path or of its bytes.
    Memory,
    /// An argument is not valid.
    Bad,
}

/// Has the core of a handle carry a request out, and returns the answer in numbers.
pub(crate) fn answer_request(alloc: Global, tree: &mut Handle, request: Request) -> NuzAnswer
    ensures { IsAsked tree.old.session request result tree.new.session }
{
    match tree.take(alloc) {
        None => NuzAnswer::of(CLOSED, 0, 0),
        Some(session) => {
            let mut session = session;
            session.answer(request);
            let told = told_of(&session.last);
            tree.put(session);
            told
        }
    }
}

/// Has the core of a handle make the present tree the base, and returns the answer in numbers.
/// Takes no memory.
pub(crate) fn checkpoint(alloc: Global, tree: &mut Handle) -> NuzAnswer
    ensures asked { IsAsked tree.old.session Checkpoint result tree.new.session }
    ensures memory { result ≢ no_memory }
{
    let Some(session) = tree.take(alloc) else {
        return NuzAnswer::of(CLOSED, 0, 0);
    };
    let mut session = session;
    session.checkpoint();
    let told = told_of(&session.last);
    tree.put(session);
    told
}

/// Requests a call in a transaction. It may be the cut of another one.
pub(crate) fn call(alloc: Global, tree: &mut Handle, txn: u64, call: Call) -> NuzAnswer
    ensures asked { IsAsked tree.old.session (Ask txn call) result tree.new.session }
    ensures whole { (whole : CallOf) → call ≡ cut_of (limits_of tree.old.session) whole
        → IsCallAsked tree.old.session txn whole result tree.new.session }
{
    answer_request(alloc, tree, Request::Ask(TxnId(txn), call))
}

/// Answers a call for whose path or bytes there was no memory: it is refused, as the core refuses
/// it, or else for that.
pub(crate) fn refuse(alloc: Global, tree: &mut Handle, txn: u64) -> NuzAnswer
    ensures { (whole : CallOf) → IsCallAsked tree.old.session txn whole result tree.new.session }
{
    let Some(session) = tree.take(alloc) else {
        return NuzAnswer::of(CLOSED, 0, 0);
    };
    let mut session = session;
    session.refuse_ask(TxnId(txn));
    let told = told_of(&session.last);
    tree.put(session);
    told
}

/// Answers that an argument is not valid: nothing changes.
pub(crate) fn bad_argument(alloc: Global, tree: &mut Handle) -> NuzAnswer
    ensures { IsBad tree.old.session result tree.new.session }
{
    let Some(session) = tree.take(alloc) else {
        return NuzAnswer::of(CLOSED, 0, 0);
    };
    tree.put(session);
    NuzAnswer::of(BAD, 0, 0)
}

/// Answers a call that could not be requested.
pub(crate) fn reject(alloc: Global, tree: &mut Handle, txn: u64, why: BadArgument) -> NuzAnswer
    ensures { (bad : Bool) (call : CallOf) → bad ≡ is_bad why
        → IsCalled bad tree.old.session txn call result tree.new.session }
{
    match why {
        BadArgument::Memory => refuse(alloc, tree, txn),
        BadArgument::Bad => bad_argument(alloc, tree),
    }
}

/// Returns a path of these bytes. One that has a null byte is bad. A path that is too long is cut:
/// only so much of it is copied that it is still too long.
pub(crate) fn path_of(alloc: Global, bytes: &[u8]) -> Result<FilePath, BadArgument>
    ensures { IsPath bytes.now result }
{
    let (kept, rest) = bytes.split_at(bytes.len().min(LONGEST_PATH + 1));
    if rest.contains(&0) {
        return Err(BadArgument::Bad);
    }
    match FilePath::new(alloc, kept) {
        Ok(path) => Ok(path),
        Err(PathFault::NulByte) => Err(BadArgument::Bad),
        Err(PathFault::Memory) => Err(BadArgument::Memory),
    }
}

/// Returns two paths of these bytes. They are bad if one of them has a null byte.
pub(crate) fn paths_of(
    alloc: Global,
    from: &[u8],
    to: &[u8],
) -> Result<(FilePath, FilePath), BadArgument>
    ensures { ArePaths from.now to.now result }
{
    match (path_of(alloc, from), path_of(alloc, to)) {
        (Ok(from), Ok(to)) => Ok((from, to)),
        (Err(BadArgument::Bad), _) | (_, Err(BadArgument::Bad)) => Err(BadArgument::Bad),
        (Err(BadArgument::Memory), _) | (_, Err(BadArgument::Memory)) => Err(BadArgument::Memory),
    }
}

/// Returns a mode of these bits. Every number above the largest mode becomes the one after the
/// largest.
pub(crate) fn mode_of(bits: u32) -> u16
    ensures { result ≡ cut_mode bits }
{
    bits.min(MOST_MODE as u32 + 1) as u16
}

/// Returns a copy of at most so many of these bytes.
pub(crate) fn bytes_of(alloc: Global, bytes: &[u8], most: u64) -> Result<Sequence<u8>, Memory>
    ensures { IfOk result (λ kept. kept ≡ take most bytes.now) }
{
    let count = (bytes.len() as u64).min(most) as usize;
    let kept = bytes[..count].to_vec(alloc)?;
    Ok(Sequence::from(kept))
}

/// Returns the limits of the tree of a handle; of a closed one, the default limits of a tree.
pub(crate) fn limits_of(alloc: Global, tree: &mut Handle) -> TreeLimits
    ensures limits { result ≡ limits_of tree.old.session }
    ensures same { tree.new.session ≡ tree.old.session }
{
    let Some(session) = tree.take(alloc) else {
        return TreeLimits::default();
    };
    let Limits {
        file_size,
        links,
        ..
    } = session.core.limits();
    tree.put(session);
    TreeLimits { file_size, links }
}

/// Returns how many bytes of a write a file could have. If it may have none, one is kept: to write
/// none is no error.
pub(crate) fn most_of(limits: TreeLimits) -> u64
    ensures { result ≡ most_of limits }
{
    limits.file_size.max(1)
}

/// Returns how many bytes could have room at a place. If none has, one is kept, for the same
/// reason.
pub(crate) fn most_at(limits: TreeLimits, off: i64) -> u64
    ensures { result ≡ most_at limits off }
{
    if off < 0 {
        return 1;
    }
    limits.file_size.saturating_sub(off.unsigned_abs()).max(1)
}

/// Returns the owner, the group or the mode of a number, if one is given.
pub(crate) fn given_of(number: u32) -> Option<u32>
    ensures { result ≡ given_of number }
{
    if number == u32::MAX {
        None
    } else {
        Some(number)
    }
}

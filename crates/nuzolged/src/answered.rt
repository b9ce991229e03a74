// Answers in C.
ghost use Rattle.std.specs.Prelude.{◌≡◌};
ghost use Rattle.nuzolged.specs.Answers.{IsTold, IsToldWith, first_blockers, first_of, blocker_or_none};

use crate::handle::Handle;
use crate::nuz_answer::{NuzAnswer, WAITS};
use ft_core::TxnId;
use std::alloc::Global;

/// The number of blockers for which an answer has room.
const BLOCKERS: usize = 8;

/// The outcome of a request, with what belongs to it: `nuz_answer` of the header.
///
/// It never gets larger: a member to come takes the place of a reserved one.
#[repr(C)]
#[derive(Clone, Copy, Debug, PartialEq, Eq)]
pub struct Answered {
    /// The outcome of the request, in numbers.
    pub told: NuzAnswer,
    /// How many bytes the reply to a line has.
    pub reply: u64,
    /// The first transactions for which a call waits, in rising order. A place of none has a 0.
    pub blockers: [u64; BLOCKERS],
    /// 0 each.
    pub reserved: [u64; 6],
}

/// Reports the outcome of a request of a tree: the code is returned too.
pub(crate) fn tell(alloc: Global, tree: &mut Handle, told: NuzAnswer, answer: &mut Answered) -> u32
    ensures same { tree.new.session ≡ tree.old.session }
    ensures told { answer.new.told ≡ told }
    ensures rest { IsTold tree.new.session result answer.new }
{
    tell_with(alloc, tree, told, 0, answer)
}

/// Reports the outcome of a request of a tree, with the length of a reply. Returns the code too.
pub(crate) fn tell_with(
    alloc: Global,
    tree: &mut Handle,
    told: NuzAnswer,
    reply: u64,
    answer: &mut Answered,
) -> u32
    ensures same { tree.new.session ≡ tree.old.session }
    ensures told { answer.new.told ≡ told }
    ensures rest { IsToldWith reply tree.new.session result answer.new }
{
    let blockers = if told.code == WAITS {
        blockers_held(alloc, tree)
    } else {
        [0; BLOCKERS]
    };
    *answer = Answered {
        told,
        reply,
        blockers,
        reserved: [0; 6],
    };
    told.code
}

/// Returns the first transactions for which the last call of a tree waits.
fn blockers_held(alloc: Global, tree: &mut Handle) -> [u64; BLOCKERS]
    ensures same { tree.new.session ≡ tree.old.session }
    ensures blockers { result ≡ first_blockers tree.old.session }
{
    let Some(session) = tree.take(alloc) else {
        return [0; BLOCKERS];
    };
    let blockers = first_of(session.last.blockers());
    tree.put(session);
    blockers
}

/// Returns the first transactions of a list.
fn first_of(blockers: &[TxnId]) -> [u64; BLOCKERS]
    ensures { result ≡ first_of blockers.now }
{
    [
        blocker_or_none(blockers, 0),
        blocker_or_none(blockers, 1),
        blocker_or_none(blockers, 2),
        blocker_or_none(blockers, 3),
        blocker_or_none(blockers, 4),
        blocker_or_none(blockers, 5),
        blocker_or_none(blockers, 6),
        blocker_or_none(blockers, 7),
    ]
}

/// Returns a transaction of a list, or 0 if there is none.
fn blocker_or_none(blockers: &[TxnId], index: usize) -> u64
    ensures { result ≡ blocker_or_none blockers.now index }
{
    match blockers.get(index) {
        None => 0,
        Some(txn) => txn.0,
    }
}

// The waits-for edges, and a deadlock.
ghost use Rattle.std.specs.Prelude.{◌≡◌};
ghost use Rattle.nuzolged.specs.Answers.{IsTold};
ghost use Rattle.nuzolged.specs.Waits.{AreBlockersTold, AreTold, HasBlockers, HasCycle, IsCycleTold, members_of};

use crate::answered::{Answered, tell};
use crate::handle::Handle;
use crate::nuz_answer::{CLOSED, MEMORY, NuzAnswer, fault_number};
use ft_base::Memory;
use ft_core::{Core, TxnId};
use ft_session::Session;
use ft_waits::{Verdict, judged_edges};
use std::alloc::Global;

/// Copies the transactions for which a transaction waits now. The answer holds how many there are,
/// and as many as have room are copied.
#[unsafe(no_mangle)]
pub extern "C" fn nuz_blockers(
    alloc: Global,
    tree: &mut Handle,
    txn: u64,
    txns: &mut [u64],
    answer: &mut Answered,
) -> u32
    ensures same { tree.new.session ≡ tree.old.session }
    ensures blockers { AreBlockersTold tree.old.session txn answer.new.told txns.old txns.new }
    ensures told { IsTold tree.new.session result answer.new }
{
    let told = blockers(alloc, tree, TxnId(txn), txns);
    tell(alloc, tree, told, answer)
}

/// Copies the transactions of a deadlock, if there is one. The answer holds how many there are, and
/// as many as have room are copied.
#[unsafe(no_mangle)]
pub extern "C" fn nuz_cycle(
    alloc: Global,
    tree: &mut Handle,
    txns: &mut [u64],
    answer: &mut Answered,
) -> u32
    ensures same { tree.new.session ≡ tree.old.session }
    ensures cycle { IsCycleTold tree.old.session answer.new.told txns.old txns.new }
    ensures told { IsTold tree.new.session result answer.new }
{
    let told = cycle(alloc, tree, txns);
    tell(alloc, tree, told, answer)
}

/// Copies the numbers of the transactions for which a transaction of a tree waits now.
fn blockers(alloc: Global, tree: &mut Handle, txn: TxnId, txns: &mut [u64]) -> NuzAnswer
    ensures same { tree.new.session ≡ tree.old.session }
    ensures told { AreBlockersTold tree.old.session txn result txns.old txns.new }
{
    match tree.take(alloc) {
        None => NuzAnswer::of(CLOSED, 0, 0),
        Some(session) => {
            let told = tell_blockers(&session, txn, txns);
            tree.put(session);
            told
        }
    }
}

/// Copies the numbers of the transactions of a deadlock of a tree, if there is one.
fn cycle(alloc: Global, tree: &mut Handle, txns: &mut [u64]) -> NuzAnswer
    ensures same { tree.new.session ≡ tree.old.session }
    ensures told { IsCycleTold tree.old.session result txns.old txns.new }
{
    match tree.take(alloc) {
        None => NuzAnswer::of(CLOSED, 0, 0),
        Some(session) => {
            let told = tell_cycle(&session.core, txns);
            tree.put(session);
            told
        }
    }
}

/// Copies the numbers of the transactions for which a transaction of a session waits now. Refuses a
/// transaction that may not retry.
fn tell_blockers(session: &Session, txn: TxnId, txns: &mut [u64]) -> NuzAnswer
    ensures { HasBlockers session.now txn result txns.old txns.new }
{
    if let Err(fault) = session.core.may_retry(txn) {
        return NuzAnswer::of(fault_number(fault), 0, 0);
    }
    match session.blockers(txn) {
        Err(Memory) => NuzAnswer::of(MEMORY, 0, 0),
        Ok(blockers) => tell_txns(blockers.as_slice(), txns),
    }
}

/// Copies the numbers of the transactions of a deadlock in a core, if there is one. Returns how
/// many there are.
fn tell_cycle(core: &Core, txns: &mut [u64]) -> NuzAnswer
    ensures { HasCycle core.now.state result txns.old txns.new }
{
    match judged_edges(core) {
        Err(Memory) => NuzAnswer::of(MEMORY, 0, 0),
        Ok((_, verdict)) => tell_txns(members_of(&verdict), txns),
    }
}

/// Returns the transactions of a cycle, if the verdict is a cycle, and none otherwise.
fn members_of(verdict: &Verdict) -> &[TxnId]
    ensures { result.now ≡ members_of verdict.now }
{
    match verdict {
        Verdict::Cycle(members) => members.as_slice(),
        Verdict::Ranked(_) => &[],
    }
}

/// Copies the numbers of transactions, as many as there is room for. Returns how many there are.
fn tell_txns(list: &[TxnId], txns: &mut [u64]) -> NuzAnswer
    ensures { AreTold list.now result txns.old txns.new }
{
    let count = list.len().min(txns.len());
    for place in 0..count {
        let txn = list[place];
        txns[place] = txn.0;
    }
    NuzAnswer::of(0, 0, list.len() as u64)
}

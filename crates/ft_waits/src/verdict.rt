// The verdict on waits-for edges.
ghost use Rattle.std.specs.Prelude.{◌≡◌, ◌<◌, ◌≤◌, ◌++◌, ℕ, IfOk, All, nat_eq, drop, take, length, slice_index};
ghost use Rattle.std.specs.List.{IsDistinct};
ghost use Rattle.std.specs.List.Sorted.{IsStrictlyIncreasing};
ghost use Rattle.ft_waits.specs.Waits.{IsCycle, BeginsWithLeast, HasNoCycle, RankAllNamed, AreRanks, FallAlong, IfCycle, IfRanked, IsVerdict, txns_of};
ghost use Rattle.ft_waits.specs.Walk.{AreInOrder};

use crate::edge::Edge;
use crate::walk::Walk;
use ft_base::{Memory, Sequence};
use ft_core::TxnId;
use std::alloc::Global;

/// The verdict on waits-for edges: a deadlock, or ranks in whose order all can end.
#[derive(Debug, PartialEq, Eq, Drop)]
pub enum Verdict {
    /// Each member waits for the next, and the last for the first. The least comes first.
    Cycle(Sequence<TxnId>),
    /// All transactions that the edges name, in rising order, each with its rank: 0 if it waits for
    /// none, else one more than the greatest rank of those that it waits for.
    Ranked(Sequence<(TxnId, u64)>),
}

/// Judges waits-for edges: in any order, however often each is there, between transactions of any
/// numbers.
///
/// Returns a cycle if there is one, and else the ranks. If there are several cycles, it is left
/// open which one it returns. An edge from a transaction to itself is a cycle of one member. Out of
/// memory is the only refusal. Takes time near linear in the number of edges, and a depth of calls
/// that does not grow with it.
pub fn judge(alloc: Global, edges: &[Edge]) -> Result<Verdict, Memory>
    ensures cycle { IfOk result (IfCycle (IsCycle edges.now)) }
    ensures distinct { IfOk result (IfCycle (IsDistinct nat_eq)) }
    ensures least { IfOk result (IfCycle BeginsWithLeast) }

    ensures named { IfOk result (IfRanked (RankAllNamed edges.now)) }
    ensures rising { IfOk result (IfRanked (λ ranks. IsStrictlyIncreasing (txns_of ranks))) }
    ensures ranks { IfOk result (IfRanked (AreRanks edges.now)) }
    ensures falls { IfOk result (IfRanked (FallAlong edges.now)) }
    ensures no_cycle { IfOk result (IfRanked (λ _. HasNoCycle edges.now)) }
{
    let mut sorted = Vec::from_slice(alloc, edges)?;
    sorted.sort_unstable_by_key(|edge| edge.from.0);
    judge_sorted(alloc, sorted.as_slice())
}

/// Returns the verdict on edges that are in the order of the transactions from which they lead.
fn judge_sorted(alloc: Global, edges: &[Edge]) -> Result<Verdict, Memory>
    requires { AreInOrder edges.now }
    ensures { IfOk result (IsVerdict edges.now) }
{
    let mut walk = Walk::new(alloc, edges)?;
    for edge in edges {
        if let Some(mut members) = walk.visit(edge.from)? {
            turn_to_least(&mut members);
            return Ok(Verdict::Cycle(members.into()));
        }
    }
    Ok(Verdict::Ranked(walk.ranks_list()?.into()))
}

/// Turns a cycle so that its least member comes first.
fn turn_to_least(members: &mut [TxnId])
    ensures turned { (place : ℕ)
        × (members.new ≡ drop place members.old ++ take place members.old) }
    ensures least { BeginsWithLeast members.new }
{
    let place = place_of_least(members);
    members.rotate_left(place);
}

/// Returns the place of a member that none is less than; 0 if there is none.
fn place_of_least(members: &[TxnId]) -> usize
    ensures within { result ≤ length members.now }
    ensures inside { 0 < length members.now → result < length members.now }
    ensures least { All (λ txn. slice_index members.now result ≤ txn) members.now }
{
    let mut least = 0;
    for (place, member) in members.iter().enumerate() {
        if *member < members[least] {
            least = place;
        }
    }
    least
}

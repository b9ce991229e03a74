// The transaction on a cycle of waits that is aborted to break it.
ghost use Rattle.std.specs.Prelude.{◌≡◌, ◌<◌, ◌≤◌, [], IfOk, MatchOption, All, length, slice_index};
ghost use Rattle.ft_waits.specs.Cycles.{HasNoDeadlock};
ghost use Rattle.ft_shared.specs.Victims.{is_lock, is_member, keeps_waiting, waits_itself, is_between, victim_rank, IsVictimAmong, IsVictimOf};

use ft_base::Memory;
use ft_core::{Core, TxnId};
use ft_waits::{Edge, EdgeKind, Verdict, judged_edges};

/// Returns the transaction that is aborted to break a cycle of waits of a core as it is now, if
/// there is a cycle. If there are several, it is left open which one it is on.
///
/// It is the youngest of those on the cycle that wait for a lock, and for a lock of which another
/// one on it waits; if there is none of these, the youngest of all. (That other one goes on once
/// the lock is released. If nobody but its parent waited for the victim, the same cycle would come
/// back with the next try of the victim's work; and one that waits for its children has more work
/// to lose.) Out of memory is the only refusal.
pub(crate) fn victim_of(core: &Core) -> Result<Option<TxnId>, Memory>
    ensures { IfOk result (λ found. MatchOption found (HasNoDeadlock core.now.state)
        (IsVictimOf core.now.state)) }
{
    let (edges, verdict) = judged_edges(core)?;
    match verdict {
        Verdict::Cycle(members) => Ok(victim_among(edges.as_slice(), members.as_slice())),
        Verdict::Ranked(_) => Ok(None),
    }
}

/// Returns the victim among the members of a cycle.
fn victim_among(edges: &[Edge], members: &[TxnId]) -> Option<TxnId>
    ensures { MatchOption result (members.now ≡ []) (IsVictimAmong edges.now members.now) }
{
    if members.is_empty() {
        return None;
    }
    Some(members[place_of_victim(edges, members)])
}

/// Returns the place of the victim among the members of a cycle; 0 if there are none.
fn place_of_victim(edges: &[Edge], members: &[TxnId]) -> usize
    ensures within { result ≤ length members.now }
    ensures inside { 0 < length members.now → result < length members.now }
    ensures greatest { All (λ txn. victim_rank edges.now members.now txn
        ≤ victim_rank edges.now members.now (slice_index members.now result)) members.now }
{
    let mut victim = 0;
    for (place, member) in members.iter().enumerate() {
        if victim_rank(edges, members, *member) > victim_rank(edges, members, members[victim]) {
            victim = place;
        }
    }
    victim
}

/// Returns a number that is greater for a transaction between locks than for any other, and
/// greater for a younger one than for an older one.
fn victim_rank(edges: &[Edge], members: &[TxnId], txn: TxnId) -> u128
    ensures { result ≡ victim_rank edges.now members.now txn }
{
    if is_between(edges, members, txn) {
        return u128::from(txn.0) + (1 << 64);
    }
    u128::from(txn.0)
}

/// Returns whether a transaction waits for a lock of a member, and a member for a lock of it.
fn is_between(edges: &[Edge], members: &[TxnId], txn: TxnId) -> bool
    ensures { result ≡ is_between edges.now members.now txn }
{
    keeps_waiting(edges, members, txn) && waits_itself(edges, members, txn)
}

/// Returns whether a member waits for a lock of this transaction.
fn keeps_waiting(edges: &[Edge], members: &[TxnId], txn: TxnId) -> bool
    ensures { result ≡ keeps_waiting edges.now members.now txn }
{
    edges.iter().any(|edge| is_lock(edge.kind) && edge.to == txn && is_member(members, edge.from))
}

/// Returns whether this transaction waits for a lock of a member.
fn waits_itself(edges: &[Edge], members: &[TxnId], txn: TxnId) -> bool
    ensures { result ≡ waits_itself edges.now members.now txn }
{
    edges.iter().any(|edge| is_lock(edge.kind) && edge.from == txn && is_member(members, edge.to))
}

/// Returns whether the reason of a wait is a lock.
fn is_lock(kind: EdgeKind) -> bool
    ensures { result ≡ is_lock kind }
{
    matches!(kind, EdgeKind::Lock)
}

/// Returns whether a transaction is one of these.
pub(crate) fn is_member(members: &[TxnId], txn: TxnId) -> bool
    ensures { result ≡ is_member members.now txn }
{
    members.iter().any(|member| *member == txn)
}

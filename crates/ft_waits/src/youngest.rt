// The youngest transaction on a cycle of waits.
ghost use Rattle.std.specs.Prelude.{◌≡◌, ◌<◌, ◌≤◌, [], IfOk, MatchOption, All, length, slice_index};
ghost use Rattle.ft_waits.specs.Cycles.{HasNoDeadlock, IsYoungest, IsYoungestOnCycle};

use crate::listing::judged_edges;
use crate::verdict::Verdict;
use ft_base::Memory;
use ft_core::{Core, TxnId};

/// Returns the youngest transaction on a cycle of waits of a core as it is now, if there is a
/// cycle. It was begun last, and so has the greatest number.
///
/// If there are several cycles, it is left open which one it is on. Out of memory is the only
/// refusal.
pub fn youngest_on_cycle(core: &Core) -> Result<Option<TxnId>, Memory>
    ensures { IfOk result (λ found. MatchOption found (HasNoDeadlock core.now.state)
        (IsYoungestOnCycle core.now.state)) }
{
    let (_, verdict) = judged_edges(core)?;
    match verdict {
        Verdict::Cycle(members) => Ok(youngest(members.as_slice())),
        Verdict::Ranked(_) => Ok(None),
    }
}

/// Returns the one of some transactions that was begun last.
fn youngest(members: &[TxnId]) -> Option<TxnId>
    ensures { MatchOption result (members.now ≡ []) (IsYoungest members.now) }
{
    if members.is_empty() {
        return None;
    }
    Some(members[place_of_youngest(members)])
}

/// Returns the place of the one that was begun last; 0 if there are none.
fn place_of_youngest(members: &[TxnId]) -> usize
    ensures within { result ≤ length members.now }
    ensures inside { 0 < length members.now → result < length members.now }
    ensures youngest { All (λ txn. txn ≤ slice_index members.now result) members.now }
{
    let mut youngest = 0;
    for (place, member) in members.iter().enumerate() {
        if *member > members[youngest] {
            youngest = place;
        }
    }
    youngest
}

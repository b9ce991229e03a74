// The serial order of a core.
ghost use Rattle.std.specs.Prelude.{◌≡◌, ◌++◌, [], IfOk, OnOk, map, slice_get};
ghost use Rattle.std.specs.FinMap as finite;
ghost use Rattle.ft_core.specs.States.{history};
ghost use Rattle.ft_core.specs.Reached.{IsReached};
ghost use Rattle.ft_posix.specs.Posix.{posix_calls};
ghost use Rattle.ft_history.specs.Forest.{root};
ghost use Rattle.ft_history.specs.History.{is_committed, parent as parent_of};
ghost use Rattle.ft_history.specs.Serial.{open_part};
ghost use Rattle.ft_serial.specs.Serials.{serial_calls, stamped};
ghost use Rattle.ft_serial.specs.Walks.{call_of, is_open_call, IsWalk};

use crate::top_level::find_top;
use crate::walk::Walk;
use ft_base::Memory;
use ft_calls::StampedCall;
use ft_core::{Core, Event, State, TxnId};
use ft_record::Recorded;
use std::alloc::Global;

/// Returns all standing calls in the serial order: those of the top-level transactions that have
/// committed, in the order of the commits, and after them all others; the calls of one transaction,
/// and those others, in the order of their stamps.
///
/// Out of memory is the only refusal. Takes the time of the history, and for each call that of its
/// asker's depth.
pub fn serial(core: &Recorded) -> Result<Vec<StampedCall>, Memory>
    ensures { IfOk result (λ calls. calls.items ≡ serial_calls core.now.state) }
{
    let mut walk = Walk::new(core.alloc());
    let mut calls = Vec::new(core.alloc());
    while let Some(call) = walk.next(core.core(), core.history())? {
        calls.push(call)?;
    }
    list_open(core, &walk, &mut calls)?;
    Ok(calls)
}

/// Lists the standing calls whose top-level transaction has not committed, in the order of their
/// stamps.
fn list_open(core: &Recorded, walk: &Walk, calls: &mut Vec<StampedCall>) -> Result<(), Memory>
    requires { IsWalk 0 walk.now core.now.state.events calls.old.items }
    ensures { OnOk result (calls.new.items ≡ calls.old.items
        ++ map stamped (open_part posix_calls (history core.now.state))) }
{
    let events = core.history();
    for place in 0..events.len() {
        if is_open_at(core, walk, place) {
            if let Some(call) = copy_at(core.alloc(), events, place)? {
                calls.push(call)?;
            }
        }
    }
    Ok(())
}

/// Returns another one of the call that was granted at a place among the events, if one was.
fn copy_at(alloc: Global, events: &[Event], place: usize) -> Result<Option<StampedCall>, Memory>
    ensures { IfOk result (λ call. call ≡ call_of (slice_get events.now place)) }
{
    let Some(Event::Call { stamp, call, .. }) = events.get(place) else {
        return Ok(None);
    };
    Ok(Some(StampedCall {
        stamp: *stamp,
        call: call.copy(alloc)?,
    }))
}

/// Returns whether a standing call was granted at a place among the events, and its top-level
/// transaction has not committed.
fn is_open_at(core: &Recorded, walk: &Walk, place: usize) -> bool
    requires { IsReached core.now }
    ensures { result ≡ is_open_call (finite.contains_key walk.now.undone) (history core.now.state)
        (slice_get core.now.state.events place) }
{
    let Some(Event::Call { stamp, txn, .. }) = core.history().get(place) else {
        return false;
    };
    walk.stands(core.core(), *stamp, *txn) && !has_committed(core.core(), *txn)
}

/// Returns whether the top-level transaction at or above a transaction has committed.
fn has_committed(core: &Core, txn: TxnId) -> bool
    requires { IsReached core.now }
    ensures { result ≡ is_committed posix_calls (history core.now.state)
        (root (parent_of posix_calls (history core.now.state)) txn) }
{
    match core.fate(find_top(core, txn).top) {
        Some(State::Committed) => true,
        Some(State::Live | State::Aborted) => false,
        None => false,
    }
}

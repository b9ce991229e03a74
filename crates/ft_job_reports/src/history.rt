// Facts of a transaction in the history.
ghost use Rattle.std.specs.Prelude.{◌≡◌, ◌↔◌, cond, Some, is_some, IsTrue};
ghost use Rattle.ft_posix.specs.Posix.{posix_calls};
ghost use Rattle.ft_history.specs.History.{parent};
ghost use Rattle.ft_history.specs.History.Fate.{Committed as WasCommitted, Aborted as WasAborted};
ghost use Rattle.ft_core.specs.Histories.{told};
ghost use Rattle.ft_core.specs.States.{fate_of};
ghost use Rattle.ft_job_reports.specs.Reports.{calls_of, had_committed, stamps_rise};
ghost use Rattle.ft_job_reports.specs.Reading.{granted_by, parent_after, seen_after};

use crate::report::CallReport;
use ft_core::{Event, State, TxnId};
use ft_record::Recorded;

/// Returns whether these are all calls that a transaction was granted, in their order.
pub fn are_calls_of(events: &[Event], txn: TxnId, calls: &[CallReport]) -> bool
    ensures { IsTrue result ↔ (calls_of (told events.now) txn ≡ calls.now) }
{
    let mut made = 0;
    for event in events {
        if is_call_of(event, txn) {
            match calls.get(made) {
                None => return false,
                Some(call) if is_told(event, txn, call) => made += 1,
                Some(_) => return false,
            }
        }
    }
    made == calls.len()
}

/// Returns whether the event is a call of the transaction.
fn is_call_of(event: &Event, txn: TxnId) -> bool
    ensures { result ≡ is_some (granted_by txn event.now) }
{
    match event {
        Event::Call { txn: asker, .. } => *asker == txn,
        _ => false,
    }
}

/// Returns whether the event is a call of a transaction, granted with this reply.
fn is_told(event: &Event, txn: TxnId, told: &CallReport) -> bool
    ensures { IsTrue result ↔ (granted_by txn event.now ≡ Some told.now) }
{
    match event {
        Event::Call {
            stamp,
            txn: asker,
            call,
            reply,
            ..
        } => { *asker == txn && *stamp == told.stamp && told.is_of(call) && told.has_reply(reply) }
        _ => false,
    }
}

/// Returns whether each stamp is greater than the one before.
pub fn has_rising_stamps(calls: &[CallReport]) -> bool
    ensures { result ≡ stamps_rise 0 calls.now }
{
    let mut before = 0;
    for call in calls {
        if call.stamp <= before {
            return false;
        }
        before = call.stamp;
    }
    true
}

/// Returns the parent of a transaction, if it has one.
#[tactic(auto, using(crate::proofs::Told::parent_is))]
pub fn parent_of(events: &[Event], txn: TxnId) -> Option<TxnId>
    ensures { result ≡ parent posix_calls (told events.now) txn }
{
    let mut parent = None;
    for event in events {
        parent = parent_after(event, txn, parent);
    }
    parent
}

/// Returns the parent of a transaction after the event, if this was its parent before.
fn parent_after(event: &Event, txn: TxnId, before: Option<TxnId>) -> Option<TxnId>
    ensures { result ≡ parent_after txn before event.now }
{
    match event {
        Event::Begin { txn: begun, parent } if txn == *begun => *parent,
        _ => before,
    }
}

/// Returns whether one transaction had committed when another one was begun.
#[tactic(auto, using(crate::proofs::Begun::had_is))]
pub fn had_committed(events: &[Event], txn: TxnId, before: TxnId) -> bool
    ensures { result ≡ had_committed (told events.now) txn before }
{
    let mut seen = Seen {
        committed: false,
        had: false,
    };
    for event in events {
        seen = seen_after(event, txn, before, seen);
    }
    seen.had
}

/// The facts of one transaction with another.
#[derive(Clone, Copy)]
struct Seen {
    /// It has committed.
    committed: bool,
    /// It had committed when the other one was begun.
    had: bool,
}

/// Returns what is seen after the event, if this was seen before.
fn seen_after(event: &Event, txn: TxnId, before: TxnId, seen: Seen) -> Seen
    ensures { result ≡ seen_after txn before seen event.now }
{
    match event {
        Event::Begin { txn: begun, .. } if txn == *begun => Seen {
            committed: seen.committed,
            had: seen.committed,
        },
        Event::Commit { txn: ended } if before == *ended => Seen {
            committed: true,
            had: seen.had,
        },
        _ => seen,
    }
}

/// Returns whether a transaction has ended, committed or aborted as it says here.
#[tactic(auto, using(crate::proofs::Ending::ended_is))]
pub fn has_ended(core: &Recorded, txn: TxnId, committed: bool) -> bool
    ensures { IsTrue result ↔ (fate_of core.now.state txn
        ≡ Some (cond committed WasCommitted WasAborted)) }
{
    match core.fate(txn) {
        Some(State::Committed) => committed,
        Some(State::Aborted) => !committed,
        Some(State::Live) | None => false,
    }
}

// The requests of job threads to the transactions that they share.
ghost use Rattle.std.specs.Prelude.{◌≤◌, All};
ghost use Rattle.ft_core.specs.States.{State};
ghost use Rattle.ft_shared.specs.Victims.{WasVictim};

use crate::shared::Shared;
use crate::sharing::Sharing;
use ft_calls::Call;
use ft_core::{Fault, Outcome, TxnId};
use ft_record::Recorded;
use std::sync::Wait;
use std::time::Clock;

/// The requests of job threads to the transactions that they share.
///
/// No answer is promised to be true: the caller that takes a manager must find out for itself, when
/// it has the core back. A manager may promise something of that core (`hands_back`). Only its list
/// of victims is promised: each was aborted to break a deadlock.
pub trait Manager: Sync {
    // A fact of the state of the core that is handed back. By default nothing is said.
    ghost hands_back: { State → Type 0 } = { λ _. Unit {0} };

    /// Begins a top-level transaction.
    fn begin<R: Wait>(&self, rt: &R) -> Result<TxnId, Fault>;

    /// Begins a subtransaction.
    fn sub<R: Wait>(&self, rt: &R, parent: TxnId) -> Result<TxnId, Fault>;

    /// Asks for a call up to so many times, until it is granted or refused. At least once.
    fn ask_wait<R: Wait + Clock>(
        &self,
        rt: &R,
        txn: TxnId,
        call: &Call,
        turns: u64,
    ) -> Result<Outcome, Fault>
        requires { 1 ≤ turns };

    /// Commits a transaction.
    fn commit<R: Wait>(&self, rt: &R, txn: TxnId) -> Result<(), Fault>;

    /// Aborts a transaction with all that is live below it, and returns how many standing calls it
    /// undoes.
    fn abort<R: Wait>(&self, rt: &R, txn: TxnId) -> Result<u64, Fault>;

    /// Breaks a cycle of waits, if there is one, by the abort of one transaction on it, and returns
    /// that. The transaction is a victim from then on.
    fn break_deadlock<R: Wait>(&self, rt: &R) -> Result<Option<TxnId>, Fault>;

    /// Returns whether a transaction is a victim.
    fn is_victim<R: Wait>(&self, rt: &R, txn: TxnId) -> bool;

    /// Ends the manager, and gives the core back, with the victims.
    fn into_parts<R: Wait>(self, rt: &R) -> (Recorded, Vec<TxnId>)
        ensures core { hands_back result.0.state }
        ensures victims { All (WasVictim result.0.state) result.1.items };
}

impl<J: Sharing> Manager for Shared<J, Recorded> {
    ghost use Rattle.ft_record.specs.Going.{GoesOn};

    // It goes on from what was shared.
    ghost hands_back = { GoesOn J.origin.from };

    fn begin<R: Wait>(&self, rt: &R) -> Result<TxnId, Fault> {
        self.begin(rt)
    }

    fn sub<R: Wait>(&self, rt: &R, parent: TxnId) -> Result<TxnId, Fault> {
        self.sub(rt, parent)
    }

    fn ask_wait<R: Wait + Clock>(
        &self,
        rt: &R,
        txn: TxnId,
        call: &Call,
        turns: u64,
    ) -> Result<Outcome, Fault> {
        self.ask_wait(rt, txn, call, turns)
    }

    fn commit<R: Wait>(&self, rt: &R, txn: TxnId) -> Result<(), Fault> {
        self.commit(rt, txn)
    }

    fn abort<R: Wait>(&self, rt: &R, txn: TxnId) -> Result<u64, Fault> {
        self.abort(rt, txn)
    }

    fn break_deadlock<R: Wait>(&self, rt: &R) -> Result<Option<TxnId>, Fault> {
        self.break_deadlock(rt)
    }

    fn is_victim<R: Wait>(&self, rt: &R, txn: TxnId) -> bool {
        self.is_victim(rt, txn)
    }

    fn into_parts<R: Wait>(self, rt: &R) -> (Recorded, Vec<TxnId>) {
        self.into_parts(rt)
    }
}

// A core behind a lock.
ghost use Rattle.std.specs.Prelude.{◌≡◌, ◌≤◌, length, IfOk, IfErr, IsTrue, OnOk, All};
ghost use Rattle.ft_core.specs.declared.fault.Fault.TheVariants.{Memory as MemoryFault, Live as LiveFault};
ghost use Rattle.ft_core.specs.declared.request.Request.TheVariants.{Begin, Sub, Ask, Retry, Drop as DropAsk, Commit, Abort, Undo};
ghost use Rattle.ft_core.specs.declared.request.Answer.TheVariants.{Txn, Dropped, Committed, Aborted, Undone};
ghost use Rattle.ft_core.specs.Living.{SomeIsLive, NoneIsLive};
ghost use Rattle.ft_core.specs.Steps.{IsStep, exact_rule, answer_with, outcome_answer};
ghost use Rattle.ft_waits.specs.Edges.{AreEdgesOf};
ghost use Rattle.ft_waits.specs.Waits.{IsVerdict};
ghost use Rattle.ft_record.specs.Going.{GoesOn};
ghost use Rattle.ft_serial.specs.Serials.{committed_calls};
ghost use Rattle.ft_shared.specs.Guarded.{OfCoreFrom, InCoreFrom, IsAborted, IsUndone};
ghost use Rattle.ft_shared.specs.Origins.{without_views};
ghost use Rattle.ft_shared.specs.Publishing.{fault_of_publish};
ghost use Rattle.ft_shared.specs.Victims.{Breaks, WasVictim};

use crate::guarded::Guarded;
use crate::shareable::Shareable;
use crate::sharing::{Sharing, ViewsOf};
use ft_base::Memory;
use ft_calls::Call;
use ft_core::{Core, Fault, Outcome, State, TxnId};
use ft_record::Recorded;
use ft_view::Receipt;
use ft_waits::{Edge, Verdict, edges, with_verdict};
use std::alloc::Global;
use std::marker::Brand;
use std::sync::{Condvar, CondvarTimeouts, Mutex, MutexGuard, Wait};
use std::time::{Clock, Duration};

/// How long a waiting thread pauses at most before it asks again, in milliseconds.
pub const MOST_PAUSE: u64 = 5;

/// Transactions that threads share: a core behind a lock.
///
/// Each call makes one call of the core, or reads it, in one holding of the lock; a commit or an
/// abort that is not refused also sweeps, in the same holding, what it has released. A `Core` is
/// behind the lock: whenever the lock is taken, its history is a legal one from a sound base, which
/// goes on from the state that was shared (`J` names that state), and its tree is what a plain tree
/// holds after only the standing calls. No clause can say how far it had come: each says that the
/// answer is a legal one of some core that goes on from there (`InCoreFrom`). No clause states that
/// a call returns.
///
/// There is no checkpoint here: once as many transactions were begun, or calls granted, since the
/// base as the limits of the core allow, it is `Full` for good, until `into_core` gives it back.
pub struct Shared<J: Sharing = Brand, C: Shareable = Recorded> {
    behind: Mutex<Guarded<J, C>>,
    // For copies of calls, which are made before the lock is got.
    alloc: Global,
    // A transaction has committed or is aborted.
    ended: Condvar,
}

/// A core that can't be shared, and why.
#[derive(Drop)]
pub struct Refused<C = Recorded> {
    pub core: C,
    pub fault: Fault,
}

impl<J: Sharing, C: Shareable> Shared<J, C> {
    /// Puts a core behind a lock. Takes no memory.
    ///
    /// Refuses Live if a transaction is live, and hands the core back.
    pub fn new(core: C) -> Result<Shared<J, C>, Refused<C>>
        requires { without_views (C.stored core).state ≡ J.origin }
        ensures shared { OnOk result (NoneIsLive (C.stored core).state) }
        ensures refused { IfErr result (λ refused. (refused.core ≡ core)
            × (refused.fault ≡ LiveFault) × SomeIsLive (C.stored core).state) }
    {
        if core.core().has_live() {
            return Err(Refused {
                core,
                fault: Fault::Live,
            });
        }
        Ok(Shared::over(Guarded::alone(core)))
    }

    /// Puts a core behind a lock, with its views if it has any.
    pub(crate) fn over(behind: Guarded<J, C>) -> Shared<J, C> {
        Shared {
            alloc: behind.core().alloc(),
            behind: Mutex::new(behind),
            ended: Condvar::new(),
        }
    }

    /// Begins a top-level transaction.
    ///
    /// Refuses Full if there are as many transactions as there may be.
    pub fn begin<R: Wait>(&self, rt: &R) -> Result<TxnId, Fault>
        ensures some_core { InCoreFrom
            J.origin.from (λ old new. IsStep exact_rule old Begin (answer_with Txn result) new) }
    {
        let mut behind = self.behind.lock(rt);
        let answer = behind.begin();
        MutexGuard::unlock(behind);
        answer
    }

    /// Begins a subtransaction.
    ///
    /// Refuses NoTxn, Ended, Deep if the parent is as deep as one may be, and Full, in this order.
    pub fn sub<R: Wait>(&self, rt: &R, parent: TxnId) -> Result<TxnId, Fault>
        ensures some_core { InCoreFrom
            J.origin.from (λ old new. IsStep exact_rule old (Sub parent) (answer_with Txn result)
            new) }
    {
        let mut behind = self.behind.lock(rt);
        let answer = behind.sub(parent);
        MutexGuard::unlock(behind);
        answer
    }

    /// Makes a call in a transaction, or returns which transactions it waits for.
    ///
    /// Refuses NoTxn, Ended, and Full if as many calls are granted as may be, in this order.
    pub fn ask<R: Wait>(&self, rt: &R, txn: TxnId, call: Call) -> Result<Outcome, Fault>
        ensures some_core { InCoreFrom
            J.origin.from (λ old new. IsStep exact_rule old (Ask txn call)
            (answer_with outcome_answer result) new) }
    {
        let mut behind = self.behind.lock(rt);
        let answer = behind.ask(txn, call);
        MutexGuard::unlock(behind);
        answer
    }

    /// Requests a call up to so many times, until it is granted or refused, and returns that; else
    /// the last answer of which transactions it waits for. A call that waits remains the
    /// transaction's ask.
    ///
    /// Between two asks the thread pauses, with the lock free: until one of the transactions that
    /// the last answer named has committed or is aborted, or for `MOST_PAUSE` by the clock. Nothing
    /// else that happens meanwhile ends the pause, so that it uses up no turn. The waiting takes no
    /// memory; each ask copies the call, before it gets the lock. Refuses what `ask` refuses, in
    /// its order.
    pub fn ask_wait<R: Wait + Clock>(
        &self,
        rt: &R,
        txn: TxnId,
        call: &Call,
        turns: u64,
    ) -> Result<Outcome, Fault>
        requires { 1 ≤ turns }
        ensures some_core { InCoreFrom
            J.origin.from (λ old new. IsStep exact_rule old (Ask txn call.now)
            (answer_with outcome_answer result) new) }
    {
        for _ in 1..turns {
            match self.turn(rt, txn, call) {
                Ok(Outcome::Waits { blockers }) => self.pause(rt, blockers.as_slice()),
                answer => return answer,
            }
        }
        self.turn(rt, txn, call)
    }

    /// Asks once, for a copy of the call.
    fn turn<R: Wait>(&self, rt: &R, txn: TxnId, call: &Call) -> Result<Outcome, Fault>
        ensures some_core { InCoreFrom
            J.origin.from (λ old new. IsStep exact_rule old (Ask txn call.now)
            (answer_with outcome_answer result) new) }
    {
        match call.copy(self.alloc) {
            Ok(copy) => self.ask(rt, txn, copy),
            // Other refusals come before Memory, and the core returns the right one.
            Err(Memory) => self.ask_copy(rt, txn, call),
        }
    }

    /// Makes a copy of a call, as `ask` makes a call. The copy is made while the lock is held.
    fn ask_copy<R: Wait>(&self, rt: &R, txn: TxnId, call: &Call) -> Result<Outcome, Fault>
        ensures some_core { InCoreFrom
            J.origin.from (λ old new. IsStep exact_rule old (Ask txn call.now)
            (answer_with outcome_answer result) new) }
    {
        let mut behind = self.behind.lock(rt);
        let answer = behind.ask_copy(txn, call);
        MutexGuard::unlock(behind);
        answer
    }

    /// Pauses until one of these transactions is not live any more, or for `MOST_PAUSE`. The core
    /// is looked at before each sleep, so that one that has ended since the ask is seen at once.
    fn pause<R: Wait + Clock>(&self, rt: &R, blockers: &[TxnId]) {
        let most = Duration::from_millis(MOST_PAUSE);
        let behind = self.behind.lock(rt);
        let (behind, _) = self.ended.wait_timeout_while(
            rt,
            behind,
            most,
            |behind| are_live(behind.core(), blockers),
        );
        MutexGuard::unlock(behind);
    }

    /// Makes the call that a transaction waits for, or returns again which transactions it waits
    /// for.
    ///
    /// Refuses NoTxn, Ended, NoAsk, and Full if as many calls are granted as may be, in this order.
    pub fn retry<R: Wait>(&self, rt: &R, txn: TxnId) -> Result<Outcome, Fault>
        ensures some_core { InCoreFrom
            J.origin.from (λ old new. IsStep exact_rule old (Retry txn)
            (answer_with outcome_answer result) new) }
    {
        let mut behind = self.behind.lock(rt);
        let answer = behind.retry(txn);
        MutexGuard::unlock(behind);
        answer
    }

    /// Forgets the call that a transaction waits for. Takes no memory.
    ///
    /// Refuses NoTxn, Ended and NoAsk, in this order.
    pub fn drop_ask<R: Wait>(&self, rt: &R, txn: TxnId) -> Result<(), Fault>
        ensures some_core { InCoreFrom
            J.origin.from (λ old new. IsStep exact_rule old (DropAsk txn)
            (answer_with (λ done. Dropped) result) new) }
    {
        let mut behind = self.behind.lock(rt);
        let answer = behind.drop_ask(txn);
        MutexGuard::unlock(behind);
        answer
    }

    /// Commits a transaction: its locks and the inverses of its calls are its parent's from then
    /// on. At the top level its locks are released, and its calls can no longer be undone. Takes no
    /// memory.
    ///
    /// Refuses NoTxn, Ended, and ChildLive if it has a live child, in this order.
    pub fn commit<R: Wait>(&self, rt: &R, txn: TxnId) -> Result<(), Fault>
        ensures some_core { InCoreFrom
            J.origin.from (λ old new. IsStep exact_rule old (Commit txn)
            (answer_with (λ done. Committed) result) new) }
    {
        let mut behind = self.behind.lock(rt);
        let answer = behind.commit(txn);
        MutexGuard::unlock(behind);
        if answer.is_ok() {
            self.ended.notify_all();
        }
        answer
    }

    /// Aborts a transaction with all that is live below it, and returns how many standing calls it
    /// undoes. If it ran alone, the tree is that of its begin. Takes no memory.
    ///
    /// Refuses NoTxn and Ended, in this order.
    pub fn abort<R: Wait>(&self, rt: &R, txn: TxnId) -> Result<u64, Fault>
        ensures some_core { InCoreFrom
            J.origin.from (λ old new. IsAborted old txn (answer_with Aborted result) new) }
    {
        let mut behind = self.behind.lock(rt);
        let answer = behind.abort(txn);
        MutexGuard::unlock(behind);
        if answer.is_ok() {
            self.ended.notify_all();
        }
        answer
    }

    /// Undoes the last of a transaction's own standing calls, and returns its stamp. If it was the
    /// call just made, the tree is the one before it. Takes no memory.
    ///
    /// Refuses, in this order, NoTxn, Ended, ChildLive, and then NothingToUndo if there is none or
    /// SubSince if a child has committed since.
    pub fn undo_call<R: Wait>(&self, rt: &R, txn: TxnId) -> Result<u64, Fault>
        ensures some_core { InCoreFrom
            J.origin.from (λ old new. IsUndone old txn (answer_with Undone result) new) }
    {
        let mut behind = self.behind.lock(rt);
        let answer = behind.undo_call(txn);
        MutexGuard::unlock(behind);
        answer
    }

    /// Returns the waits-for edges of the core, each once, in their order, and whether there is a
    /// cycle of exactly these.
    ///
    /// Out of memory is the only refusal.
    pub fn waits<R: Wait>(&self, rt: &R) -> Result<(Vec<Edge>, Verdict), Memory>
        ensures edges { IfOk result
            (λ told. OfCoreFrom J.origin.from (λ state. AreEdgesOf state told.0.items)) }
        ensures verdict { IfOk result (λ told. IsVerdict told.0.items told.1) }
    {
        let edges = self.list_edges(rt)?;
        with_verdict(edges)
    }

    /// Returns the waits-for edges of the core, each once, in their order. The lock is free when it
    /// returns.
    fn list_edges<R: Wait>(&self, rt: &R) -> Result<Vec<Edge>, Memory>
        ensures { IfOk result (λ edges. OfCoreFrom
            J.origin.from (λ state. AreEdgesOf state edges.items)) }
    {
        let behind = self.behind.lock(rt);
        let edges = edges(behind.core());
        MutexGuard::unlock(behind);
        edges
    }

    /// Breaks a cycle of waits, if there is one, by the abort of one transaction on it, and returns
    /// that. If there are several cycles, one of them is broken.
    ///
    /// The youngest on it is aborted of those that wait for a lock, and for a lock of which another
    /// one on it waits; if there is none of these, the youngest of all. The cycle is found and the
    /// abort made in one holding of the lock. Refuses Memory.
    pub fn break_deadlock<R: Wait>(&self, rt: &R) -> Result<Option<TxnId>, Fault>
        ensures some_core { IfOk result
            (λ victim. InCoreFrom J.origin.from (λ old new. Breaks victim old new)) }
    {
        let mut behind = self.behind.lock(rt);
        let answer = behind.break_deadlock();
        MutexGuard::unlock(behind);
        let is_broken = matches!(answer, Ok(Some(_)));
        if is_broken {
            self.ended.notify_all();
        }
        answer
    }

    /// Returns whether a transaction was aborted by `break_deadlock`.
    pub fn is_victim<R: Wait>(&self, rt: &R, txn: TxnId) -> bool
        ensures { IsTrue result
            → OfCoreFrom J.origin.from (λ state. WasVictim state txn) }
    {
        let behind = self.behind.lock(rt);
        let is = behind.is_victim(txn);
        MutexGuard::unlock(behind);
        is
    }

    /// Publishes the committed calls that are not published yet, and returns how many are published
    /// then, with a receipt of that list. Readers that learn the receipt see no older one from then
    /// on.
    ///
    /// It holds the lock while it replays the new calls, and while a reader that came before still
    /// looks at the list before: a reader holds it up for one answer, and takes no lock meanwhile.
    /// Refuses NoViews if the core has none, and then Memory, and then nothing more is published.
    pub fn publish<R: Wait>(&self, rt: &R) -> Result<(u64, Receipt<ViewsOf<J>>), Fault>
        ensures count { IfOk result (λ told. told.0 ≡ length told.1) }
        ensures committed { IfOk result
            (λ told. OfCoreFrom J.origin.from (λ state. told.1 ≡ committed_calls state)) }
        ensures shown { OnOk result (IsTrue J.origin.shown) }
        ensures fault { IfErr result (λ fault. fault ≡ fault_of_publish J.origin.shown) }
    {
        let mut behind = self.behind.lock(rt);
        let answer = behind.publish(rt);
        MutexGuard::unlock(behind);
        answer
    }

    /// Ends the sharing, and gives the core back. It waits for the readers that read; readers
    /// return NoReader from then on. Takes no memory.
    pub fn into_core<R: Wait>(self, rt: &R) -> C
        ensures { GoesOn J.origin.from (C.stored result).state }
    {
        let (core, _) = self.into_parts(rt);
        core
    }

    /// Ends the sharing as `into_core` does, and gives back the core and the transactions that
    /// `break_deadlock` aborted, in that order.
    pub fn into_parts<R: Wait>(self, rt: &R) -> (C, Vec<TxnId>)
        ensures core { GoesOn J.origin.from (C.stored result.0).state }
        ensures victims { All (WasVictim (C.stored result.0).state) result.1.items }
    {
        let Shared {
            behind,
            alloc: _,
            ended: _,
        } = self;
        behind.into_inner().end(rt)
    }
}

/// Returns whether these transactions are all live.
fn are_live(core: &Core, txns: &[TxnId]) -> bool {
    txns.iter()
        .all(|txn| matches!(core.fate(*txn), Some(State::Live)))
}

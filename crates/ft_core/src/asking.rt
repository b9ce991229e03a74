// Asking for calls.
ghost use Rattle.std.specs.Prelude.{◌≡◌, true, false, Some, IfOk, IfErr, OnOk, OnErr, IsSome};
ghost use Rattle.std.specs.FinMap as finite;
ghost use Rattle.ft_posix.specs.declared.call.Call.{Call as CallOf};
ghost use Rattle.ft_history.specs.History.Fate.{Live};
ghost use Rattle.ft_core.specs.declared.fault.Fault.TheVariants.{Memory as MemoryFault};
ghost use Rattle.ft_core.specs.declared.request.Request.TheVariants.{Ask, Retry};
ghost use Rattle.ft_core.specs.Journals.{asked_for};
ghost use Rattle.ft_core.specs.States.{fate_of, has_most_calls};
ghost use Rattle.ft_core.specs.FullOutcomes.{IsToldInFull, full_answer, IsPendingToldInFull};
ghost use Rattle.ft_core.specs.Steps.{IsStep, exact_rule, refusal_of, refused_with, answer_with, outcome_answer};
ghost use Rattle.ft_core.specs.Requested.{IsRequested, IsRequestedInFull};

use crate::fault::Fault;
use crate::journal::asked_or;
use crate::manager::Core;
use crate::parts::{Asker, Made, Tried};
use crate::past::{Question, Seen};
use crate::request::{FullOutcome, Outcome};
use ft_base::Sequence;
use ft_calls::Call;
use ft_forest::TxnId;

impl Core {
    /// Makes a call in a transaction, or returns which transactions it waits for: those that own a
    /// conflicting lock and are neither the asker nor an ancestor of it, and by `Rule::Moss` also
    /// the ancestors that hold one, in rising order.
    ///
    /// Refuses NoTxn, Ended, and Full if as many calls are granted as may be, in this order.
    pub fn ask(&mut self, txn: TxnId, call: Call) -> Result<Outcome, Fault>
        ensures { IsStep exact_rule self.old.state (Ask txn call)
            (answer_with outcome_answer result) self.new.state }
    {
        self.may_ask(txn)?;
        self.request(txn, Some(call))
    }

    /// Makes a call, as `ask` does, and hands out all that was made of it: the call, its reply, a
    /// copy of that, and its accesses. It is for a caller that keeps a record of what happens.
    ///
    /// Refuses what `ask` refuses, in its order.
    pub fn ask_in_full(&mut self, txn: TxnId, call: Call) -> Result<FullOutcome, Fault>
        ensures step { IsStep exact_rule self.old.state (Ask txn call)
            (answer_with full_answer result) self.new.state }
        ensures told { IfOk result (IsToldInFull self.old.state call) }
    {
        self.may_ask(txn)?;
        self.request_in_full(txn, Some(call))
    }

    /// Refuses what `ask` refuses whatever the call is, in its order: all but being out of memory.
    pub fn may_ask(&self, txn: TxnId) -> Result<(), Fault>
        ensures { (call : CallOf) → refusal_of self.now.state (Ask txn call) ≡ refused_with result }
    {
        self.check_live(txn)?;
        self.check_calls()?;
        Ok(())
    }

    /// Makes a copy of a call, as `ask` makes the call.
    ///
    /// Refuses what `ask` refuses, in its order; there may be no memory for the copy too.
    pub fn ask_copy(&mut self, txn: TxnId, call: &Call) -> Result<Outcome, Fault>
        ensures { IsStep exact_rule self.old.state (Ask txn call.now)
            (answer_with outcome_answer result) self.new.state }
    {
        self.may_ask(txn)?;
        let copy = call.copy(self.alloc)?;
        self.request(txn, Some(copy))
    }

    /// Makes the call that a transaction waits for, or returns again which transactions it waits
    /// for.
    ///
    /// Refuses NoTxn, Ended, NoAsk, and Full if as many calls are granted as may be, in this order.
    pub fn retry(&mut self, txn: TxnId) -> Result<Outcome, Fault>
        ensures { IsStep exact_rule self.old.state (Retry txn) (answer_with outcome_answer result)
            self.new.state }
    {
        self.may_retry(txn)?;
        self.request(txn, None)
    }

    /// Makes the call that a transaction waits for, as `retry` does, and hands out all that was
    /// made of it, as `ask_in_full` does.
    ///
    /// Refuses what `retry` refuses, in its order.
    pub fn retry_in_full(&mut self, txn: TxnId) -> Result<FullOutcome, Fault>
        ensures step { IsStep exact_rule self.old.state (Retry txn) (answer_with full_answer result)
            self.new.state }
        ensures told { IfOk result (IsPendingToldInFull self.old.state txn) }
    {
        self.may_retry(txn)?;
        self.request_in_full(txn, None)
    }

    /// Refuses what `retry` refuses, in its order, except for being out of memory.
    pub fn may_retry(&self, txn: TxnId) -> Result<(), Fault>
        ensures { refusal_of self.now.state (Retry txn) ≡ refused_with result }
    {
        self.check_live(txn)?;
        if self.journal.pending(txn).is_none() {
            return Err(Fault::NoAsk);
        }
        self.check_calls()?;
        Ok(())
    }

    /// Refuses one more call if as many are granted as may be.
    fn check_calls(&self) -> Result<(), Fault>
        ensures few { OnOk result (has_most_calls self.now.state ≡ false) }
        ensures full { OnErr result (has_most_calls self.now.state ≡ true) }
        ensures fault { IfErr result (λ fault. fault ≡ Fault.Full) }
    {
        if self.journal.is_full() {
            return Err(Fault::Full);
        }
        Ok(())
    }

    /// Makes a call if there may be one more, or notes that the transaction waits for it: the call
    /// that is requested now, or without one the call that the transaction waits for already.
    pub(crate) fn request(&mut self, txn: TxnId, asked: Option<Call>) -> Result<Outcome, Fault>
        requires few { has_most_calls self.old.state ≡ false }
        requires live { fate_of self.old.state txn ≡ Some Live }
        requires some { IsSome (asked_for asked (finite.get self.old.state.asks txn)) }
        ensures asked { IfOk result
            (IsRequested exact_rule self.old.state self.new.state txn asked) }
        ensures memory { IfErr result (λ fault. fault ≡ MemoryFault) }
        ensures same { OnErr result (self.new.state ≡ self.old.state) }
    {
        let stamp = self.journal.next_stamp();
        let rule = self.journal.rule();
        let call = self.journal.wanted(txn, &asked);
        let asker = Asker {
            txn,
            stamp,
            twice: false,
        };
        let seen = Seen::by(&Question {
            tree: &self.parts.tree,
            stamp,
            call,
        });
        let mut made = Made::nothing(self.alloc);
        let memo = &mut self.memo;
        match self
            .parts
            .try_call(self.alloc, asker, call, rule, memo, &mut made)?
        {
            Tried::Made => {
                let Made {
                    reply,
                    kept,
                    accesses,
                } = made;
                let pending = self.journal.grant(txn, &asked, &reply, &seen);
                drop(asked_or(asked, pending));
                drop(kept);
                Ok(Outcome::Granted { stamp, reply })
            }
            Tried::Blocked(blockers) => {
                self.journal.wait(txn, asked)?;
                let blockers = Sequence::from(blockers);
                Ok(Outcome::Waits { blockers })
            }
        }
    }

    /// Makes a call, or notes that the transaction waits for it, as `request` does, and hands out
    /// all that was made of it, with the reply twice.
    fn request_in_full(&mut self, txn: TxnId, asked: Option<Call>) -> Result<FullOutcome, Fault>
        requires few { has_most_calls self.old.state ≡ false }
        requires live { fate_of self.old.state txn ≡ Some Live }
        requires some { IsSome (asked_for asked (finite.get self.old.state.asks txn)) }
        ensures asked { IfOk result (IsRequestedInFull self.old.state self.new.state txn asked) }
        ensures memory { IfErr result (λ fault. fault ≡ MemoryFault) }
        ensures same { OnErr result (self.new.state ≡ self.old.state) }
    {
        let stamp = self.journal.next_stamp();
        let rule = self.journal.rule();
        let call = self.journal.wanted(txn, &asked);
        let asker = Asker {
            txn,
            stamp,
            twice: true,
        };
        let seen = Seen::by(&Question {
            tree: &self.parts.tree,
            stamp,
            call,
        });
        let mut made = Made::nothing(self.alloc);
        let memo = &mut self.memo;
        match self
            .parts
            .try_call(self.alloc, asker, call, rule, memo, &mut made)?
        {
            Tried::Made => {
                let Made {
                    reply,
                    kept,
                    accesses,
                } = made;
                let pending = self.journal.grant(txn, &asked, &reply, &seen);
                Ok(FullOutcome::Granted {
                    stamp,
                    call: asked_or(asked, pending),
                    reply,
                    kept,
                    accesses,
                })
            }
            Tried::Blocked(blockers) => {
                self.journal.wait(txn, asked)?;
                let blockers = Sequence::from(blockers);
                Ok(FullOutcome::Waits { blockers })
            }
        }
    }
}

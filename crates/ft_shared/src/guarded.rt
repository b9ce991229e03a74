// The value behind the lock.
ghost use Rattle.std.specs.Prelude.{◌≡◌, true, length, cond, is_some, Some, None, IfSome, IfOk, IfErr, IsTrue, OnOk, OnErr, All};
ghost use mathlib.Core.List.{IsPrefix};
ghost use Rattle.ft_core.specs.declared.request.Request.TheVariants.{Begin, Sub, Ask, Retry, Drop as DropAsk, Commit};
ghost use Rattle.ft_core.specs.declared.request.Answer.TheVariants.{Txn, Dropped, Committed, Aborted, Undone};
ghost use Rattle.ft_core.specs.Reached.{IsReached};
ghost use Rattle.ft_core.specs.Steps.{IsStep, exact_rule, answer_with, outcome_answer};
ghost use Rattle.ft_record.specs.Going.{GoesOn};
ghost use Rattle.ft_serial.specs.Serials.{committed_calls};
ghost use Rattle.ft_shared.specs.Guarded.{IsOfCoreFrom, IsAborted, IsUndone};
ghost use Rattle.ft_shared.specs.Origins.{without_views};
ghost use Rattle.ft_shared.specs.Publishing.{IsPublisherOf, fault_of_publish};
ghost use Rattle.ft_shared.specs.Victims.{Breaks, WasVictim};

use crate::publisher::Publisher;
use crate::shareable::Shareable;
use crate::sharing::{Sharing, ViewsOf};
use crate::victim::{is_member, victim_of};
use ft_calls::Call;
use ft_core::laws::reached;
use ft_core::{Core, Fault, Outcome, TxnId};
use ft_view::Receipt;
use std::marker::Model;
use std::sync::Wait;

/// A core, and what publishes its committed calls if it has views. Clauses see the core's state,
/// and the list that is published.
///
/// Whatever is requested, the core goes on from the state that was shared, and what is published is
/// a beginning of the committed part of its serial list. It is not `Drop`: end it by `end`.
pub struct Guarded<J: Sharing, C: Shareable> {
    core: C,
    publisher: Option<Publisher<ViewsOf<J>>>,
    // The transactions that were aborted to break deadlocks.
    victims: Vec<TxnId>,
}

impl<J: Sharing, C: Shareable> Model for Guarded<J, C> {
    ghost use Rattle.ft_shared.specs.Publishing.{Backed, coded_backed, published_in, IsBehind};

    ghost Value = { Backed };

    ghost coded = { coded_backed };

    ghost view = { λ a. record {
      core = C.stored a.core;
      forgotten = C.forgotten a.core;
      published = published_in a.publisher;
    } };

    ghost invariant = { λ a. IsBehind J.origin (C.stored a.core).state (C.forgotten a.core)
        a.publisher a.victims.items };
}

impl<J: Sharing, C: Shareable> Guarded<J, C> {
    /// Returns a core that has no views.
    pub(crate) fn alone(core: C) -> Guarded<J, C>
        requires { without_views (C.stored core).state ≡ J.origin }
        ensures core { result.core ≡ C.stored core }
        ensures published { result.published ≡ None }
    {
        Guarded {
            victims: Vec::new(core.core().alloc()),
            core,
            publisher: None,
        }
    }

    /// Returns a core with its views.
    pub(crate) fn with_views(core: C, publisher: Publisher<ViewsOf<J>>) -> Guarded<J, C>
        requires from { J.origin.from ≡ (C.stored core).state }
        requires shown { J.origin.shown ≡ true }
        requires publisher { IsPublisherOf (C.stored core).state (C.forgotten core) publisher }
        ensures core { result.core ≡ C.stored core }
        ensures published { result.published ≡ Some publisher.published }
    {
        Guarded {
            victims: Vec::new(core.core().alloc()),
            core,
            publisher: Some(publisher),
        }
    }

    /// Returns the core.
    pub fn core(&self) -> &Core
        ensures core { result.now ≡ self.now.core }
        ensures from { IsOfCoreFrom J.origin.from self.now.core.state }
    {
        self.core.core()
    }

    /// Its contract is what is true whenever the lock is taken: the history of the core is legal,
    /// from a sound base, and goes on from what had happened when it was shared; it has views
    /// exactly if it was shared with views; and what is published is a beginning of the committed
    /// part of its serial list. It does nothing.
    pub fn stands(&self)
        ensures reached { IsReached self.now.core }
        ensures goes_on { GoesOn J.origin.from self.now.core.state }
        ensures shown { is_some self.now.published ≡ J.origin.shown }
        ensures published { IfSome
            self.now.published (λ calls. IsPrefix calls (committed_calls self.now.core.state)) }
    {
        reached(self.core.core());
        if let Some(publisher) = &self.publisher {
            publisher.stands();
        }
    }

    /// Begins a top-level transaction, as `Core::begin` does.
    pub fn begin(&mut self) -> Result<TxnId, Fault>
        ensures step { IsStep exact_rule self.old.core.state Begin (answer_with Txn result)
            self.new.core.state }
        ensures published { self.new.published ≡ self.old.published }
        ensures from { IsOfCoreFrom J.origin.from self.old.core.state }
    {
        self.core.begin()
    }

    /// Begins a subtransaction, as `Core::sub` does.
    pub fn sub(&mut self, parent: TxnId) -> Result<TxnId, Fault>
        ensures step { IsStep exact_rule self.old.core.state (Sub parent) (answer_with Txn result)
            self.new.core.state }
        ensures published { self.new.published ≡ self.old.published }
        ensures from { IsOfCoreFrom J.origin.from self.old.core.state }
    {
        self.core.sub(parent)
    }

    /// Makes a call, as `Core::ask` does.
    pub fn ask(&mut self, txn: TxnId, call: Call) -> Result<Outcome, Fault>
        ensures step { IsStep exact_rule self.old.core.state (Ask txn call)
            (answer_with outcome_answer result) self.new.core.state }
        ensures published { self.new.published ≡ self.old.published }
        ensures from { IsOfCoreFrom J.origin.from self.old.core.state }
    {
        self.core.ask(txn, call)
    }

    /// Makes a copy of a call, as `Core::ask_copy` does.
    pub fn ask_copy(&mut self, txn: TxnId, call: &Call) -> Result<Outcome, Fault>
        ensures step { IsStep exact_rule self.old.core.state (Ask txn call.now)
            (answer_with outcome_answer result) self.new.core.state }
        ensures published { self.new.published ≡ self.old.published }
        ensures from { IsOfCoreFrom J.origin.from self.old.core.state }
    {
        self.core.ask_copy(txn, call)
    }

    /// Makes the call that a transaction waits for, as `Core::retry` does.
    pub fn retry(&mut self, txn: TxnId) -> Result<Outcome, Fault>
        ensures step { IsStep exact_rule self.old.core.state (Retry txn)
            (answer_with outcome_answer result) self.new.core.state }
        ensures published { self.new.published ≡ self.old.published }
        ensures from { IsOfCoreFrom J.origin.from self.old.core.state }
    {
        self.core.retry(txn)
    }

    /// Forgets the call that a transaction waits for, as `Core::drop_ask` does.
    pub fn drop_ask(&mut self, txn: TxnId) -> Result<(), Fault>
        ensures step { IsStep exact_rule
            self.old.core.state (DropAsk txn) (answer_with (λ done. Dropped) result)
            self.new.core.state }
        ensures published { self.new.published ≡ self.old.published }
        ensures from { IsOfCoreFrom J.origin.from self.old.core.state }
    {
        self.core.drop_ask(txn)
    }

    /// Commits a transaction, as `Core::commit` does, and sweeps what it released.
    pub fn commit(&mut self, txn: TxnId) -> Result<(), Fault>
        ensures step { IsStep exact_rule
            self.old.core.state (Commit txn) (answer_with (λ done. Committed) result)
            self.new.core.state }
        ensures published { self.new.published ≡ self.old.published }
        ensures from { IsOfCoreFrom J.origin.from self.old.core.state }
    {
        self.core.commit(txn)?;
        self.core.sweep();
        Ok(())
    }

    /// Aborts a transaction, as `Core::abort` does, and sweeps what it released.
    pub fn abort(&mut self, txn: TxnId) -> Result<u64, Fault>
        ensures step { IsAborted self.old.core.state txn (answer_with Aborted result)
            self.new.core.state }
        ensures published { self.new.published ≡ self.old.published }
        ensures from { IsOfCoreFrom J.origin.from self.old.core.state }
    {
        let count = self.core.abort(txn)?;
        self.core.sweep();
        Ok(count)
    }

    /// Undoes a transaction's last call, as `Core::undo_call` does.
    pub fn undo_call(&mut self, txn: TxnId) -> Result<u64, Fault>
        ensures step { IsUndone self.old.core.state txn (answer_with Undone result)
            self.new.core.state }
        ensures published { self.new.published ≡ self.old.published }
        ensures from { IsOfCoreFrom J.origin.from self.old.core.state }
    {
        self.core.undo_call(txn)
    }

    /// Aborts the victim on a cycle of waits, if there is a cycle, sweeps what it released, and
    /// returns it. It is among the victims from then on.
    ///
    /// Refuses Memory.
    pub fn break_deadlock(&mut self) -> Result<Option<TxnId>, Fault>
        ensures broken { IfOk result
            (λ victim. Breaks victim self.old.core.state self.new.core.state) }
        ensures same { OnErr result (self.new.core.state ≡ self.old.core.state) }
        ensures published { self.new.published ≡ self.old.published }
        ensures from { IsOfCoreFrom J.origin.from self.old.core.state }
    {
        let Some(victim) = victim_of(self.core.core())? else {
            return Ok(None);
        };
        if self.victims.try_reserve(1).is_err() {
            return Err(Fault::Memory);
        }
        self.core.abort(victim)?;
        self.core.sweep();
        let _ = self.victims.push(victim);
        Ok(Some(victim))
    }

    /// Returns whether a transaction was aborted to break a deadlock.
    pub fn is_victim(&self, txn: TxnId) -> bool
        ensures victim { IsTrue result → WasVictim self.now.core.state txn }
        ensures from { IsOfCoreFrom J.origin.from self.now.core.state }
    {
        is_member(self.victims.as_slice(), txn)
    }

    /// Publishes the whole committed part of the core, and returns how many calls that has, with
    /// the receipt of it.
    ///
    /// Refuses NoViews if the core has none, and then Memory; then readers see what they saw.
    pub fn publish<R: Wait>(&mut self, rt: &R) -> Result<(u64, Receipt<ViewsOf<J>>), Fault>
        ensures core { self.new.core ≡ self.old.core }
        ensures from { IsOfCoreFrom J.origin.from self.old.core.state }
        ensures shown { OnOk result (IsTrue J.origin.shown) }
        ensures whole { OnOk result (self.new.published
            ≡ Some (committed_calls self.old.core.state)) }
        ensures count { IfOk result
            (λ told. told.0 ≡ length (committed_calls self.old.core.state)) }
        ensures receipt { IfOk result (λ told. told.1 ≡ committed_calls self.old.core.state) }
        ensures same { OnErr result (self.new.published ≡ self.old.published) }
        ensures fault { IfErr result (λ fault. fault ≡ fault_of_publish J.origin.shown) }

        // The events are forgotten then, if the core ever forgets.
        ensures forgotten { OnOk result (self.new.forgotten
            ≡ cond C.forgets (Some (length self.old.core.state.events)) self.old.forgotten) }
    {
        let Some(publisher) = &mut self.publisher else {
            return Err(Fault::NoViews);
        };
        let told = publisher.publish(rt, self.core.core(), self.core.events())?;
        if self.core.forget() {
            publisher.forget(self.core.core());
        }
        Ok(told)
    }

    /// Ends the views, and gives the core back, with the victims of deadlocks.
    pub(crate) fn end<R: Wait>(self, rt: &R) -> (C, Vec<TxnId>)
        ensures core { C.stored result.0 ≡ self.core }
        ensures goes_on { GoesOn J.origin.from (C.stored result.0).state }
        ensures victims { All (WasVictim (C.stored result.0).state) result.1.items }
    {
        let Guarded {
            core,
            publisher,
            victims,
        } = self;
        match publisher {
            Some(publisher) => publisher.end(rt),
            None => {}
        }
        (core, victims)
    }
}

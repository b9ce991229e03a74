// The turns of calls in a fair session.
ghost use Rattle.std.specs.Prelude.{◌≡◌, ◌==◌, ◌&&◌, ◌||◌, true, not, IfOk, is_some};
ghost use Rattle.std.specs.List.{list_any};
ghost use Rattle.std.specs.FinMap as finite;
ghost use Rattle.ft_core.specs.declared.request.Request.TheVariants.{Ask, Retry};
ghost use Rattle.ft_core.specs.Steps.{answer_with, outcome_answer};
ghost use Rattle.ft_session.specs.Turns.{AreInTheWay, kept_turns, turns_after, turns_for};
ghost use Rattle.ft_session.specs.Sessions.{StepsFairly};

use crate::session::Session;
use ft_base::Memory;
use ft_calls::Call;
use ft_core::{Answer, Fault, Outcome, Request, TxnId};
use ft_line::execute;
use ft_waits::ahead_of;

impl Session {
    /// Returns the blockers of the call that a transaction waits for now, in rising order; none if
    /// it waits for no call.
    pub fn blockers(&self, txn: TxnId) -> Result<Vec<TxnId>, Memory>
        ensures { IfOk result (λ blockers. AreInTheWay self.now.is_fair self.now.core.state
            self.now.turns.items txn blockers.items) }
    {
        if !self.is_fair {
            let blockers = self.core.blockers_behind(txn, &[])?;
            return Ok(blockers);
        }
        let ahead = ahead_of(&self.core, self.turns.as_slice(), txn)?;
        let blockers = self.core.blockers_behind(txn, ahead.as_slice())?;
        Ok(blockers)
    }

    /// Carries out a request, if calls wait in turn.
    pub(crate) fn execute_fairly(&mut self, request: Request) -> Answer
        ensures fairly { StepsFairly self.old request result self.new }
        ensures fair { self.new.is_fair ≡ self.old.is_fair }
        ensures last { self.new.last ≡ self.old.last }
    {
        match request {
            Request::Ask(txn, call) => {
                let outcome = self.ask_in_turn(txn, call);
                answer_of(outcome)
            }
            Request::Retry(txn) => {
                let outcome = self.retry_in_turn(txn);
                answer_of(outcome)
            }
            request => execute(&mut self.core, request),
        }
    }

    /// Requests a call in the turn of its transaction.
    fn ask_in_turn(&mut self, txn: TxnId, call: Call) -> Result<Outcome, Fault>
        ensures turn { StepsFairly self.old (Ask txn call) (answer_with outcome_answer result)
            self.new }
        ensures fair { self.new.is_fair ≡ self.old.is_fair }
        ensures last { self.new.last ≡ self.old.last }
    {
        self.core.may_ask(txn)?;
        let keeps = self.core.is_waiting_for(txn, &call);
        let turns = self.turns_for(txn, keeps)?;
        let ahead = ahead_of(&self.core, turns.as_slice(), txn)?;
        let outcome = self.core.ask_behind(txn, call, ahead.as_slice());
        self.take_turns(&outcome, turns);
        outcome
    }

    /// Requests again, in its turn, the call that a transaction waits for.
    fn retry_in_turn(&mut self, txn: TxnId) -> Result<Outcome, Fault>
        ensures turn { StepsFairly self.old (Retry txn) (answer_with outcome_answer result)
            self.new }
        ensures fair { self.new.is_fair ≡ self.old.is_fair }
        ensures last { self.new.last ≡ self.old.last }
    {
        self.core.may_retry(txn)?;
        let turns = self.turns_for(txn, true)?;
        let ahead = ahead_of(&self.core, turns.as_slice(), txn)?;
        let outcome = self.core.retry_behind(txn, ahead.as_slice());
        self.take_turns(&outcome, turns);
        outcome
    }

    /// Takes these turns if a call has to wait.
    fn take_turns(&mut self, outcome: &Result<Outcome, Fault>, turns: Vec<TxnId>)
        ensures others { self.new ≡ record self.old { turns = self.new.turns } }
        ensures turns { self.new.turns.items
            ≡ turns_after (answer_with outcome_answer outcome.now) self.old.turns.items
            turns.items }
    {
        match outcome {
            Ok(Outcome::Waits { .. }) => self.turns = turns,
            Ok(Outcome::Granted { .. }) => {}
            Err(_) => {}
        }
    }

    /// Returns the turns when a transaction requests a call, and keeps its own or gets the last
    /// one.
    fn turns_for(&self, txn: TxnId, keeps: bool) -> Result<Vec<TxnId>, Memory>
        ensures { IfOk result (λ turns. turns.items
            ≡ turns_for self.now.core.state self.now.turns.items txn keeps) }
    {
        let mut turns = self.kept_turns(txn, keeps)?;
        if is_among(turns.as_slice(), txn) {
            return Ok(turns);
        }
        turns.push(txn)?;
        Ok(turns)
    }

    /// Returns the turns that are kept when a transaction requests a call.
    fn kept_turns(&self, txn: TxnId, keeps: bool) -> Result<Vec<TxnId>, Memory>
        ensures { IfOk result (λ turns. turns.items
            ≡ kept_turns self.now.core.state self.now.turns.items txn keeps) }
    {
        let turns = self
            .turns
            .iter()
            .copied()
            .filter(|other| self.is_kept(*other, txn, keeps))
            .collect(self.core.alloc())?;
        Ok(turns)
    }

    /// Returns whether the turn of a transaction is kept when one requests a call.
    fn is_kept(&self, other: TxnId, txn: TxnId, keeps: bool) -> bool
        ensures { result ≡ (is_some (finite.get self.now.core.state.asks other)
            && (keeps || not (other == txn))) }
    {
        self.core.is_waiting(other) && (keeps || other != txn)
    }
}

/// Returns whether a transaction is in a list.
fn is_among(list: &[TxnId], txn: TxnId) -> bool
    ensures { result ≡ list_any (λ x. x == txn) list.now }
{
    list.iter().any(|other| *other == txn)
}

/// Returns the outcome of a call as an answer.
fn answer_of(outcome: Result<Outcome, Fault>) -> Answer
    ensures { result ≡ answer_with outcome_answer outcome }
{
    match outcome {
        Ok(outcome) => Answer::from(outcome),
        Err(fault) => Answer::Refused(fault),
    }
}

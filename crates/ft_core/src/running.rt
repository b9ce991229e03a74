// Whole lists of requests.
ghost use Rattle.std.specs.Prelude.{◌≡◌, IfOk, OnOk, OnErr};
ghost use Rattle.ft_posix.specs.RunLaws.{GiveReplies};
ghost use Rattle.ft_core.specs.States.{standing_calls};
ghost use Rattle.ft_core.specs.Steps.{IsStep, IsRun, exact_rule};

use crate::fault::Fault;
use crate::manager::Core;
use crate::request::{Answer, Outcome, Request};
use ft_base::Memory;

impl Core {
    /// Carries requests out, in order, and returns the answer to each.
    ///
    /// If there is no memory for the answers, that is refused before the first request, with
    /// nothing changed.
    pub fn run(&mut self, requests: Vec<Request>) -> Result<Vec<Answer>, Memory>
        ensures ok { IfOk result
            (λ answers. IsRun exact_rule self.old.state requests.items answers.items
            self.new.state) }
        ensures err { OnErr result (self.new ≡ self.old) }
        ensures headline { OnOk result
            (GiveReplies self.new.state.base.tree (standing_calls self.new.state)) }
    {
        let mut answers = Vec::with_capacity(self.alloc, requests.len())?;
        for request in requests {
            let answer = self.answer(request);
            let _ = answers.push(answer);
        }
        Ok(answers)
    }

    /// Carries a request out.
    pub fn answer(&mut self, request: Request) -> Answer
        ensures { IsStep exact_rule self.old.state request result self.new.state }
    {
        match request {
            Request::Begin => match self.begin() {
                Ok(txn) => Answer::Txn(txn),
                Err(fault) => Answer::Refused(fault),
            },
            Request::Sub(parent) => match self.sub(parent) {
                Ok(txn) => Answer::Txn(txn),
                Err(fault) => Answer::Refused(fault),
            },
            Request::Ask(txn, call) => match self.ask(txn, call) {
                Ok(outcome) => Answer::from(outcome),
                Err(fault) => Answer::Refused(fault),
            },
            Request::Retry(txn) => match self.retry(txn) {
                Ok(outcome) => Answer::from(outcome),
                Err(fault) => Answer::Refused(fault),
            },
            Request::Drop(txn) => match self.drop_ask(txn) {
                Ok(()) => Answer::Dropped,
                Err(fault) => Answer::Refused(fault),
            },
            Request::Commit(txn) => match self.commit(txn) {
                Ok(()) => Answer::Committed,
                Err(fault) => Answer::Refused(fault),
            },
            Request::Abort(txn) => match self.abort(txn) {
                Ok(count) => Answer::Aborted(count),
                Err(fault) => Answer::Refused(fault),
            },
            Request::Undo(txn) => match self.undo_call(txn) {
                Ok(stamp) => Answer::Undone(stamp),
                Err(fault) => Answer::Refused(fault),
            },
            Request::Checkpoint => match self.checkpoint() {
                Ok(()) => Answer::Cleared,
                Err(fault) => Answer::Refused(fault),
            },
        }
    }
}

impl From<Outcome> for Answer {
    ghost use Rattle.std.specs.Prelude.{◌≡◌};
    ghost use Rattle.ft_core.specs.Steps.{outcome_answer};

    ghost from_gives = { λ outcome answer. answer ≡ outcome_answer outcome };

    fn from(outcome: Outcome) -> Answer {
        match outcome {
            Outcome::Granted { stamp, reply } => Answer::Granted { stamp, reply },
            Outcome::Waits { blockers } => Answer::Waits { blockers },
        }
    }
}

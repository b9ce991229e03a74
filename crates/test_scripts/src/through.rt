// The requests of a script, to a core behind a lock.
use crate::scripts::Answers;
use ft_core::{Answer, Fault, Request};
use ft_shared::{Shareable, Shared, Sharing};
use std::sync::Wait;

/// Requests through a lock.
#[derive(Drop)]
pub struct Through<'a, J: Sharing, C: Shareable, R: Wait> {
    pub rt: &'a R,
    pub shared: &'a Shared<J, C>,
}

impl<'a, J: Sharing, C: Shareable, R: Wait> Answers for Through<'a, J, C, R> {
    fn answer_to(&mut self, request: Request) -> Answer {
        let (rt, shared) = (self.rt, self.shared);
        let answer = match request {
            Request::Begin => shared.begin(rt).map(Answer::Txn),
            Request::Sub(parent) => shared.sub(rt, parent).map(Answer::Txn),
            Request::Ask(txn, call) => shared.ask(rt, txn, call).map(Answer::from),
            Request::Retry(txn) => shared.retry(rt, txn).map(Answer::from),
            Request::Drop(txn) => shared.drop_ask(rt, txn).map(|()| Answer::Dropped),
            Request::Commit(txn) => shared.commit(rt, txn).map(|()| Answer::Committed),
            Request::Abort(txn) => shared.abort(rt, txn).map(Answer::Aborted),
            Request::Undo(txn) => shared.undo_call(rt, txn).map(Answer::Undone),
            // There is none through a lock.
            Request::Checkpoint => Err(Fault::Live),
        };
        answer.unwrap_or_else(Answer::Refused)
    }
}

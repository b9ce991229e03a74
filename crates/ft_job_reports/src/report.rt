// The outcomes of jobs.
use ft_base::Sequence;
use ft_calls::{Call, Reply};
use ft_core::{Fault, TxnId};

/// How a job ended.
#[derive(Clone, Copy, Debug, PartialEq, Eq)]
pub enum End {
    /// Its last step committed its transaction.
    Committed,
    /// Its last step aborted its transaction.
    Aborted,
    /// The turns of a call were used up, and then its transaction was aborted.
    Waited,
    /// It was refused something, and then its transaction was aborted, if it had one that was still
    /// live.
    Refused(Fault),
    /// The step of this number, counted from 1, did not do what it requests, in a strict job, and
    /// then its transaction was aborted.
    Failed(u64),
    /// Its transaction was on a cycle of waits, and was aborted to break it.
    Deadlock,
    /// The job that it is a subjob of ended before it reached its subjobs.
    NotStarted,
}

/// A call that a job was granted, with the reply that the job got.
#[derive(Debug, PartialEq, Eq, Drop)]
pub struct CallReport {
    pub stamp: u64,
    pub call: Call,
    pub reply: Reply,
}

impl CallReport {
    ghost use Rattle.std.specs.Prelude.{◌≡◌, ◌↔◌, IsTrue};
    ghost use Rattle.ft_core.specs.declared.request.Answer.TheVariants.{Granted};
    ghost use Rattle.ft_line.specs.Wells.{is_well};

    /// Returns whether it did not fail.
    pub(crate) fn is_well(&self) -> bool
        ensures { result ≡ is_well (Granted self.now.stamp self.now.reply) }
    {
        !matches!(self.reply, Reply::Failed(_))
    }

    /// Returns whether it is of this call.
    #[tactic(auto, using(ft_core::proofs::Same::same_calls))]
    pub(crate) fn is_of(&self, call: &Call) -> bool
        ensures { IsTrue result ↔ (self.now.call ≡ call.now) }
    {
        self.call == *call
    }

    /// Returns whether it has this reply.
    #[tactic(auto, using(ft_core::proofs::Same::same_replies))]
    pub(crate) fn has_reply(&self, reply: &Reply) -> bool
        ensures { IsTrue result ↔ (self.now.reply ≡ reply.now) }
    {
        self.reply == *reply
    }
}

/// The outcome of a job, or of an earlier try of it, which a deadlock ended.
#[derive(Debug, PartialEq, Eq, Drop)]
pub struct Report {
    /// The job's place in the plan. The first has the number 0.
    pub job: u64,
    /// Its transaction, if it began one.
    pub txn: Option<TxnId>,
    /// How it ended.
    pub end: End,
    /// The calls that it was granted, in order.
    pub calls: Sequence<CallReport>,
}

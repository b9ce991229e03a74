// Requests to a core, their answers, and events.

use crate::fault::Fault;
use ft_base::Sequence;
use ft_calls::{Access, Call, Reply};
use ft_forest::TxnId;

/// A request to a core.
#[derive(Debug, PartialEq, Eq, Drop)]
pub enum Request {
    /// Begins a top-level transaction.
    Begin,
    /// Begins a subtransaction.
    Sub(TxnId),
    /// Makes a call in a transaction.
    Ask(TxnId, Call),
    /// Makes the call that the transaction waits for.
    Retry(TxnId),
    /// Forgets the call that the transaction waits for.
    Drop(TxnId),
    /// Commits a transaction.
    Commit(TxnId),
    /// Aborts a transaction with all that is live below it.
    Abort(TxnId),
    /// Undoes the last of a transaction's own standing calls.
    Undo(TxnId),
    /// Makes the present tree the base, and forgets what has happened.
    Checkpoint,
}

/// The answer of a core to a request.
#[derive(Debug, PartialEq, Eq, Drop)]
pub enum Answer {
    /// A transaction was begun.
    Txn(TxnId),
    /// The call was granted, with its stamp, and made.
    Granted { stamp: u64, reply: Reply },
    /// The call waits for these transactions, in rising order.
    Waits { blockers: Sequence<TxnId> },
    /// The pending ask is forgotten.
    Dropped,
    /// The transaction has committed.
    Committed,
    /// The transaction is aborted, and so many standing calls were taken away.
    Aborted(u64),
    /// The call with this stamp is undone.
    Undone(u64),
    /// The tree is the base, and what has happened is forgotten.
    Cleared,
    /// The request is refused.
    Refused(Fault),
}

/// The outcome of a call that was requested.
#[derive(Debug, PartialEq, Eq, Drop)]
pub enum Outcome {
    /// It was granted, with its stamp, and made.
    Granted { stamp: u64, reply: Reply },
    /// It waits for these transactions, in rising order.
    Waits { blockers: Sequence<TxnId> },
}

/// The outcome of a call that was requested, with all that was made of it.
#[derive(Drop)]
pub enum FullOutcome {
    /// It was granted, with its stamp, and made: the call, its reply, a copy of the reply, and the
    /// accesses.
    Granted {
        stamp: u64,
        call: Call,
        reply: Reply,
        kept: Option<Reply>,
        accesses: Vec<Access>,
    },
    /// It waits for these transactions, in rising order.
    Waits {
        blockers: Sequence<TxnId>,
    },
}

/// The counts of an abort.
#[derive(Clone, Copy, Debug, PartialEq, Eq)]
pub struct FullAbort {
    /// How many transactions: all that were live at or below the one that was to be aborted.
    pub transactions: u64,
    /// How many standing calls were taken away.
    pub calls: u64,
}

/// A thing that has happened.
#[derive(Debug, PartialEq, Eq, Drop)]
pub enum Event {
    /// A transaction was begun.
    Begin {
        txn: TxnId,
        parent: Option<TxnId>,
    },
    /// A call was granted and made.
    Call {
        stamp: u64,
        txn: TxnId,
        call: Call,
        reply: Reply,
        accesses: Sequence<Access>,
    },
    /// The call with this stamp was undone.
    Undo {
        stamp: u64,
    },
    /// A transaction committed.
    Commit {
        txn: TxnId,
    },
    /// A transaction was aborted, with all that was live below it.
    Abort {
        txn: TxnId,
    },
}

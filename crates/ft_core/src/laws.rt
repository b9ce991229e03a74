//! Laws of the histories that a core can have, and of its state: each is the contract of a function
//! that does nothing.
ghost use Rattle.ft_posix.specs.Posix.{posix_calls};
ghost use Rattle.ft_history.specs.Promises.{Ownership, LogOrder, ExactLedger, AbortCount};
ghost use Rattle.ft_core.specs.Reached.{IsReached};

use crate::manager::Core;

/// The ownership law: of two standing calls that conflict, if the earlier one can still be undone
/// then so can the later one, by the same transaction or one below it. Therefore, what stays never
/// rests on what is removed.
pub fn ownership()
    ensures { Ownership posix_calls }
{}

/// The log-order law: in each transaction's list a call comes before every older one with which it
/// conflicts.
pub fn log_order()
    ensures { LogOrder posix_calls }
{}

/// There is one inverse for each standing call that has an owner, in its owner's list, and there
/// are no others.
pub fn exact_ledger()
    ensures { ExactLedger posix_calls }
{}

/// An abort undoes as many calls as are standing at or below the transaction, with one inverse
/// each, in whichever order it goes through their lists.
pub fn abort_count()
    ensures { AbortCount posix_calls }
{}

/// The history of a core is legal from a base that is a sound tree, so that the laws above hold of
/// it; only live transactions wait; and its tree is the one of the headline, and sound.
pub fn reached(core: &Core)
    ensures { IsReached core.now }
{
    let _ = core.journal.rule();
}

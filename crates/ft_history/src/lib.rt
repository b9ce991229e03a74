//! Histories of nested transactions, and the properties that every history keeps.
//!
//! The theorems cover the owners of calls, the standing calls, and the effects of an undo and an
//! abort. The main one is that the store, changed in place, is always that of only the standing
//! calls.
//!
//! The definitions are in `specs`, and the theorems for any lawful calls are in `proofs`. No
//! function here has a body to run. Its `ensures` is a theorem at a tiny tree of directories and
//! files, for every base and every legal history from it.
#![tactic(auto)]

ghost use Rattle.std.specs.Prelude.{◌≡◌, Some, None, [], ◌∷◌};
ghost use Rattle.ft_history.specs.Core.{machine};
ghost use Rattle.ft_history.specs.Example.{start, neighbour, with_file, interleaved};
ghost use Rattle.ft_history.specs.History.{standing};
ghost use Rattle.ft_history.specs.Legal.{Legal};
ghost use Rattle.ft_history.specs.Promises.{AbortAlone, AbortCount, AbortKeeps, AbortOrder, AskKeeps, BeginKeeps, Blockers, CheckpointKeeps, CommitKeeps, ExactLedger, FateRules, Headline, JustMade, LiveChildren, LiveOwners, LockRules, LogOrder, NewestFirst, Numbered, Ownership, SubCommits, SweepKeeps, TargetByStamps, UndoKeeps};
ghost use Rattle.ft_history.specs.Serial.{CommittedSteps, Serial, SerialOrder};
ghost use Rattle.ft_history.specs.Sharing.{Sharing};
ghost use Rattle.ft_history.specs.Without.{AbortLeavesDescendants, AbortOldestFirst, AbortOwnAlone, AbortRising, CommitInFront, LocksLetGo, RevertOverChild, SerialReversed, SweepLocked, UndoOverChild, UndoPastCommit, WeakOwnership};
ghost use Rattle.ft_laws.specs.Tiny.{tiny_calls};
ghost use Rattle.ft_laws.specs.Tiny.Cell.{Entry};
ghost use Rattle.ft_laws.specs.Tiny.Node.{FileNode};

/// After every legal history, the store that was changed in place is that of only the standing
/// calls, made one after another from the base. Each standing call then gets its recorded reply.
pub fn headline()
    ensures { Headline tiny_calls }
{}

/// If two standing calls conflict and the earlier one has an owner, the later one has an owner too.
/// The earlier call's owner is at or above the later call's owner.
pub fn ownership()
    ensures { Ownership tiny_calls }
{}

/// Transactions are numbered one after another from the base's last number on. A later number has
/// neither a parent nor an end.
pub fn numbered()
    ensures { Numbered tiny_calls }
{}

/// Each live child of a transaction is listed once, in the order of the numbers.
pub fn children()
    ensures { LiveChildren tiny_calls }
{}

/// Each event changes the transactions by these rules. A new transaction is live. A commit makes
/// its transaction committed. An abort makes aborted whatever is live at or below its transaction.
pub fn fate_rules()
    ensures { FateRules tiny_calls }
{}

/// Each event changes the locks, held and retained, by Moss's rules of grant, inheritance and
/// abort.
pub fn lock_rules()
    ensures { LockRules tiny_calls }
{}

/// If two transactions own conflicting locks, one is at or above the other. A transaction without a
/// live child therefore shares them only with its ancestors.
pub fn lock_sharing()
    ensures { Sharing tiny_calls }
{}

/// The blockers of a call are all owners of a conflicting lock that are neither the asker nor above
/// it. Each is listed once, in the order of the numbers.
///
/// By Moss's own rule for holders, transactions above the asker that hold such a lock block it as
/// well.
pub fn blockers()
    ensures { Blockers tiny_calls }
{}

/// The owner of a granted call is live, and at or above its asker, so an owner of a lock is live. A
/// live transaction owns its calls itself.
pub fn live_owners()
    ensures { LiveOwners tiny_calls }
{}

/// In each list, a call comes before every older call that it conflicts with.
pub fn log_order()
    ensures { LogOrder tiny_calls }
{}

/// An abort of any live transaction, amid the calls of others, leaves the store of the remaining
/// standing calls. It may take the lists in any order in which each comes before that of its
/// parent.
pub fn abort_order()
    ensures { AbortOrder tiny_calls }
{}

/// An abort may take the lists from the newest transaction on.
pub fn newest_first()
    ensures { NewestFirst tiny_calls }
{}

/// If the asker of the call just made has no live child, an undo finds that call and gives back the
/// store before it.
pub fn just_made()
    ensures { JustMade tiny_calls }
{}

/// The abort of a transaction that ran alone gives back the store of its begin.
pub fn abort_alone()
    ensures { AbortAlone tiny_calls }
{}

/// An abort removes all standing calls at or below the transaction, and puts as many inverses to
/// the store.
pub fn abort_count()
    ensures { AbortCount tiny_calls }
{}

/// The ledger has one entry for each standing call with an owner, in its owner's list, and no other
/// entry. Only live transactions therefore have lists.
pub fn exact_ledger()
    ensures { ExactLedger tiny_calls }
{}

/// If two standing calls conflict, either both have the same root or the earlier one's root
/// committed. In the second case, the later one's root committed later or not at all.
pub fn serial_order()
    ensures { SerialOrder tiny_calls }
{}

/// The serial list has the calls of the committed transactions in order of commit, then all others.
/// It has each standing call once. Made in that order, the calls leave the same store and get the
/// same replies.
pub fn serial_store()
    ensures { Serial tiny_calls }
{}

/// An event leaves the committed part of the serial list as it is. Only the commit of a top-level
/// transaction adds to it: the standing calls at or below the transaction, at the end.
pub fn committed_steps()
    ensures { CommittedSteps tiny_calls }
{}

/// The newest call of a live transaction's list and the last commit of a child decide what an undo
/// finds. The commit of a child sets the latter to the last stamp.
pub fn target_by_stamps()
    ensures decides { TargetByStamps tiny_calls }
    ensures commits { SubCommits tiny_calls }
{}

/// A begin keeps the invariant of a core.
pub fn begin_keeps()
    ensures { BeginKeeps tiny_calls }
{}

/// A granted call keeps the invariant of a core, whatever files were swept.
pub fn ask_keeps()
    ensures { AskKeeps tiny_calls }
{}

/// An undo finds its call as the newest of the transaction's list, and the call's inverse may be
/// put to the store. The undo keeps the invariant of a core, whatever files were swept.
pub fn undo_keeps()
    ensures { UndoKeeps tiny_calls }
{}

/// A commit keeps the invariant of a core, whatever files were swept.
pub fn commit_keeps()
    ensures { CommitKeeps tiny_calls }
{}

/// In an abort, each inverse may be put to the store when its turn comes. The abort keeps the
/// invariant of a core, whatever files were swept.
pub fn abort_keeps()
    ensures { AbortKeeps tiny_calls }
{}

/// A sweep of files that nothing names and no lock covers keeps the invariant of a core.
pub fn sweep_keeps()
    ensures { SweepKeeps tiny_calls }
{}

/// If no transaction is live, a checkpoint can forget the history, and the store becomes the base.
pub fn checkpoint_keeps()
    ensures { CheckpointKeeps tiny_calls }
{}

/// An interleaved legal history exists. A child makes a directory and commits. Its parent makes a
/// file in it, undoes that and aborts. A third transaction makes a file in between, and only that
/// file is left.
pub fn interleaved_history()
    ensures legal { Legal tiny_calls start interleaved }
    ensures standing { standing tiny_calls interleaved ≡ neighbour ∷ [] }
    ensures made { (machine tiny_calls start with_file).store (Entry 2 2) ≡ Some (FileNode 4) }
    ensures undone { (machine tiny_calls start interleaved).store (Entry 2 2) ≡ None }
    ensures aborted { (machine tiny_calls start interleaved).store (Entry 1 0) ≡ None }
    ensures left { (machine tiny_calls start interleaved).store (Entry 1 1) ≡ Some (FileNode 3) }
{}

/// An abort is false in any of these ways.
///
/// - Each list is taken oldest first.
/// - The lists are taken by rising number.
/// - The calls of committed children are left out.
/// - The calls of live descendants are left out.
/// - A commit adds the child's list to its parent's as older.
pub fn aborts_need_their_order()
    ensures oldest_first { AbortOldestFirst tiny_calls → ⊥ }
    ensures rising { AbortRising tiny_calls → ⊥ }
    ensures committed_children { AbortOwnAlone tiny_calls → ⊥ }
    ensures live_descendants { AbortLeavesDescendants tiny_calls → ⊥ }
    ensures in_front { CommitInFront tiny_calls → ⊥ }
{}

/// An undo is false if it takes a call although a child is live: the call's inverse may no longer
/// fit the store. It is also false if it takes a call that a child's commit came after.
pub fn undos_need_their_target()
    ensures misfit { RevertOverChild tiny_calls → ⊥ }
    ensures live_child { UndoOverChild tiny_calls → ⊥ }
    ensures past_commit { UndoPastCommit tiny_calls → ⊥ }
{}

/// The rules of owners and locks are needed. Each of these changes can leave a call that depends on
/// a removed one.
///
/// - The ownership law does not apply to a later call without an owner.
/// - A child's commit releases its locks.
/// - A sweep drops a file that a lock covers.
pub fn locks_need_inheritance()
    ensures weak_ownership { WeakOwnership tiny_calls → ⊥ }
    ensures let_go { LocksLetGo tiny_calls → ⊥ }
    ensures swept { SweepLocked tiny_calls → ⊥ }
{}

/// The committed transactions cannot be made in an order other than that of their commits.
pub fn serial_needs_commit_order()
    ensures { SerialReversed tiny_calls → ⊥ }
{}

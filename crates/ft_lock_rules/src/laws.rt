// How the lock table follows a history: each law is the contract of a function that does nothing.
ghost use Rattle.ft_lock_rules.specs.Law.{FirstLaw, OwnerLaw, BeginLaw, GrantLaw, UndoLaw, CommitLaw, AbortLaw, ReleaseLaw, BlockLaw, ForeignLaw, AloneLaw, HolderLaw, CoverLaw, LockedLaw};
ghost use Rattle.ft_lock_rules.specs.Knowing.{KnownLaw};

use ft_posix::laws::lawful;

/// At first no transaction has a lock.
pub fn no_locks_at_first()
    ensures { FirstLaw }
{}

/// A transaction that has a lock is live.
pub fn locks_live()
    ensures { OwnerLaw }
{
    lawful();
}

/// A begin keeps the locks.
pub fn locks_begun()
    ensures { BeginLaw }
{
    lawful();
}

/// After a granted call, its asker holds the locks of its accesses, and all earlier locks are kept.
pub fn locks_granted()
    ensures { GrantLaw }
{
    lawful();
}

/// An undo keeps the locks: those of an undone call stay until its owner's commit or abort.
pub fn locks_undone()
    ensures { UndoLaw }
{
    lawful();
}

/// When a subtransaction commits, its parent inherits its locks. When a top-level transaction
/// commits, its locks are released.
pub fn locks_committed()
    ensures { CommitLaw }
{
    lawful();
}

/// An abort releases the locks of all live transactions at or below it.
pub fn locks_aborted()
    ensures { AbortLaw }
{
    lawful();
}

/// Releases one after another release the locks of all those transactions.
pub fn locks_released()
    ensures { ReleaseLaw }
{}

/// The blockers of a call by the lock table are its blockers by the history.
pub fn locks_block()
    ensures { BlockLaw }
{
    lawful();
}

/// A call is granted only if all owners of a conflicting lock are its asker or ancestors of the
/// asker.
pub fn locks_foreign()
    ensures { ForeignLaw }
{
    lawful();
}

/// A transaction without live children shares what it has locked only with its ancestors.
pub fn locks_alone()
    ensures { AloneLaw }
{
    lawful();
}

/// If all calls are granted by Moss's rule, no strict ancestor of an owner holds a lock that
/// conflicts with one of the owner's.
pub fn locks_below_holders()
    ensures { HolderLaw }
{
    lawful();
}

/// If a file's cell has no lock in the table, no lock of the history touches it.
pub fn locks_cover()
    ensures { CoverLaw }
{}

/// The cell of each lock is locked.
pub fn locks_lock()
    ensures { LockedLaw }
{}

/// The table forgets no cell that is locked or released: only a sweep removes the released ones.
pub fn locks_known()
    ensures { KnownLaw }
{}

// The lock table.
ghost use Rattle.std.specs.Prelude.{◌≡◌, ◌≢◌, ◌<◌, ◌≤◌, ◌||◌, ℕ, Bool, cond, take, length, true, false, [], OnOk, OnErr, IfOk, IfSome, IfNone};
ghost use Rattle.ft_cells.specs.declared.cell.Cell.{Cell as CellOf};
ghost use Rattle.std.specs.FinMap as finite;
ghost use Rattle.std.specs.FinSet as set;
ghost use Rattle.ft_owned_lists.specs.OwnedLists.{list_in, IsOpen};
ghost use Rattle.ft_lock_rules.specs.Holdings.{AreSingle};
ghost use Rattle.ft_lock_rules.specs.Seen.{table_of, IsKept, locks_in, locks_without};
ghost use Rattle.ft_locks.specs.BulkReleased.{left_in, with_bulk, seen_as, IsTaken};
ghost use Rattle.ft_lock_rules.specs.Locks.{no_locks, is_locked, is_released, is_opened, AreBlockers, AreFreed, AreGiven, AreGranted, AreInherited, AreListed, AreReleased};
ghost use Rattle.ft_lock_rules.specs.Rules.{is_strict};
ghost use Rattle.ft_lock_rules.specs.Surveys.{HasItsCellsAlone, HasNoHolderAbove};

use crate::blocking::{Asker, check_access, note_access, sorted_owners};
use crate::bulk_released::BulkReleased;
use crate::cells::{RELEASED, is_kept_among};
use crate::holdings::{Dropped, Holdings};
use ft_base::{Memory, Table};
use ft_forest::{Forest, TxnId};
use ft_lock_rules::{LockLine, LockModes, Rule};
use ft_posix::Access;
use ft_tree::{Cell, Keeps};
use std::alloc::Global;
use std::marker::Model;

/// The locks of transactions on cells.
///
/// Its model is the set of its locks in their order (`LockLine`), with the released cells and the
/// open transactions.
///
/// To look at a cell takes the time to hash it. A change to one transaction takes the time of its
/// own locks, however many others there are, even on the same cells. A request to read a cell skips
/// the owners that came to read it after its last writer. A request to write it looks at all owners
/// with locks on it.
pub struct Locks {
    alloc: Global,
    holdings: Holdings,
    /// Cells that were released all at once and are not reported yet, with the owners that had
    /// places on them.
    bulk: BulkReleased,
    /// Whether every lock kept its cell from a sweep when `bulk` was released, and not only the
    /// locks by which the cell's place may have been emptied.
    bulk_keeps_all: bool,
    /// Whether every lock keeps its cell from a sweep. A release one by one and a grant while
    /// released cells are left make this true, and a release of all locks at once makes it false.
    keeps_all: bool,
}

impl Drop for Locks {
    /// Drops the parts of the table.
    fn drop(self) {
        let Locks {
            alloc: _,
            holdings: _,
            bulk: _,
            bulk_keeps_all: _,
            keeps_all: _,
        } = self;
    }
}

/// The result of one look at the cells of a call.
#[derive(Drop)]
pub struct LockCheck {
    /// The transactions that block it, in rising order and each once.
    pub blockers: Vec<TxnId>,
    /// The number of its accesses, from the first on, that need no grant: the asker holds their
    /// locks.
    pub held: usize,
}

impl Model for Locks {
    ghost use Rattle.ft_lock_rules.specs.Locks.{LockTable, coded_table};
    ghost use Rattle.ft_lock_rules.specs.Holdings.{AreSingle};
    ghost use Rattle.ft_lock_rules.specs.Seen.{table_of, IsKept};
    ghost use Rattle.ft_locks.specs.BulkReleased.{left_in, with_bulk, seen_as};

    ghost Value = { LockTable };

    ghost coded = { coded_table };

    ghost view = { λ a. seen_as a.keeps_all
        (with_bulk a.bulk_keeps_all a.bulk (table_of a.holdings.cells a.holdings.lists)) };

    ghost invariant = { λ a. IsKept a.holdings.cells a.holdings.lists
        × AreSingle (left_in a.bulk_keeps_all a.bulk) };
}

impl Locks {
    /// Returns a table without locks. Takes no memory.
    pub fn new(alloc: Global) -> Locks
        ensures { result ≡ no_locks }
    {
        let mut holdings = Holdings::new(alloc);
        holdings.open_zero();
        Locks {
            alloc,
            holdings,
            bulk: BulkReleased::new(alloc),
            bulk_keeps_all: false,
            keeps_all: false,
        }
    }

    /// Sets the seed for the hashes by which cells are found, if no transaction has a lock and no
    /// released cell is left. The seed is 0 until it is set.
    ///
    /// Callers see no difference. If nobody knows the seed, nobody can choose cells with equal
    /// hashes.
    pub fn seed(&mut self, seed: u64)
        ensures { self.new ≡ self.old }
    {
        self.holdings.seed(seed);
    }

    /// Returns whether a transaction is open: it was opened, and since then it was not released and
    /// its locks were not inherited.
    pub fn is_open(&self, txn: TxnId) -> bool
        ensures { result ≡ is_opened self.now txn }
    {
        txn.0 != RELEASED && self.holdings.is_open(txn.0)
    }

    /// Opens a transaction, so that it may be given locks. It is open from its begin until it is
    /// released or its locks are inherited. One that is already open stays open. If there is not
    /// enough memory, nothing changes.
    pub fn open(&mut self, txn: TxnId) -> Result<(), Memory>
        requires { 0 < txn }
        ensures ok { OnOk result (self.new
            ≡ record self.old { opened = set.insert self.old.opened txn }) }
        ensures err { OnErr result (self.new ≡ self.old) }
    {
        self.holdings.open(txn.0)
    }

    /// Returns the transactions that block a call with these accesses, in rising order and each
    /// once.
    ///
    /// They are the owners of conflicting locks, except the asker and its ancestors. By
    /// `Rule::Moss` the ancestors that hold a conflicting lock are blockers too.
    pub fn blockers(
        &self,
        forest: &Forest,
        txn: TxnId,
        accesses: &[Access],
        rule: Rule,
    ) -> Result<Vec<TxnId>, Memory>
        ensures { IfOk result (λ blockers. AreBlockers rule self.now forest.now txn accesses.now
            blockers.items) }
    {
        let mut found = Table::new(self.alloc);
        for access in accesses {
            let asker = Asker { txn, rule };
            note_access(&self.holdings, &mut found, forest, &asker, access)?;
        }
        sorted_owners(self.alloc, &found)
    }

    /// Returns the transactions that block a call with these accesses by a rule. Also returns for
    /// how many of the accesses, from the first on, the asker already holds the locks.
    ///
    /// If a lock of the asker's own covers an access, its cell is looked at once, and the cells
    /// that overlap it are not. Only an ancestor can have a lock there that conflicts. If all calls
    /// are granted by `Rule::Moss`, no ancestor holds one.
    pub fn check(
        &self,
        forest: &Forest,
        txn: TxnId,
        accesses: &[Access],
        rule: Rule,
    ) -> Result<LockCheck, Memory>
        requires alone { HasItsCellsAlone self.now forest.now txn }
        requires no_holder { is_strict rule ≡ true → HasNoHolderAbove self.now forest.now }
        ensures blockers { IfOk result
            (λ check. AreBlockers rule self.now forest.now txn accesses.now check.blockers.items) }
        ensures within { IfOk result (λ check. check.held ≤ length accesses.now) }
        ensures held { IfOk result
            (λ check. AreGranted self.now self.now txn (take check.held accesses.now)) }
    {
        let mut found = Table::new(self.alloc);
        let mut held = 0;
        let mut has_all = true;
        for access in accesses {
            let asker = Asker { txn, rule };
            let is_held = check_access(&self.holdings, &mut found, forest, &asker, access)?;
            has_all &= is_held;
            if has_all {
                held += 1;
            }
        }
        let blockers = sorted_owners(self.alloc, &found)?;
        Ok(LockCheck { blockers, held })
    }

    /// Gives a transaction the locks of these accesses, which it then holds. If there is not enough
    /// memory, nothing changes.
    ///
    /// An access whose lock it already has costs a look at its cell, and no memory.
    pub fn grant(&mut self, txn: TxnId, accesses: &[Access]) -> Result<(), Memory>
        requires { is_opened self.old txn ≡ true }
        ensures ok { OnOk result (AreGranted self.old self.new txn accesses.now) }
        ensures err { OnErr result (self.new ≡ self.old) }
    {
        let has_released = self.has_released();
        give_locks(&mut self.holdings, txn.0, accesses)?;
        self.keeps_all |= has_released;
        Ok(())
    }

    /// Hands the locks that a child held or retained to its parent and closes the child (Moss 1981,
    /// commit of a subtransaction). The parent retains them in the same mode. Takes no memory.
    pub fn inherit(&mut self, child: TxnId, parent: TxnId)
        requires child { is_opened self.old child ≡ true }
        requires parent { is_opened self.old parent ≡ true }
        requires apart { child ≢ parent }
        ensures { AreInherited self.old self.new child parent }
    {
        self.holdings.hand_over(child.0, parent.0);
        self.holdings.close(child.0);
    }

    /// Drops a transaction's locks and closes it (Moss 1981, commit of a top-level transaction, and
    /// abort). A cell that was locked and no longer is becomes a released cell. If all locks are
    /// released at once and not every lock kept its cell from a sweep, only a cell whose place may
    /// have been emptied becomes one. Takes no memory.
    pub fn release(&mut self, txn: TxnId)
        requires { is_opened self.old txn ≡ true }
        ensures { AreReleased self.old self.new txn }
    {
        let at_once = release_places(&mut self.holdings, &mut self.bulk, txn.0);
        self.holdings.close(txn.0);
        if at_once {
            self.bulk_keeps_all = self.keeps_all;
        }
        self.keeps_all = !at_once;
    }

    /// Returns whether there may be a released cell that is not reported yet.
    fn has_released(&self) -> bool
        ensures { result ≡ false → (c : CellOf) → is_released self.now c ≡ false }
    {
        !self.bulk.is_empty() || !self.holdings.is_bare(RELEASED)
    }

    /// Returns the locks in their order. Takes the time to sort them.
    pub fn lines(&self) -> Result<Vec<LockLine>, Memory>
        ensures { IfOk result (λ lines. AreListed self.now lines.items) }
    {
        let mut lines = Vec::new(self.alloc);
        self.holdings.list(&mut lines)?;
        lines.sort()?;
        Ok(lines)
    }

    /// Removes and returns a cell that was released and has not been locked since, if there is one,
    /// so that it is reported once. Takes no memory.
    pub fn take_released(&mut self) -> Option<Cell>
        ensures cell { IfSome result (λ cell. is_released self.old cell ≡ true) }
        ensures taken { IfSome result
            (λ cell. self.new ≡ record self.old {
              released_cells = set.remove
                  self.old.released_cells cell;
            }) }
        ensures none { IfNone result ((self.old.released_cells ≡ set.empty)
            × (self.new ≡ self.old)) }
    {
        let told = self.bulk.take(&self.holdings, self.bulk_keeps_all);
        if told.is_some() {
            return told;
        }
        take_listed(&mut self.holdings)
    }
}

/// Gives an owner the locks of these accesses. If there is not enough memory, nothing changes that
/// callers see.
fn give_locks(holdings: &mut Holdings, owner: u64, accesses: &[Access]) -> Result<(), Memory>
    requires kept { IsKept holdings.old.cells holdings.old.lists }
    requires there { IsOpen holdings.old.lists owner }
    requires apart { owner ≢ 0 }
    ensures kept { IsKept holdings.new.cells holdings.new.lists }
    ensures ok { OnOk result
        (AreGiven (locks_in holdings.old) (locks_in holdings.new) owner accesses.now) }
    ensures err { OnErr result (locks_in holdings.new ≡ locks_in holdings.old) }
{
    let has_all = holdings.reserve(owner, accesses)?;
    if !has_all {
        holdings.mark_all(owner, accesses);
    }
    Ok(())
}

/// Releases the places of an owner, and returns whether it did so all at once. It does if `bulk` is
/// empty and `Holdings::give_up` succeeds; otherwise it releases them one by one. Takes no memory.
fn release_places(holdings: &mut Holdings, bulk: &mut BulkReleased, owner: u64) -> bool
    requires kept { IsKept holdings.old.cells holdings.old.lists }
    requires there { IsOpen holdings.old.lists owner }
    requires apart { owner ≢ 0 }
    ensures kept { IsKept holdings.new.cells (finite.remove holdings.new.lists owner) }
    ensures list { list_in holdings.new.lists owner ≡ [] }
    ensures single { (all : Bool) → (result ≡ false → AreSingle (left_in all bulk.old))
        → AreSingle (left_in all bulk.new) }
    ensures none_left { result ≡ true → (c : CellOf)
        → is_locked (locks_without holdings.new owner) c ≡ false }
    ensures at_once { result ≡ true → (was all : Bool)
        → AreFreed all (with_bulk was bulk.old (locks_in holdings.old))
        (with_bulk all bulk.new (locks_without holdings.new owner)) owner }
    ensures one_by_one { result ≡ false → (all : Bool)
        → AreFreed true (with_bulk all bulk.old (locks_in holdings.old))
        (with_bulk all bulk.new (locks_without holdings.new owner)) owner }
{
    if bulk.is_empty() && holdings.give_up(owner, bulk) {
        return true;
    }
    holdings.hand_over(owner, RELEASED);
    false
}

/// Removes and returns one of the cells that were released one by one and have not been locked
/// since, if there is one. Takes no memory.
fn take_listed(holdings: &mut Holdings) -> Option<Cell>
    requires { IsKept holdings.old.cells holdings.old.lists }
    ensures kept { IsKept holdings.new.cells holdings.new.lists }
    ensures cell { IfSome result (λ cell. is_released (locks_in holdings.old) cell ≡ true) }
    ensures taken { IfSome result
        (λ cell. IsTaken (locks_in holdings.old) (locks_in holdings.new) cell) }
    ensures none { IfNone result (((locks_in holdings.old).released_cells ≡ set.empty)
        × (locks_in holdings.new ≡ locks_in holdings.old)) }
{
    while let Some(dropped) = holdings.drop_front(RELEASED) {
        if dropped.freed.is_some() {
            return dropped.freed;
        }
    }
    None
}

impl Keeps for Locks {
    ghost use Rattle.ft_lock_rules.specs.Locks.{LockTable, is_kept};

    ghost kept = { is_kept };

    ghost released_cells = { λ (t : LockTable). t.released_cells };

    ghost all_told = { λ (t : LockTable). record t { released_cells = set.empty } };

    /// Returns whether a lock of some transaction keeps the cell from a sweep.
    fn keeps(&self, cell: &Cell) -> bool {
        match self.holdings.holders(cell) {
            Some(holders) => is_kept_among(cell, holders, self.keeps_all),
            None => false,
        }
    }

    /// Removes and returns a released cell, if there is one, as `Locks::take_released` does.
    fn take_released(&mut self) -> Option<Cell> {
        Locks::take_released(self)
    }
}

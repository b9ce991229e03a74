// The owners that have locks on one cell: mostly one owner, whose locks are stored in place.
ghost use Rattle.std.specs.Prelude.{◌≡◌, ◌≢◌, ℕ, true, false, None, Some, OnOk, OnErr, IfOk, IsSome, IsTrue};
ghost use Rattle.std.specs.FinMap as finite;
ghost use Rattle.ft_lock_rules.specs.declared.lock_modes.LockModes.{LockModes};
ghost use Rattle.ft_lock_rules.specs.LockModes.{is_marked_of};
ghost use Rattle.ft_lock_rules.specs.CellLocks.{marks_in, AreApart};

use crate::crowd::Crowd;
use crate::lock_modes::LockModes;
use ft_base::Memory;
use ft_posix::Mode;
use std::alloc::Global;
use std::marker::Model;
use std::slice;

/// An owner and its locks.
#[derive(Clone, Copy, Default)]
pub struct OwnerLocks {
    pub owner: u64,
    pub marks: LockModes,
}

/// The locks of each owner that has a place on a cell. An owner may have a place and no locks.
///
/// Mostly one owner has a place, which takes no memory. Several owners are stored on the heap, and
/// stay there even if only one is left.
#[derive(Drop)]
pub struct CellLocks {
    alloc: Global,
    group: Group,
}

/// How many owners have a place, and which.
#[derive(Drop)]
enum Group {
    Nobody,
    One(OwnerLocks),
    Several(Box<Crowd>),
}

impl Model for CellLocks {
    ghost use Rattle.ft_lock_rules.specs.CellLocks.{Owners, coded_owners};
    ghost use Rattle.ft_lock_rules.specs.Groups.{owners_in};

    ghost Value = { Owners };

    ghost coded = { coded_owners };

    ghost view = { λ a. owners_in a.group };
}

impl CellLocks {
    ghost use Rattle.ft_lock_rules.specs.CellLocks.{as_entries, marked, handed, HasConflicting};

    /// Returns the locks of a cell on which no owner has a place. Takes no memory.
    pub fn new(alloc: Global) -> CellLocks
        ensures { result ≡ finite.empty }
    {
        CellLocks {
            alloc,
            group: Group::Nobody,
        }
    }

    /// Returns the locks of an owner, if it has a place.
    pub fn get(&self, owner: u64) -> Option<LockModes>
        ensures { result ≡ finite.get self.now owner }
    {
        match &self.group {
            Group::Nobody => None,
            Group::One(one) => (one.owner == owner).then_some(one.marks),
            Group::Several(crowd) => crowd.get(owner),
        }
    }

    /// Returns the owners with their locks, each once and in no order.
    pub fn as_slice(&self) -> &[OwnerLocks]
        ensures holdings { finite.from_entries (as_entries result.now) ≡ self.now }
        ensures apart { AreApart result.now }
    {
        match &self.group {
            Group::Nobody => &[],
            Group::One(one) => slice::from_ref(one),
            Group::Several(crowd) => crowd.as_slice(),
        }
    }

    /// Returns some of the owners with their locks, each once and in no order. They include every
    /// owner whose locks conflict with an access in this mode.
    ///
    /// For a read with many places, these are the owners up to the last place at which any owner
    /// has been allowed to write. Suppose that only ancestors of a writer have locks when it comes.
    /// These owners are then at most as many as were above one another at that time, however many
    /// have read since.
    pub fn may_conflict(&self, mode: Mode) -> &[OwnerLocks]
        ensures all { HasConflicting self.now result.now mode }
        ensures had { (u : ℕ) (marks : LockModes) → marks_in result.now u ≡ Some marks
            → finite.get self.now u ≡ Some marks }
        ensures apart { AreApart result.now }
    {
        match &self.group {
            Group::Nobody => &[],
            Group::One(one) => slice::from_ref(one),
            Group::Several(crowd) => crowd.may_conflict(mode),
        }
    }

    /// Returns whether no owner other than this one has a place.
    pub fn is_last(&self, owner: u64) -> bool
        ensures none { IsTrue result → (u : ℕ)
            → finite.get (finite.remove self.now owner) u ≡ None }
        ensures some { result ≡ false → (u : ℕ)
            × IsSome (finite.get (finite.remove self.now owner) u) }
    {
        match &self.group {
            Group::Nobody => true,
            Group::One(one) => one.owner == owner,
            Group::Several(crowd) => crowd.is_last(owner),
        }
    }

    /// Returns whether any owner has a lock.
    pub fn is_locked(&self) -> bool
        ensures some { IsTrue result → (owner : ℕ)
            × (is_marked_of (finite.get self.now owner) ≡ true) }
        ensures none { result ≡ false → (owner : ℕ)
            → is_marked_of (finite.get self.now owner) ≡ false }
    {
        match &self.group {
            Group::Nobody => false,
            Group::One(one) => one.marks.is_some(),
            Group::Several(crowd) => crowd.is_locked(),
        }
    }

    /// Gives an owner a place, with these locks. If there is not enough memory, nothing has
    /// changed.
    pub fn add(&mut self, owner: u64, marks: LockModes) -> Result<(), Memory>
        requires { finite.get self.old owner ≡ None }
        ensures ok { OnOk result (self.new ≡ finite.insert self.old owner marks) }
        ensures err { OnErr result (self.new ≡ self.old) }
    {
        let holding = OwnerLocks { owner, marks };
        match &mut self.group {
            Group::Nobody => {
                self.group = Group::One(holding);
                Ok(())
            }
            Group::One(one) => {
                let crowd = Crowd::of_two(self.alloc, *one, holding)?;
                self.group = Group::Several(crowd);
                Ok(())
            }
            Group::Several(crowd) => crowd.add(owner, marks),
        }
    }

    /// Gives an owner a place with these locks, if it has none, and otherwise returns its locks. If
    /// there is not enough memory, nothing has changed.
    pub fn place(&mut self, owner: u64, marks: LockModes) -> Result<Option<LockModes>, Memory>
        ensures had { IfOk result (λ had. had ≡ finite.get self.old owner) }
        ensures placed { IfOk result
            (λ had. had ≡ None → self.new ≡ finite.insert self.old owner marks) }
        ensures kept { IfOk result (λ had. IsSome had → self.new ≡ self.old) }
        ensures err { OnErr result (self.new ≡ self.old) }
    {
        let had = self.get(owner);
        if had.is_none() {
            self.add(owner, marks)?;
        }
        Ok(had)
    }

    /// Adds these locks to those of an owner, if it has a place. Takes no memory.
    pub fn mark(&mut self, owner: u64, marks: LockModes)
        ensures { self.new ≡ marked self.old owner marks }
    {
        match &mut self.group {
            Group::Nobody => {}
            Group::One(one) => {
                if one.owner == owner {
                    one.marks = one.marks.with(marks);
                }
            }
            Group::Several(crowd) => crowd.mark(owner, marks),
        }
    }

    /// Gives an owner's place to another owner, which keeps its own locks and gets these. Returns
    /// whether the other had a place already. Takes no memory.
    pub fn hand_over(&mut self, from: u64, to: u64, marks: LockModes) -> bool
        requires there { IsSome (finite.get self.old from) }
        requires apart { from ≢ to }
        ensures merged { result ≡ finite.contains_key self.old to }
        ensures after { self.new ≡ handed self.old from to marks }
    {
        match &mut self.group {
            Group::Nobody => false,
            Group::One(one) => {
                *one = OwnerLocks { owner: to, marks };
                false
            }
            Group::Several(crowd) => crowd.hand_over(from, to, marks),
        }
    }

    /// Removes an owner's place. Takes no memory.
    pub fn remove(&mut self, owner: u64)
        ensures { self.new ≡ finite.remove self.old owner }
    {
        match &mut self.group {
            Group::Nobody => {}
            Group::One(one) => {
                if one.owner == owner {
                    self.group = Group::Nobody;
                }
            }
            Group::Several(crowd) => crowd.remove(owner),
        }
    }
}

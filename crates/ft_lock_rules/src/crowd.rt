// The owners that have locks on one cell, if there are several: a list by owner.
ghost use Rattle.std.specs.Prelude.{◌≡◌, ◌≢◌, ◌==◌, not, ℕ, true, false, None, Some, [], ◌∷◌, ◌++◌, List, OnOk, OnErr, IfOk, IfSome, IfNone, IsSome, IsTrue};
ghost use Rattle.std.specs.FinMap as finite;
ghost use Rattle.std.specs.List.{list_any};
ghost use Rattle.std.specs.Option.{option_copied};
ghost use Rattle.ft_lock_rules.specs.declared.lock_modes.LockModes.{LockModes};
ghost use Rattle.ft_lock_rules.specs.declared.cell_locks.OwnerLocks.{OwnerLocks};
ghost use Rattle.ft_lock_rules.specs.LockModes.{is_marked, is_marked_of};
ghost use Rattle.ft_lock_rules.specs.CellLocks.{place_in, marks_in, AreApart, IsPlaceOf, IsIndexOf, IsIndexIf, FollowsMarks, FollowsMove};

use crate::cell_locks::OwnerLocks;
use crate::lock_modes::LockModes;
use crate::owner_index::OwnerIndex;
use ft_base::Memory;
use ft_posix::Mode;
use smallvec::SmallVec;
use std::alloc::Global;
use std::marker::Model;

/// The locks of each owner that has a place on a cell. An owner may have a place and no locks.
///
/// The owners are in a list without order. If there are more than a few, an index has the place of
/// each, if there was enough memory for it. A function for one owner then takes the same time,
/// however many owners there are.
#[derive(Drop)]
pub(crate) struct Crowd {
    list: SmallVec<OwnerLocks, 2>,
    index: Option<OwnerIndex>,
}

/// Up to this many owners are searched one by one. If there are more, an index is kept.
const FEW: usize = 8;

impl Model for Crowd {
    ghost use Rattle.std.specs.FinMap as finite;
    ghost use Rattle.ft_lock_rules.specs.CellLocks.{Owners, coded_owners, as_entries, AreApart, IsIndexIf};

    ghost Value = { Owners };

    ghost coded = { coded_owners };

    ghost view = { λ a. finite.from_entries (as_entries a.list.items) };

    ghost invariant = { λ a. AreApart a.list.items × IsIndexIf a.index a.list.items };
}

/// Returns the place of an owner in a list, if it has one.
fn place_of(list: &[OwnerLocks], owner: u64) -> Option<usize>
    ensures { result ≡ place_in list.now owner }
{
    list.iter().position(|holding| holding.owner == owner)
}

/// Returns the place of an owner in a list, if it has one. Uses an index of the list, if there is
/// one.
fn find(list: &[OwnerLocks], index: Option<&OwnerIndex>, owner: u64) -> Option<usize>
    requires { IsIndexIf (option_copied index) list.now }
    ensures some { IfSome result (λ place. IsPlaceOf list.now place owner) }
    ensures none { IfNone result (marks_in list.now owner ≡ None) }
{
    match index {
        Some(index) => index.get(owner),
        None => place_of(list, owner),
    }
}

/// Returns an index of a list.
fn index_of(alloc: Global, list: &[OwnerLocks]) -> Result<OwnerIndex, Memory>
    requires { AreApart list.now }
    ensures { IfOk result (λ index. IsIndexOf index list.now) }
{
    let mut index = OwnerIndex::new(alloc)?;
    for (place, holding) in list.iter().enumerate() {
        index.put(holding.owner, place, holding.marks)?;
    }
    Ok(index)
}

/// Makes an index of a list, if there is none and the list is long.
fn begin_index(
    index: &mut Option<OwnerIndex>,
    alloc: Global,
    list: &[OwnerLocks],
) -> Result<(), Memory>
    requires index { IsIndexIf index.old list.now }
    requires apart { AreApart list.now }
    ensures { IsIndexIf index.new list.now }
{
    if index.is_none() && list.len() >= FEW {
        *index = Some(index_of(alloc, list)?);
    }
    Ok(())
}

/// Adds an owner to the index of a list, for the place after the list's last one. If there is no
/// index and the list is long, it makes one.
fn index_behind(
    index: &mut Option<OwnerIndex>,
    alloc: Global,
    list: &[OwnerLocks],
    holding: OwnerLocks,
) -> Result<(), Memory>
    requires index { IsIndexIf index.old list.now }
    requires apart { AreApart list.now }
    requires absent { marks_in list.now holding.owner ≡ None }
    ensures ok { OnOk result (IsIndexIf index.new (list.now ++ holding ∷ [])) }
    ensures err { OnErr result (IsIndexIf index.new list.now) }
{
    begin_index(index, alloc, list)?;
    if let Some(index) = index {
        index.put(holding.owner, list.len(), holding.marks)?;
    }
    Ok(())
}

/// Records in an index, if there is one, the locks that the owner at a place has from now on.
fn index_marks(index: &mut Option<OwnerIndex>, place: usize, marks: LockModes)
    ensures { FollowsMarks index.old index.new place marks }
{
    if let Some(index) = index {
        index.mark(place, marks);
    }
}

/// Puts another owner at the place of one in the index of a list, if there is one. If the index has
/// no room for it, the index is dropped. Takes no memory.
fn index_moved(index: &mut Option<OwnerIndex>, place: usize, from: u64, to: OwnerLocks)
    ensures { FollowsMove index.old index.new place from to }
{
    let Some(kept) = index else {
        return;
    };
    kept.remove(from);
    if !kept.put_in_room(to.owner, place, to.marks) {
        *index = None;
    }
}

/// Removes the last owner of a list from its index, if there is one.
fn index_without(index: &mut Option<OwnerIndex>, last: OwnerLocks)
    ensures { (rest : List OwnerLocks) → AreApart (rest ++ last ∷ [])
        → IsIndexIf index.old (rest ++ last ∷ []) → IsIndexIf index.new rest }
{
    if let Some(index) = index {
        index.remove(last.owner);
    }
}

/// Returns whether any owner in a list has a lock.
fn is_any_marked(list: &[OwnerLocks]) -> bool
    ensures { result ≡ list_any (λ h. is_marked h.marks) list.now }
{
    list.iter().any(|holding| holding.marks.is_some())
}

/// Returns whether any owner other than this one is in a list.
fn has_others(list: &[OwnerLocks], owner: u64) -> bool
    ensures { result ≡ list_any (λ h. not (h.owner == owner)) list.now }
{
    list.iter().any(|holding| holding.owner != owner)
}

impl Crowd {
    ghost use Rattle.ft_lock_rules.specs.CellLocks.{alone, as_entries, AreApart, marked, handed, HasConflicting};

    /// Returns the locks of a cell on which no owner has a place. Takes no memory.
    pub(crate) fn new(alloc: Global) -> Crowd
        ensures { result ≡ finite.empty }
    {
        Crowd {
            list: SmallVec::new(alloc),
            index: None,
        }
    }

    /// Returns two owners with their locks. They are on the heap, since most cells have one owner.
    pub(crate) fn of_two(
        alloc: Global,
        first: OwnerLocks,
        second: OwnerLocks,
    ) -> Result<Box<Crowd>, Memory>
        requires { second.owner ≢ first.owner }
        ensures { IfOk result (λ crowd. crowd.value
            ≡ finite.insert (alone first) second.owner second.marks) }
    {
        let mut crowd = Crowd::new(alloc);
        crowd.add(first.owner, first.marks)?;
        crowd.add(second.owner, second.marks)?;
        Ok(Box::new(alloc, crowd)?)
    }

    /// Returns the locks of an owner, if it has a place.
    pub(crate) fn get(&self, owner: u64) -> Option<LockModes>
        ensures { result ≡ finite.get self.now owner }
    {
        let list = self.list.as_slice();
        let place = find(list, self.index.as_ref(), owner)?;
        Some(list[place].marks)
    }

    /// Returns the owners with their locks, each once and in no order.
    pub(crate) fn as_slice(&self) -> &[OwnerLocks]
        ensures holdings { finite.from_entries (as_entries result.now) ≡ self.now }
        ensures apart { AreApart result.now }
    {
        self.list.as_slice()
    }

    /// Returns some of the owners with their locks, each once and in no order. They include every
    /// owner whose locks conflict with an access in this mode.
    ///
    /// For a read with an index, these are the owners up to the last place at which any owner has
    /// been allowed to write. Suppose that only ancestors of a writer have locks when it comes.
    /// These owners are then at most as many as were above one another at that time, however many
    /// have read since.
    pub(crate) fn may_conflict(&self, mode: Mode) -> &[OwnerLocks]
        ensures all { HasConflicting self.now result.now mode }
        ensures had { (u : ℕ) (marks : LockModes) → marks_in result.now u ≡ Some marks
            → finite.get self.now u ≡ Some marks }
        ensures apart { AreApart result.now }
    {
        let list = self.list.as_slice();
        match (mode, &self.index) {
            (Mode::Read, Some(index)) if index.last_writer() < list.len() => {
                &list[..index.last_writer() + 1]
            }
            _ => list,
        }
    }

    /// Returns whether no owner other than this one has a place.
    pub(crate) fn is_last(&self, owner: u64) -> bool
        ensures none { IsTrue result → (u : ℕ)
            → finite.get (finite.remove self.now owner) u ≡ None }
        ensures some { result ≡ false → (u : ℕ)
            × IsSome (finite.get (finite.remove self.now owner) u) }
    {
        !has_others(self.list.as_slice(), owner)
    }

    /// Returns whether any owner has a lock.
    pub(crate) fn is_locked(&self) -> bool
        ensures some { IsTrue result → (owner : ℕ)
            × (is_marked_of (finite.get self.now owner) ≡ true) }
        ensures none { result ≡ false → (owner : ℕ)
            → is_marked_of (finite.get self.now owner) ≡ false }
    {
        is_any_marked(self.list.as_slice())
    }

    /// Gives an owner a place, with these locks. If there is not enough memory, nothing has
    /// changed.
    pub(crate) fn add(&mut self, owner: u64, marks: LockModes) -> Result<(), Memory>
        requires { finite.get self.old owner ≡ None }
        ensures ok { OnOk result (self.new ≡ finite.insert self.old owner marks) }
        ensures err { OnErr result (self.new ≡ self.old) }
    {
        let holding = OwnerLocks { owner, marks };
        self.list.reserve(1)?;
        let alloc = *self.list.allocator();
        index_behind(&mut self.index, alloc, self.list.as_slice(), holding)?;
        self.list.push_reserved(holding);
        Ok(())
    }

    /// Adds these locks to those of an owner, if it has a place. Takes no memory.
    pub(crate) fn mark(&mut self, owner: u64, marks: LockModes)
        ensures { self.new ≡ marked self.old owner marks }
    {
        if let Some(place) = find(self.list.as_slice(), self.index.as_ref(), owner) {
            let holding = self.list.get_mut(place).unwrap();
            holding.marks = holding.marks.with(marks);
            index_marks(&mut self.index, place, holding.marks);
        }
    }

    /// Gives an owner's place to another owner, which keeps its own locks and gets these. Returns
    /// whether the other had a place already. Takes no memory.
    pub(crate) fn hand_over(&mut self, from: u64, to: u64, marks: LockModes) -> bool
        requires there { IsSome (finite.get self.old from) }
        requires apart { from ≢ to }
        ensures merged { result ≡ finite.contains_key self.old to }
        ensures after { self.new ≡ handed self.old from to marks }
    {
        let is_there = self.get(to).is_some();
        if is_there {
            self.mark(to, marks);
            self.remove(from);
        } else {
            self.rename(from, to, marks);
        }
        is_there
    }

    /// Gives an owner's place to one that has none, with these locks.
    fn rename(&mut self, from: u64, to: u64, marks: LockModes)
        requires there { IsSome (finite.get self.old from) }
        requires absent { finite.get self.old to ≡ None }
        ensures { self.new ≡ finite.insert (finite.remove self.old from) to marks }
    {
        if let Some(place) = find(self.list.as_slice(), self.index.as_ref(), from) {
            index_moved(
                &mut self.index,
                place,
                from,
                OwnerLocks { owner: to, marks },
            );
            let holding = self.list.get_mut(place).unwrap();
            *holding = OwnerLocks { owner: to, marks };
        }
    }

    /// Removes and returns the last owner of the list, if there is one.
    fn take_last(&mut self) -> Option<OwnerLocks>
        ensures had { IfSome result (λ last. finite.get self.old last.owner ≡ Some last.marks) }
        ensures taken { IfSome result (λ last. self.new ≡ finite.remove self.old last.owner) }
        ensures none { IfNone result (self.old ≡ finite.empty) }
    {
        let last = self.list.pop()?;
        index_without(&mut self.index, last);
        Some(last)
    }

    /// Removes an owner's place. Takes no memory.
    pub(crate) fn remove(&mut self, owner: u64)
        ensures { self.new ≡ finite.remove self.old owner }
    {
        if self.get(owner).is_none() {
            return;
        }
        // The last owner moves to its place, so that no other owner has to be moved.
        if let Some(last) = self.take_last() {
            if last.owner != owner {
                self.rename(owner, last.owner, last.marks);
            }
        }
    }
}

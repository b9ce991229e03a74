// The index of a long list of owners.
ghost use Rattle.std.specs.Prelude.{◌≡◌, ◌≤◌, ℕ, true, false, [], OnOk, OnErr, IfOk};
ghost use Rattle.std.specs.FinMap as finite;
ghost use Rattle.ft_posix.specs.declared.call.Mode.TheVariants.{Read as ReadMode};
ghost use Rattle.ft_lock_rules.specs.LockModes.{conflicts_with};
ghost use Rattle.ft_lock_rules.specs.CellLocks.{IsIndexOf};

use crate::lock_modes::LockModes;
use ft_base::Memory;
use ft_posix::Mode;
use std::alloc::Global;
use std::collections::HashMap;
use std::marker::Model;

/// The place of each owner of a list, by its number, and a place after which none may write.
///
/// It is on the heap, since few lists have one.
#[derive(Drop)]
pub(crate) struct OwnerIndex {
    inside: Box<Inside>,
}

#[derive(Drop)]
struct Inside {
    places: HashMap<u64, usize>,
    /// No owner after this place may write.
    last_writer: usize,
}

impl Model for OwnerIndex {
    ghost use Rattle.std.specs.FinMap as finite;
    ghost use Rattle.ft_lock_rules.specs.CellLocks.{Indexed, coded_indexed};

    ghost Value = { Indexed };

    ghost coded = { coded_indexed };

    ghost view = { λ a. record {
      places = finite.from_entries a.inside.value.places.entries;
      last_writer = a.inside.value.last_writer;
    } };
}

impl OwnerIndex {
    /// Returns the index of an empty list.
    pub(crate) fn new(alloc: Global) -> Result<OwnerIndex, Memory>
        ensures { IfOk result (λ index. IsIndexOf index []) }
    {
        let inside = Box::new(
            alloc,
            Inside {
                places: HashMap::new(alloc),
                last_writer: 0,
            },
        )?;
        Ok(OwnerIndex { inside })
    }

    /// Returns the place of an owner, if it has one.
    pub(crate) fn get(&self, owner: u64) -> Option<usize>
        ensures { result ≡ finite.get self.now.places owner }
    {
        self.inside.places.get(&owner).copied()
    }

    /// Returns a place after which no owner may write.
    pub(crate) fn last_writer(&self) -> usize
        ensures { result ≡ self.now.last_writer }
    {
        self.inside.last_writer
    }

    /// Records the locks of the owner at a place. Takes no memory.
    pub(crate) fn mark(&mut self, place: usize, marks: LockModes)
        ensures places { self.new.places ≡ self.old.places }
        ensures later { self.old.last_writer ≤ self.new.last_writer }
        ensures writer { conflicts_with marks ReadMode ≡ true → place ≤ self.new.last_writer }
    {
        if marks.conflicts_with(Mode::Read) && self.inside.last_writer < place {
            self.inside.last_writer = place;
        }
    }

    /// Puts an owner with these locks at a place. If there is not enough memory, nothing has
    /// changed.
    ///
    /// Afterwards there is room for as many more owners as have places. This many places can then
    /// go to other owners without memory.
    pub(crate) fn put(&mut self, owner: u64, place: usize, marks: LockModes) -> Result<(), Memory>
        ensures places { OnOk result (self.new.places ≡ finite.insert self.old.places owner place) }
        ensures later { OnOk result (self.old.last_writer ≤ self.new.last_writer) }
        ensures writer { OnOk result (conflicts_with marks ReadMode ≡ true
            → place ≤ self.new.last_writer) }
        ensures err { OnErr result (self.new ≡ self.old) }
    {
        let count = self.inside.places.len();
        self.inside.places.reserve(count + 1)?;
        self.inside.places.insert(owner, place)?;
        self.mark(place, marks);
        Ok(())
    }

    /// Puts an owner with these locks at a place, if there is room for it, and returns whether
    /// there is. Takes no memory.
    pub(crate) fn put_in_room(&mut self, owner: u64, place: usize, marks: LockModes) -> bool
        ensures places { result ≡ true
            → self.new.places ≡ finite.insert self.old.places owner place }
        ensures later { self.old.last_writer ≤ self.new.last_writer }
        ensures writer { result ≡ true → conflicts_with marks ReadMode ≡ true
            → place ≤ self.new.last_writer }
        ensures full { result ≡ false → self.new ≡ self.old }
    {
        let places = &mut self.inside.places;
        if places.len() == places.capacity() || places.insert(owner, place).is_err() {
            return false;
        }
        self.mark(place, marks);
        true
    }

    /// Removes an owner. Takes no memory.
    pub(crate) fn remove(&mut self, owner: u64)
        ensures { self.new ≡ record self.old { places = finite.remove self.old.places owner } }
    {
        self.inside.places.remove(&owner);
    }
}

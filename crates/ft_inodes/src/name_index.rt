// The index of the places of many names, by the hashes of the names.
ghost use Rattle.std.specs.Prelude.{◌≡◌, ◌<◌, ◌++◌, ◌∷◌, [], ℕ, List, IfOk, OnOk, OnErr, length};
ghost use Rattle.ft_inodes.specs.Named.{names_in, AreIndexed, IsFoundAt, IsSwapped};

use crate::place::{Place, hash_of};
use ft_base::Memory;
use ft_index::Index;
use ft_path::Name;
use std::alloc::Global;

/// An index of places by the hashes of their names, under a seed.
#[derive(Drop)]
pub(crate) struct NameIndex {
    seed: u64,
    keys: Index,
}

impl NameIndex {
    /// Returns an index of the names of some places. Out of memory is the only error.
    pub(crate) fn of(alloc: Global, places: &[Place], seed: u64) -> Result<NameIndex, Memory>
        ensures { IfOk result (λ index. AreIndexed index (names_in places.now)) }
    {
        let mut keys = Index::new(alloc);
        for (key, place) in places.iter().enumerate() {
            keys.insert(key, hash_of(&place.name, seed))?;
        }
        Ok(NameIndex { seed, keys })
    }

    /// Returns an index of the names of these places, under the seed of this index. Out of memory
    /// is the only error.
    pub(crate) fn again(&self, alloc: Global, places: &[Place]) -> Result<NameIndex, Memory>
        ensures { IfOk result (λ index. AreIndexed index (names_in places.now)) }
    {
        NameIndex::of(alloc, places, self.seed)
    }

    /// Returns where a name is among the places, if it is there.
    pub(crate) fn find(&self, places: &[Place], name: &Name) -> Option<usize>
        requires { AreIndexed self.now (names_in places.now) }
        ensures { IsFoundAt (names_in places.now) name.now result }
    {
        for key in self.keys.candidates(hash_of(name, self.seed)) {
            if places[key].name == *name {
                return Some(key);
            }
        }
        None
    }

    /// Adds a name that is to come after these places. Out of memory is the only error, and it
    /// changes nothing.
    pub(crate) fn push(&mut self, places: &[Place], name: &Name) -> Result<(), Memory>
        requires { AreIndexed self.old (names_in places.now) }
        ensures ok { OnOk result (AreIndexed self.new (names_in places.now ++ name.now ∷ [])) }
        ensures err { OnErr result (self.new ≡ self.old) }
    {
        let hash = hash_of(name, self.seed);
        self.keys.insert(places.len(), hash)
    }

    /// Removes the name of the place `at`, to which the last place then moves. Takes no memory.
    pub(crate) fn swap_remove(&mut self, places: &[Place], at: usize)
        requires indexed { AreIndexed self.old (names_in places.now) }
        requires within { at < length places.now }
        ensures { (names : List (List ℕ)) → IsSwapped (names_in places.now) names at
            → AreIndexed self.new names }
    {
        let last = places.len() - 1;
        let seed = self.seed;
        self.keys.remove(at, hash_of(&places[at].name, seed));
        if at < last {
            self.keys.rekey(last, at, hash_of(&places[last].name, seed));
        }
    }
}

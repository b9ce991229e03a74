// An index: which keys have which hash.
ghost use Rattle.std.specs.Prelude.{◌≡◌, ◌<◌, ◌↔◌, ℕ, OnOk, OnErr, length};
ghost use Rattle.std.specs.List.{Contains};
ghost use Rattle.std.specs.FinMap as finite;

use crate::candidates::Candidates;
use crate::growth::make_room;
use crate::probe::{close_gap, find, home, place};
use crate::slot::{FREE, Slot};
use crate::{KEYS_END, SPARSE};
use ft_base::Memory;
use std::alloc::Global;
use std::marker::Model;

/// The keys and their hashes. Clauses see an index as a finite map from keys to hashes.
///
/// Its keys are numbers below 2^32 - 1: other numbers are refused as out of memory. It takes no
/// memory before its first key. As it grows to many keys, it takes about 11 to 22 bytes a key.
#[derive(Drop)]
pub struct Index {
    slots: Vec<Slot>,
    /// How many slots, from the first on, are the home of a hash.
    homes: usize,
    /// How many keys there are.
    count: usize,
}

impl Model for Index {
    ghost use Rattle.std.specs.Prelude.{ℕ};
    ghost use Rattle.std.specs.FinMap as finite;
    ghost use Rattle.std.specs.Ordering.{nat_cmp};
    ghost use Rattle.std.specs.Coded.{coded_ℕ};
    ghost use Rattle.ft_index.specs.Slots.{map_of};
    ghost use Rattle.ft_index.specs.Probing.{IsIndex};

    ghost Value = { finite.FinMap nat_cmp ℕ };

    ghost coded = { finite.code coded_ℕ coded_ℕ };

    ghost view = { λ a. map_of a.slots.items };

    ghost invariant = { λ a. IsIndex a.homes a.count a.slots.items };
}

impl Index {
    /// Returns an index in which no key has a hash. Takes no memory.
    pub fn new(alloc: Global) -> Index
        ensures { result ≡ finite.empty }
    {
        Index {
            slots: Vec::new(alloc),
            homes: 0,
            count: 0,
        }
    }

    /// Returns the keys of a hash, in no specified order.
    pub fn candidates(&self, hash: u32) -> Candidates<'_>
        ensures { (key : ℕ) → Contains result key ↔ (finite.get self.now key ≡ Some hash) }
    {
        Candidates {
            at: home(hash, self.homes),
            slots: &self.slots,
            hash,
        }
    }

    /// Gives a hash to a key that has none. Only this call of an index takes memory. If there is
    /// not enough, nothing has changed.
    pub fn insert(&mut self, key: usize, hash: u32) -> Result<(), Memory>
        requires { finite.get self.old key ≡ None }
        ensures ok { OnOk result (self.new ≡ finite.insert self.old key hash) }
        ensures err { OnErr result (self.new ≡ self.old) }
    {
        if key >= KEYS_END {
            return Err(Memory);
        }
        let mark = (key + 1) as u32;
        make_room(&mut self.slots, &mut self.homes, self.count)?;
        place(&mut self.slots, self.homes, Slot { mark, hash })?;
        self.count += 1;
        Ok(())
    }

    /// Removes a key, which has the given hash. Takes no memory.
    pub fn remove(&mut self, key: usize, hash: u32)
        requires { finite.get self.old key ≡ Some hash }
        ensures { self.new ≡ finite.remove self.old key }
    {
        let at = find(&self.slots, home(hash, self.homes), (key + 1) as u32);
        self.slots[at] = FREE;
        close_gap(&mut self.slots, self.homes, at);
        self.count -= 1;
    }

    /// Moves the hash of a key to a lower key that has none. Takes no memory.
    pub fn rekey(&mut self, from: usize, to: usize, hash: u32)
        requires from { finite.get self.old from ≡ Some hash }
        requires to { finite.get self.old to ≡ None }
        requires lower { to < from }
        ensures { self.new ≡ finite.insert (finite.remove self.old from) to hash }
    {
        let at = find(&self.slots, home(hash, self.homes), (from + 1) as u32);
        let mark = (to + 1) as u32;
        self.slots[at] = Slot { mark, hash };
    }

    /// Removes all keys. Keeps the homes, unless the keys were fewer than an eighth of them. Takes
    /// no memory.
    pub fn clear(&mut self)
        ensures { self.new ≡ finite.empty }
    {
        if self.count < self.homes / SPARSE {
            self.slots.clear();
            self.homes = 0;
        } else {
            self.slots.fill(FREE);
        }
        self.count = 0;
    }
}

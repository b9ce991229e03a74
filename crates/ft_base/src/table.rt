// A map from numbers, seen as a finite map.
ghost use Rattle.std.specs.Prelude.{◌≡◌, ◌==◌, nat_eq, ℕ, IsSome, IsOk, IfOk, OnOk, OnErr};
ghost use Rattle.std.specs.Ordering.{nat_cmp};
ghost use Rattle.std.specs.Option.{option_copied, option_copied_mut};
ghost use Rattle.std.specs.List.Sorted.{IsPermutation, IsNonDecreasingBy};
ghost use Rattle.std.specs.Coded.{coded_ℕ};
ghost use Rattle.std.specs.FinMap as finite;
ghost use Rattle.std.specs.Map.Iter.{ShowsInOrder, deref_pair};
ghost use Rattle.std.specs.HashMap.{IsUnique};
ghost use Rattle.std.specs.Borrow.{sem};
ghost use Rattle.ft_base.specs.Pairs.{shown};

use crate::SPARSE;
use crate::memory::Memory;
use std::alloc::{AllocError, Global};
use std::collections::HashMap;
use std::collections::hash_map::Iter;
use std::marker::Model;

/// A map from numbers to values, which clauses see as a finite map.
///
/// Finding, setting or removing a key takes the time to hash it, however many keys there are. A new
/// key may need a larger table, into which all keys move. Shared among the keys, this time is
/// constant too.
#[derive(Drop)]
pub struct Table<V> {
    map: HashMap<u64, V>,
}

impl<V> Model for Table<V> {
    ghost Value = { finite.FinMap nat_cmp V };

    ghost coded = { finite.code coded_ℕ V.code };

    ghost view = { λ a. finite.from_entries a.map.entries };
}

impl<V: Drop> Table<V> {
    ghost use Rattle.ft_base.specs.Table.{LendsValue};

    /// Returns the empty map. Takes no memory.
    pub fn new(alloc: Global) -> Table<V>
        ensures { result ≡ finite.empty }
    {
        Table {
            map: HashMap::new(alloc),
        }
    }

    /// Returns the value at a key, if there is one.
    pub fn get(&self, key: u64) -> Option<&V>
        ensures { option_copied result ≡ finite.get self.now key }
    {
        self.map.get(&key)
    }

    /// Returns whether a key has a value.
    pub fn contains(&self, key: u64) -> bool
        ensures { result ≡ finite.contains_key self.now key }
    {
        self.map.contains_key(&key)
    }

    /// Returns the value at a key to be written, if there is one. The key keeps what is last
    /// written through the reference. Takes no memory.
    pub fn get_mut(&mut self, key: u64) -> Option<&mut V>
        ensures* writes_back { sem 𝓛 (LendsValue V.row self.entry key result) }
        ensures value { option_copied_mut result ≡ finite.get self.old key }
    {
        self.map.get_mut(&key)
    }

    /// Returns how many keys have a value.
    pub fn len(&self) -> usize
        ensures { result ≡ finite.len self.now }
    {
        self.map.len()
    }

    /// Returns whether no key has a value.
    pub fn is_empty(&self) -> bool
        ensures { result ≡ (finite.len self.now == 0) }
    {
        self.len() == 0
    }

    /// Returns the keys with their values, in no specified order. Takes no memory.
    pub fn iter(&self) -> Iter<'_, u64, V>
        ensures entries { IsPermutation (finite.entries self.now) result }
        ensures runs { ShowsInOrder (deref_pair {K = ℕ} {X = V}) }
    {
        self.map.iter()
    }

    /// Returns the keys with their values, in rising order of the keys. Out of memory is the only
    /// error.
    pub fn sorted(&self, alloc: Global) -> Result<Vec<(u64, &V)>, Memory>
        ensures { IfOk result (λ pairs. shown pairs.items ≡ finite.entries self.now) }
    {
        let mut pairs = listed(alloc, &self.map)?;
        sort_by_number(&mut pairs);
        Ok(pairs)
    }

    /// Sets the value at a key, and returns the value that it had.
    ///
    /// Takes memory only if the key is new. If there is not enough memory, nothing has changed.
    pub fn insert(&mut self, key: u64, value: V) -> Result<Option<V>, Memory>
        ensures was { IfOk result (λ was. was ≡ finite.get self.old key) }
        ensures ok { OnOk result (self.new ≡ finite.insert self.old key value) }
        ensures err { OnErr result (self.new ≡ self.old) }
        ensures place { IsSome (finite.get self.old key) → IsOk result }
    {
        Ok(self.map.insert(key, value)?)
    }

    /// Removes a key, and returns the value that it had. Takes no memory.
    pub fn remove(&mut self, key: u64) -> Option<V>
        ensures value { result ≡ finite.get self.old key }
        ensures after { self.new ≡ finite.remove self.old key }
    {
        self.map.remove(&key)
    }

    /// Removes all keys. Keeps the room, unless the keys filled less than an eighth of it. Takes no
    /// memory.
    pub fn clear(&mut self)
        ensures { self.new ≡ finite.empty }
    {
        let is_sparse = self.map.len() < self.map.capacity() / SPARSE;
        self.map.clear();
        if is_sparse {
            self.map.shrink_to_fit();
        }
    }
}

impl<V: Clone + Drop> Clone for Table<V> {
    ghost use Rattle.ft_base.specs.Copies.{IsTableClone};

    ghost is_clone = { IsTableClone V.is_clone };

    fn clone(&self) -> Result<Table<V>, AllocError> {
        let map = self.map.clone()?;
        Ok(Table { map })
    }
}

/// Returns the entries of a map, in the order in which it keeps them.
fn listed<V>(alloc: Global, entries: &HashMap<u64, V>) -> Result<Vec<(u64, &V)>, Memory>
    ensures pairs { IfOk result (λ pairs. shown pairs.items ≡ entries.now.entries) }
    ensures apart { OnOk result (IsUnique nat_eq entries.now) }
{
    let mut pairs = Vec::new(alloc);
    for (number, value) in entries {
        pairs.push((*number, value))?;
    }
    Ok(pairs)
}

/// Puts pairs in the order of their numbers. Takes no memory.
fn sort_by_number<V>(pairs: &mut Vec<(u64, &V)>)
    ensures same { IsPermutation pairs.old.items pairs.new.items }
    ensures rising { IsNonDecreasingBy (λ pair. pair.0) pairs.new.items }
{
    pairs.sort_unstable_by_key(|pair| pair.0);
}

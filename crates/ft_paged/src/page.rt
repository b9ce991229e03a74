// A page of a `PagedTable` or a `PagedMap`.
ghost use Rattle.std.specs.Prelude.{◌≡◌, ◌<◌, ◌≤◌, ◌+◌, ◌++◌, None, Some, length, set, get_or, replicate, IsSome, IsOk, IfOk, OnOk, OnErr};
ghost use Rattle.ft_paged.specs.declared.TheConstants.{PAGE_LEN as page_len};
ghost use Rattle.ft_paged.specs.Paged.{blank, all_places, valued, IsWhole};

use crate::PAGE_LEN;
use ft_base::Memory;
use std::alloc::{AllocError, Global};
use std::marker::Model;
use std::mem::{replace, swap};

/// A place for each of `PAGE_LEN` numbers. While no place has a value, it takes no memory, except
/// what a spare page keeps.
#[derive(Drop)]
pub(crate) struct Page<V> {
    /// How many places have a value.
    used: usize,
    /// All places. If no place has a value, there may be none.
    places: Vec<Option<V>>,
}

impl<V> Model for Page<V> {
    ghost use Rattle.std.specs.Prelude.{List, Option};
    ghost use Rattle.std.specs.Coded.{coded_list, coded_option};
    ghost use Rattle.ft_paged.specs.Paged.{all_places, IsPage};

    ghost Value = { List (Option V) };

    ghost coded = { coded_list (coded_option V.code) };

    ghost view = { λ a. all_places a.places.items };

    ghost invariant = { λ a. IsPage a.used a.places.items };
}

impl<V: Copy> Page<V> {
    /// Returns a page in which no place has a value. Takes no memory.
    pub(crate) fn new(alloc: Global) -> Page<V>
        ensures { result ≡ blank }
    {
        Page {
            used: 0,
            places: Vec::new(alloc),
        }
    }

    /// Returns the value of a place, if it has one.
    pub(crate) fn get(&self, place: usize) -> Option<V>
        requires { place < page_len }
        ensures { result ≡ get_or self.now place None }
    {
        self.places.get(place).copied().flatten()
    }

    /// Sets the value of a place. Takes memory only if the place had no value and the spare page
    /// has no memory. If there is not enough memory, nothing has changed.
    pub(crate) fn insert(
        &mut self,
        spare: &mut Page<V>,
        place: usize,
        value: V,
    ) -> Result<(), Memory>
        requires place { place < page_len }
        requires spare { spare.old ≡ blank }
        ensures ok { OnOk result (self.new ≡ set self.old place (Some value)) }
        ensures err { OnErr result (self.new ≡ self.old) }
        ensures had { IsSome (get_or self.old place None) → IsOk result }
        ensures spare { spare.new ≡ blank }
    {
        have_places(&mut self.places, spare)?;
        if self.places[place].is_none() {
            self.used += 1;
        }
        self.places[place] = Some(value);
        Ok(())
    }

    /// Sets the value of a place that has one. Takes no memory.
    pub(crate) fn set(&mut self, place: usize, value: V)
        requires { IsSome (get_or self.old place None) }
        ensures { self.new ≡ set self.old place (Some value) }
    {
        self.places[place] = Some(value);
    }

    /// Removes the value of a place, if it has one. If this leaves no place with a value, the
    /// memory goes to the spare page or is freed. Takes no memory.
    pub(crate) fn remove(&mut self, spare: &mut Page<V>, place: usize)
        requires place { place < page_len }
        requires spare { spare.old ≡ blank }
        ensures after { self.new ≡ set self.old place None }
        ensures spare { spare.new ≡ blank }
    {
        if self.get(place).is_none() {
            return;
        }
        self.places[place] = None;
        self.used -= 1;
        if self.used == 0 {
            self.free(spare);
        }
    }
}

impl<V: Copy> Page<V> {
    /// Returns another page with the same values. Out of memory is the only error.
    pub(crate) fn copied(&self) -> Result<Page<V>, AllocError>
        ensures { IfOk result (λ copy. copy ≡ self.now) }
    {
        let places = Vec::from_slice(*self.places.allocator(), &self.places)?;
        Ok(Page {
            used: self.used,
            places,
        })
    }

    /// Gives the memory of the places to the spare page, or frees it if the spare page has some. No
    /// place has a value. Takes no memory.
    fn free(&mut self, spare: &mut Page<V>)
        requires places { self.old ≡ blank }
        requires spare { spare.old ≡ blank }
        ensures same { self.new ≡ blank }
        ensures spare { spare.new ≡ blank }
    {
        let alloc = *self.places.allocator();
        let places = replace(&mut self.places, Vec::new(alloc));
        if spare.places.is_empty() {
            spare.places = places;
        }
    }
}

/// Puts all places of a page in memory, if they are not. They take the memory of the spare page, if
/// it has some, or else new memory. No value changes.
fn have_places<V: Copy>(places: &mut Vec<Option<V>>, spare: &mut Page<V>) -> Result<(), Memory>
    requires whole { IsWhole places.old.items }
    requires spare { spare.old ≡ blank }
    ensures whole { IsWhole places.new.items }
    ensures same { all_places places.new.items ≡ all_places places.old.items }
    ensures valued { valued places.new.items ≡ valued places.old.items }
    ensures there { OnOk result (length places.new.items ≡ page_len) }
    ensures had { 0 < length places.old.items → IsOk result }
    ensures spare { spare.new ≡ blank }
{
    if places.is_empty() {
        swap(places, &mut spare.places);
    }
    if places.is_empty() {
        add_places(places)?;
    }
    Ok(())
}

/// Appends all places of a page, without values. If there is not enough memory, nothing has
/// changed.
fn add_places<V: Copy>(places: &mut Vec<Option<V>>) -> Result<(), Memory>
    ensures ok { OnOk result (places.new.items ≡ places.old.items ++ blank) }
    ensures err { OnErr result (places.new.items ≡ places.old.items) }
{
    places.reserve_exact(PAGE_LEN)?;
    for _ in 0..PAGE_LEN {
        places.push_reserved(None);
    }
    Ok(())
}

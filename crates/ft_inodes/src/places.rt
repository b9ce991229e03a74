// The places of a directory.
ghost use Rattle.std.specs.Prelude.{◌≡◌, ◌↔◌, ◌==◌, ◌<◌, ◌+◌, ◌++◌, ◌∷◌, [], ℕ, List, IsSome, IsTrue, is_none, IsOk, IfOk, OnOk, OnErr, length, vec_len, vec_capacity};
ghost use Rattle.std.specs.List.{filter_map, list_all};
ghost use Rattle.std.specs.List.Sorted.{IsPermutation, IsSortedBy};
ghost use Rattle.std.specs.Option.{option_copied};
ghost use Rattle.std.specs.FinMap as finite;
ghost use Rattle.ft_cells.specs.Cells.{filled};
ghost use Rattle.ft_inodes.specs.Named.{shown, names_in, pairs_in, is_before, IsFoundAt, AreKept, IsKeptBy, AreIndexed, IsSwapped};

use crate::FEW_PLACES;
use crate::name_index::NameIndex;
use crate::place::Place;
use ft_base::Memory;
use ft_cells::{Hinted, Node};
use ft_path::Name;
use std::alloc::{AllocError, Global};
use std::marker::Model;
use std::mem::replace;

/// A place for each name of a directory, in no order. Clauses see it as a map from the names to
/// what they lead to.
///
/// A name is found in constant time. If there are more than a few places, there is also an index by
/// the hashes of the names.
#[derive(Drop)]
pub(crate) struct Places {
    places: Vec<Place>,
    index: Option<Box<NameIndex>>,
}

impl Model for Places {
    ghost use Rattle.std.specs.Prelude.{ℕ};
    ghost use Rattle.std.specs.Coded.{coded_list, coded_ℕ, coded_option};
    ghost use Rattle.std.specs.FinMap as finite;
    ghost use Rattle.ft_cells.specs.Nodes.{coded_node};
    ghost use Rattle.ft_inodes.specs.Named.{Entries, entries_in, names_in, AreKept};

    ghost Value = { Entries };

    ghost coded = { finite.code (coded_list coded_ℕ) (coded_option coded_node) };

    ghost view = { λ a. entries_in a.places.items };

    ghost invariant = { λ a. AreKept a.index (names_in a.places.items) };
}

impl Places {
    /// Returns no places. Takes no memory.
    pub(crate) fn new(alloc: Global) -> Places
        ensures { result ≡ finite.empty }
    {
        Places {
            places: Vec::new(alloc),
            index: None,
        }
    }

    /// Returns the content of the place of a name, if the name has a place.
    pub(crate) fn get(&self, name: &Name) -> Option<&Option<Hinted<Node>>>
        ensures { option_copied result ≡ finite.get self.now name.now }
    {
        let at = find(&self.index, &self.places, name)?;
        Some(&self.places[at].child)
    }

    /// Returns whether there is no place.
    pub(crate) fn is_empty(&self) -> bool
        ensures { result ≡ (finite.len self.now == 0) }
    {
        self.places.is_empty()
    }

    /// Sets the content of the place of a name, and returns the previous content, if the name had a
    /// place. An index, if one is made, is under the seed.
    ///
    /// Out of memory is the only error. It changes nothing, and can occur only if the place is new.
    pub(crate) fn insert(
        &mut self,
        name: Name,
        child: Option<Hinted<Node>>,
        seed: u64,
    ) -> Result<Option<Option<Hinted<Node>>>, Memory>
        ensures was { IfOk result (λ was. was ≡ finite.get self.old name) }
        ensures ok { OnOk result (self.new ≡ finite.insert self.old name child) }
        ensures err { OnErr result (self.new ≡ self.old) }
        ensures place { IsSome (finite.get self.old name) → IsOk result }
    {
        if let Some(at) = find(&self.index, &self.places, &name) {
            return Ok(Some(replace(&mut self.places[at].child, child)));
        }
        self.places.reserve(1)?;
        have_index(&mut self.index, &self.places, seed)?;
        note_next(&mut self.index, &self.places, &name)?;
        self.places.push_reserved(Place { name, child });
        Ok(None)
    }

    /// Removes the place of a name, if the name has one.
    pub(crate) fn remove(&mut self, name: &Name)
        ensures { self.new ≡ finite.remove self.old name.now }
    {
        if let Some(at) = find(&self.index, &self.places, name) {
            take_out(&mut self.index, &mut self.places, at);
        }
    }

    /// Returns the places in the order of their names. Out of memory is the only error.
    pub(crate) fn sorted(&self, alloc: Global) -> Result<Vec<&Place>, Memory>
        ensures { IfOk result (λ places. shown places.items ≡ finite.entries self.now) }
    {
        let mut places = listed(alloc, &self.places)?;
        sort_by_name(&mut places);
        Ok(places)
    }

    /// Returns whether all places are empty.
    pub(crate) fn are_empty(&self) -> bool
        ensures { IsTrue result ↔ (filter_map filled (finite.entries self.now) ≡ []) }
    {
        all_empty(&self.places)
    }
}

impl Clone for Places {
    ghost is_clone = { λ places copy. copy ≡ places };

    fn clone(&self) -> Result<Places, AllocError> {
        let places = self.places.clone()?;
        let index = match &self.index {
            Some(index) => Some(made_again(index, &places)?),
            None => None,
        };
        Ok(Places { places, index })
    }
}

/// Returns where a name is among the places, if it is there.
fn find(index: &Option<Box<NameIndex>>, places: &[Place], name: &Name) -> Option<usize>
    requires { IsKeptBy index.now (names_in places.now) }
    ensures { IsFoundAt (names_in places.now) name.now result }
{
    match index {
        Some(index) => index.find(places, name),
        None => search(places, name),
    }
}

/// Returns where a name is, if it is there, by searching one place after another.
fn search(places: &[Place], name: &Name) -> Option<usize>
    ensures { IsFoundAt (names_in places.now) name.now result }
{
    for (at, place) in places.iter().enumerate() {
        if place.name == *name {
            return Some(at);
        }
    }
    None
}

/// Returns whether all these places are empty.
fn all_empty(places: &[Place]) -> bool
    ensures { result ≡ list_all (λ place. is_none place.child) places.now }
{
    places.iter().all(|place| place.child.is_none())
}

/// Makes an index of the places, if there are enough of them and no index exists. Out of memory is
/// the only error, and it changes nothing.
fn have_index(
    index: &mut Option<Box<NameIndex>>,
    places: &Vec<Place>,
    seed: u64,
) -> Result<(), Memory>
    requires { IsKeptBy index.old (names_in places.now.items) }
    ensures { IsKeptBy index.new (names_in places.now.items) }
{
    if index.is_some() || places.len() < FEW_PLACES {
        return Ok(());
    }
    let alloc = *places.allocator();
    let made = NameIndex::of(alloc, places, seed)?;
    *index = Some(Box::new(alloc, made).map_err(AllocError::from)?);
    Ok(())
}

/// Adds a name that is to come after these places to their index, if there is one. Out of memory is
/// the only error, and it changes nothing.
fn note_next(
    index: &mut Option<Box<NameIndex>>,
    places: &[Place],
    name: &Name,
) -> Result<(), Memory>
    requires { IsKeptBy index.old (names_in places.now) }
    ensures ok { OnOk result (IsKeptBy index.new (names_in places.now ++ name.now ∷ [])) }
    ensures err { OnErr result (IsKeptBy index.new (names_in places.now)) }
{
    match index {
        Some(index) => index.push(places, name),
        None => Ok(()),
    }
}

/// Removes the name of the place `at`, to which the last place then moves, from the index, if there
/// is one. Takes no memory.
fn forget(index: &mut Option<Box<NameIndex>>, places: &[Place], at: usize)
    requires kept { IsKeptBy index.old (names_in places.now) }
    requires within { at < length places.now }
    ensures { (names : List (List ℕ)) → IsSwapped (names_in places.now) names at
        → IsKeptBy index.new names }
{
    if let Some(index) = index {
        index.swap_remove(places, at);
    }
}

/// Removes the place `at`, and moves the last place there. Takes no memory.
fn take_out(index: &mut Option<Box<NameIndex>>, places: &mut Vec<Place>, at: usize)
    requires kept { IsKeptBy index.old (names_in places.old.items) }
    requires within { at < length places.old.items }
    ensures kept { IsKeptBy index.new (names_in places.new.items) }
    ensures swapped { IsSwapped places.old.items places.new.items at }
{
    forget(index, places, at);
    places.swap_remove(at);
}

/// Returns an index of these places, which are copies of the places of the given index. Out of
/// memory is the only error.
fn made_again(index: &NameIndex, places: &Vec<Place>) -> Result<Box<NameIndex>, AllocError>
    ensures { IfOk result (λ index. AreIndexed index.value (names_in places.now.items)) }
{
    let alloc = *places.allocator();
    let Ok(made) = index.again(alloc, places) else {
        return Err(AllocError);
    };
    Ok(Box::new(alloc, made)?)
}

/// Returns references to the places, in their stored order. Out of memory is the only error.
fn listed(alloc: Global, places: &[Place]) -> Result<Vec<&Place>, Memory>
    ensures { IfOk result (λ listed. shown listed.items ≡ pairs_in places.now) }
{
    let mut listed = Vec::with_capacity(alloc, places.len())?;
    for place in places {
        listed.push_reserved(place);
    }
    Ok(listed)
}

/// Sorts places by their names. Takes no memory.
fn sort_by_name(places: &mut Vec<&Place>)
    ensures same { IsPermutation places.old.items places.new.items }
    ensures rising { IsSortedBy is_before places.new.items }
{
    places.sort_unstable_by(|a, b| a.name.cmp(&b.name));
}

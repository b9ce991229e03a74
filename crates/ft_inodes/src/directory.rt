// One directory: its parent, its attributes, and the places of its entries.
ghost use Rattle.std.specs.Prelude.{◌≡◌, ◌↔◌, [], ◌++◌, ◌==◌, ◌&&◌, None, IsTrue, IsOk, is_some, is_none, IfOk, OnOk, OnErr, Option};
ghost use Rattle.std.specs.List.{filter_map};
ghost use Rattle.ft_inodes.specs.Named.{shown};
ghost use Rattle.std.specs.FinMap as finite;
ghost use Rattle.ft_cells.specs.Nodes.{with_kinds};
ghost use Rattle.ft_cells.specs.Rows.{named_rows};
ghost use Rattle.std.specs.Option.{option_flatten, option_map, option_copied};
ghost use Rattle.ft_cells.specs.Cells.{DirCells, coded_dir_cells, dir_entry, put_dir_entry, put_dir_parent, put_kept_of_dir, without_dir_place, HasPlace, filled, dir_names};

use crate::place::Place;
use crate::places::Places;
use ft_base::Memory;
use ft_cells::{
    Attributes, EntryRef, Hint, Hinted, Kind, Node, Rare, TreeRow, seen_in, value_in, with_hint,
};
use ft_path::Name;
use std::alloc::{AllocError, Global};
use std::marker::Model;
use std::mem;

/// A stored directory: its parent, its attributes and the places of its entries. Some places may be
/// empty. The parent is the directory that has its entry.
#[derive(Drop)]
pub struct Directory {
    parent: Option<u64>,
    attributes: Rare<Attributes>,
    entries: Places,
}

impl Model for Directory {
    ghost Value = { DirCells };

    ghost coded = { coded_dir_cells };

    ghost view = { λ a. record {
      parent = a.parent;
      attributes = a.attributes;
      entries = a.entries;
    } };
}

impl Directory {
    /// Returns a directory with this parent and without attributes or entries. Takes no memory.
    pub fn new(alloc: Global, parent: Option<u64>) -> Directory
        ensures { result ≡ record { parent = parent; attributes = None; entries = finite.empty } }
    {
        Directory {
            parent,
            attributes: Rare::none(),
            entries: Places::new(alloc),
        }
    }

    /// Returns the parent: the directory that has its entry.
    pub fn parent(&self) -> Option<u64>
        ensures { result ≡ self.now.parent }
    {
        self.parent
    }

    /// Returns the attributes that are stored of the directory.
    pub fn attributes(&self) -> Option<Attributes>
        ensures { result ≡ self.now.attributes }
    {
        self.attributes.get()
    }

    /// Returns what a name leads to, if it is an entry.
    pub fn entry(&self, name: &Name) -> Option<Node>
        ensures { result ≡ dir_entry self.now name.now }
    {
        match self.child(name) {
            Some((node, _)) => Some(node),
            None => None,
        }
    }

    /// Returns what a name leads to, if it is an entry, with a hint of where that is.
    pub fn child(&self, name: &Name) -> Option<(Node, Hint)>
        ensures { option_map (λ child. child.0) result ≡ dir_entry self.now name.now }
    {
        seen_in(self.entries.get(name))
    }

    /// Sets the parent, and returns the previous one.
    pub fn set_parent(&mut self, parent: Option<u64>) -> Option<u64>
        ensures was { result ≡ self.old.parent }
        ensures set { self.new ≡ put_dir_parent self.old parent }
    {
        mem::replace(&mut self.parent, parent)
    }

    /// Sets the stored attributes of the directory, and returns the previous ones. Takes no memory.
    pub fn set_attributes(&mut self, to: Rare<Attributes>) -> Rare<Attributes>
        ensures was { result ≡ self.old.attributes }
        ensures set { self.new ≡ put_kept_of_dir self.old to }
    {
        mem::replace(&mut self.attributes, to)
    }

    /// Sets what a name leads to, or that it is not an entry, with a hint of where the target is.
    /// Returns the previous content of its place, if the name had a place.
    ///
    /// Out of memory is the only error. It changes nothing, and can occur only if the place is new.
    /// If there are many places, an index of the names is made under the seed.
    pub fn set_entry(
        &mut self,
        name: Name,
        to: Option<Node>,
        near: Hint,
        seed: u64,
    ) -> Result<Option<Option<Node>>, Memory>
        ensures was { IfOk result (λ was. was ≡ finite.get self.old.entries name) }
        ensures ok { OnOk result (self.new ≡ put_dir_entry self.old name to) }
        ensures err { OnErr result (self.new ≡ self.old) }
        ensures place { HasPlace self.old name → IsOk result }
    {
        Ok(value_in(self.entries.insert(name, with_hint(to, near), seed)?))
    }

    /// Removes the place of a name, if the name has one.
    pub fn drop_place(&mut self, name: &Name)
        ensures { self.new ≡ without_dir_place self.old name.now }
    {
        self.entries.remove(name);
    }

    /// Returns whether a name has a place and is not an entry.
    pub fn has_empty(&self, name: &Name) -> bool
        ensures { result ≡ (finite.contains_key self.now.entries name.now
            && is_none (dir_entry self.now name.now)) }
    {
        is_empty_place(self.entries.get(name))
    }

    /// Returns whether the directory has no places.
    pub fn has_no_place(&self) -> bool
        ensures { result ≡ (finite.len self.now.entries == 0) }
    {
        self.entries.is_empty()
    }

    /// Returns the names of the entries, in order, with the kinds of what they lead to. Out of
    /// memory is the only error.
    pub fn names(&self, alloc: Global) -> Result<Vec<(Name, Kind)>, Memory>
        ensures { IfOk result (λ names. names.items ≡ with_kinds (dir_names self.now)) }
    {
        full_places(alloc, &self.entries.sorted(alloc)?)
    }

    /// Returns whether the directory has no entry.
    pub fn is_empty(&self) -> bool
        ensures { IsTrue result ↔ (dir_names self.now ≡ []) }
    {
        self.entries.are_empty()
    }

    /// Appends the entries to the rows, as those of directory `number`. Out of memory is the only
    /// error.
    pub fn push_edges(&self, number: u64, rows: &mut Vec<TreeRow>) -> Result<(), Memory>
        ensures { OnOk result (rows.new.items ≡ rows.old.items
            ++ named_rows number (dir_names self.now)) }
    {
        let places = self.entries.sorted(*rows.allocator())?;
        push_places(number, &places, rows)
    }
}

impl Clone for Directory {
    ghost is_clone = { λ directory copy. copy ≡ directory };

    fn clone(&self) -> Result<Directory, AllocError> {
        let attributes = self.attributes.clone()?;
        let entries = self.entries.clone()?;
        Ok(Directory {
            parent: self.parent,
            attributes,
            entries,
        })
    }
}

/// Returns whether there is a place and it is empty.
fn is_empty_place(place: Option<&Option<Hinted<Node>>>) -> bool
    ensures { result ≡ (is_some (option_copied place.entry)
        && is_none (option_flatten (option_copied place.entry))) }
{
    matches!(place, Some(None))
}

/// Returns the names of the places that are not empty, in their order, with the kinds of what they
/// lead to. Out of memory is the only error.
fn full_places(alloc: Global, places: &[&Place]) -> Result<Vec<(Name, Kind)>, Memory>
    ensures { IfOk result (λ names. names.items
        ≡ with_kinds (filter_map filled (shown places.now))) }
{
    let mut names = Vec::new(alloc);
    for place in places {
        if let Some(child) = &place.child {
            names.push((place.name.clone()?, child.value().kind()))?;
        }
    }
    Ok(names)
}

/// Appends the entries in places of directory `dir` to the rows, in their order. Out of memory is
/// the only error.
fn push_places(dir: u64, places: &[&Place], rows: &mut Vec<TreeRow>) -> Result<(), Memory>
    ensures { OnOk result (rows.new.items ≡ rows.old.items
        ++ named_rows dir (filter_map filled (shown places.now))) }
{
    for place in places {
        if let Some(child) = &place.child {
            let name = &place.name;
            rows.push(TreeRow::Edge {
                entry: EntryRef { dir, name }.to_entry()?,
                node: child.value(),
            })?;
        }
    }
    Ok(())
}

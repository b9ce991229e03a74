// Lists of values by their owners, linked in one slab.
ghost use Rattle.std.specs.Prelude.{◌≡◌, ◌≢◌, ◌↔◌, ◌∷◌, ℕ, [], false, drop, slice_get, option_copied, IsSome, IsTrue, IsOk, OnOk, OnErr, IfErr, OnSome, IfNone};
ghost use Rattle.std.specs.Option.{option_copied_mut};
ghost use Rattle.std.specs.Borrow.{sem};
ghost use Rattle.std.specs.FinMap as finite;
ghost use Rattle.ft_owned_lists.specs.OwnedLists.{list_in, IsOpen, moved, spliced};

use crate::node::{Ends, Node, first_key, from_node, last_key_or, set_next};
use crate::values::Values;
use ft_base::Memory;
use ft_paged::PagedTable;
use slab::Slab;
use std::alloc::{AllocFailed, Global};
use std::marker::Model;

/// A list of values for each open owner, the newest first.
///
/// A value moves from the front of one list to that of another without memory. A whole list also
/// moves in front of another without memory. The time of a call does not depend on how many owners
/// are open or on how long their lists are. The exceptions are `open` and `push_front`, which may
/// make room, and `clear`, which drops the values. All values are in one slab, which reuses its
/// places. Owners are numbered one after another: each page of 64 numbers with an open owner has a
/// place for all 64.
#[derive(Drop)]
pub struct OwnedLists<T> {
    nodes: Slab<Node<T>>,
    ends: PagedTable<Option<Ends>>,
}

impl<T> Model for OwnedLists<T> {
    ghost use Rattle.slab.specs.Slab.{get};
    ghost use Rattle.ft_owned_lists.specs.OwnedLists.{Lists, coded_lists};
    ghost use Rattle.ft_owned_lists.specs.Linked.{lists_of, AreChained};

    ghost Value = { Lists T };

    ghost coded = { coded_lists T.code };

    ghost view = { λ a. lists_of a.nodes a.ends };

    ghost invariant = { λ a. AreChained (get a.nodes) a.ends };
}

impl<T> OwnedLists<T> {
    ghost use Rattle.ft_owned_lists.specs.Lent.{LendsFirst};

    /// Returns lists without an open owner. Takes no memory.
    pub fn new(alloc: Global) -> OwnedLists<T>
        ensures { result ≡ finite.empty }
    {
        OwnedLists {
            nodes: Slab::new(alloc),
            ends: PagedTable::new(alloc),
        }
    }

    /// Returns whether an owner is open.
    pub fn is_open(&self, owner: u64) -> bool
        ensures { result ≡ finite.contains_key self.now owner }
    {
        self.ends.contains(owner)
    }

    /// Opens an owner with an empty list. An owner that is open keeps its list. Takes memory only
    /// for a new owner. If there is not enough memory, nothing has changed.
    pub fn open(&mut self, owner: u64) -> Result<(), Memory>
        ensures ok { OnOk result (self.new
            ≡ finite.insert self.old owner (list_in self.old owner)) }
        ensures err { OnErr result (self.new ≡ self.old) }
        ensures place { IsOpen self.old owner → IsOk result }
    {
        if self.is_open(owner) {
            return Ok(());
        }
        self.ends.insert(owner, None)?;
        Ok(())
    }

    /// Opens owner 0, which is not open, with an empty list. Takes no memory.
    pub fn open_zero(&mut self)
        requires { finite.contains_key self.old 0 ≡ false }
        ensures { self.new ≡ finite.insert self.old 0 (list_in self.old 0) }
    {
        self.ends.set_zero(None);
    }

    /// Closes an owner whose list is empty. Takes no memory.
    pub fn close(&mut self, owner: u64)
        requires { list_in self.old owner ≡ [] }
        ensures { self.new ≡ finite.remove self.old owner }
    {
        self.ends.remove(owner);
    }

    /// Returns the newest value of a list, if there is one.
    pub fn first(&self, owner: u64) -> Option<&T>
        ensures { option_copied result ≡ slice_get (list_in self.now owner) 0 }
    {
        let ends = self.ends.get(owner)??;
        let node = self.nodes.get(ends.first)?;
        Some(&node.value)
    }

    /// Returns the newest value of a list to be written, if there is one. Takes no memory.
    pub fn first_mut(&mut self, owner: u64) -> Option<&mut T>
        ensures* writes_back { sem 𝓛 (LendsFirst T.row self.entry owner result) }
        ensures value { option_copied_mut result ≡ slice_get (list_in self.old owner) 0 }
    {
        let Some(front) = self.ends.get(owner).flatten() else {
            return None;
        };
        let node = self.nodes.get_mut(front.first).unwrap();
        Some(&mut node.value)
    }

    /// Returns the values of a list, the newest first. An owner that is not open has none.
    pub fn values(&self, owner: u64) -> Values<'_, T>
        ensures { result ≡ list_in self.now owner }
    {
        Values {
            nodes: &self.nodes,
            at: first_key(self.ends.get(owner).flatten()),
        }
    }

    /// Returns whether a list is empty. The list of an owner that is not open is empty.
    pub fn is_empty(&self, owner: u64) -> bool
        ensures { IsTrue result ↔ (list_in self.now owner ≡ []) }
    {
        self.ends.get(owner).flatten().is_none()
    }

    /// Puts a value in front of the list of an open owner, as its newest. If there is not enough
    /// memory, returns the value, and nothing has changed.
    pub fn push_front(&mut self, owner: u64, value: T) -> Result<(), AllocFailed<T>>
        requires { IsOpen self.old owner }
        ensures ok { OnOk result (self.new
            ≡ finite.insert self.old owner (value ∷ list_in self.old owner)) }
        ensures err { OnErr result (self.new ≡ self.old) }
        ensures value_returned { IfErr result (λ failed. failed.value ≡ value) }
    {
        let ends = self.ends.get(owner).flatten();
        let next = first_key(ends);
        let first = match self.nodes.insert(Node { value, next }) {
            Ok(key) => key,
            Err(failed) => {
                let AllocFailed {
                    value: Node { value, next: _ },
                } = failed;
                return Err(AllocFailed { value });
            }
        };
        let last = last_key_or(first, ends);
        self.ends.set(owner, Some(Ends { first, last }));
        Ok(())
    }

    /// Removes and returns the newest value of a list, if there is one. Takes no memory.
    pub fn pop_front(&mut self, owner: u64) -> Option<T>
        ensures value { result ≡ slice_get (list_in self.old owner) 0 }
        ensures some { OnSome result (self.new
            ≡ finite.insert self.old owner (drop 1 (list_in self.old owner))) }
        ensures none { IfNone result (self.new ≡ self.old) }
    {
        let front = self.ends.get(owner)??;
        let Node { value, next } = self.nodes.try_remove(front.first).unwrap();
        self.ends.set(owner, from_node(next, front.last));
        Some(value)
    }

    /// Moves a whole list, in its order, to the front of another list. Its owner stays open, with
    /// an empty list. Takes no memory.
    pub fn splice(&mut self, source: u64, target: u64)
        requires source_open { IsOpen self.old source }
        requires target_open { IsOpen self.old target }
        requires apart { source ≢ target }
        ensures { self.new ≡ spliced self.old source target }
    {
        let Some(front) = self.ends.get(source).flatten() else {
            return;
        };
        self.ends.set(source, None);
        let ends = self.ends.get(target).flatten();
        let next = first_key(ends);
        let last = last_key_or(front.last, ends);
        let first = front.first;
        self.ends.set(target, Some(Ends { first, last }));
        set_next(&mut self.nodes, front.last, next);
    }

    /// Moves the newest value of a list, if there is one, to the front of another list. Takes no
    /// memory.
    pub fn move_front(&mut self, source: u64, target: u64)
        requires target_open { IsOpen self.old target }
        requires apart { source ≢ target }
        ensures { self.new ≡ moved self.old source target }
    {
        let Some(front) = self.ends.get(source).flatten() else {
            return;
        };
        let first = front.first;
        let after = self.nodes.get(first).unwrap().next;
        self.ends.set(source, from_node(after, front.last));
        let ends = self.ends.get(target).flatten();
        let next = first_key(ends);
        let last = last_key_or(first, ends);
        self.ends.set(target, Some(Ends { first, last }));
        set_next(&mut self.nodes, first, next);
    }
}

impl<T: Drop> OwnedLists<T> {
    /// Empties the list of an open owner, if all other lists are empty. Clears the whole slab at
    /// once. Takes no memory.
    pub fn clear(&mut self, owner: u64)
        requires open { IsOpen self.old owner }
        requires alone { (other : ℕ) → other ≢ owner → list_in self.old other ≡ [] }
        ensures { self.new ≡ finite.insert self.old owner [] }
    {
        self.nodes.clear();
        self.ends.set(owner, None);
    }
}

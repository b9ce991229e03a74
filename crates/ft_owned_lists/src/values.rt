// A walk along the nodes of one list.
ghost use Rattle.std.specs.Iterator.{YieldsFirstBy, item_count};

use crate::node::Node;
use slab::Slab;
use std::marker::Model;

/// The values of one list, the newest first. Clauses see it as the list of those that are left.
///
/// Each step takes constant time: the owner is looked up only once, before the first value.
#[derive(Drop)]
pub struct Values<'a, T> {
    pub(crate) nodes: &'a Slab<Node<T>>,
    pub(crate) at: Option<usize>,
}

impl<'a, T> Model for Values<'a, T> {
    ghost use Rattle.std.specs.Prelude.{List, length};
    ghost use Rattle.slab.specs.Slab.{get};
    ghost use Rattle.ft_owned_lists.specs.Linked.{walk, LeadsOn};

    ghost Value = { List T };

    ghost view = { λ a. walk (get a.nodes.now) (length a.nodes.now.slots) a.at };

    ghost invariant = { λ a. LeadsOn (get a.nodes.now) a.at };
}

impl<'a, T> Iterator for Values<'a, T> {
    type Item = &'a T;

    ghost next_gives = { YieldsFirstBy (λ item. item.now) (λ rest. rest) };

    ghost remaining = { item_count (λ rest. rest) };

    fn next(&mut self) -> Option<&'a T> {
        let node = self.nodes.get(self.at?)?;
        self.at = node.next;
        Some(&node.value)
    }
}

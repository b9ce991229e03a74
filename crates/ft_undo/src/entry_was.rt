// What was in the place of an entry.
ghost use Rattle.std.specs.Prelude.{◌≡◌};

use ft_tree::{Form, Node};
use std::marker::Model;

/// The content of an entry's place before it was set, or nothing if the place was new.
///
/// Clauses see it as that. It takes half the room of the options.
#[derive(Drop)]
pub struct EntryWas {
    was: Was,
}

/// The cases, each with at most a number.
#[derive(Clone, Copy)]
pub(crate) enum Was {
    NoPlace,
    NoEntry,
    Dir(u64),
    File(u64),
    Link(u64),
}

impl Model for EntryWas {
    ghost use Rattle.std.specs.Prelude.{Option};
    ghost use Rattle.ft_cells.specs.declared.node.Node.{Node};
    ghost use Rattle.ft_undo.specs.Was.{place_of};

    ghost Value = { Option (Option Node) };

    ghost view = { λ a. place_of a.was };
}

impl EntryWas {
    /// Keeps what was in the place.
    pub(crate) fn new(place: Option<Option<Node>>) -> EntryWas
        ensures { result ≡ place }
    {
        let was = match place {
            None => Was::NoPlace,
            Some(None) => Was::NoEntry,
            Some(Some(Node::Dir(number))) => Was::Dir(number),
            Some(Some(Node::File(Form::Regular, number))) => Was::File(number),
            Some(Some(Node::File(Form::Link, number))) => Was::Link(number),
        };
        EntryWas { was }
    }

    /// Returns what was in the place.
    pub fn get(&self) -> Option<Option<Node>>
        ensures { result ≡ self.now }
    {
        match self.was {
            Was::NoPlace => None,
            Was::NoEntry => Some(None),
            Was::Dir(number) => Some(Some(Node::Dir(number))),
            Was::File(number) => Some(Some(Node::File(Form::Regular, number))),
            Was::Link(number) => Some(Some(Node::File(Form::Link, number))),
        }
    }
}

// The nodes of the chains of an `OwnedLists`.
ghost use Rattle.std.specs.Prelude.{◌≡◌, IsSome, option_map, length};
ghost use Rattle.slab.specs.Slab.{get, Updates};
ghost use Rattle.ft_owned_lists.specs.Linked.{with_next, first_of, last_or, ends_from};

use slab::Slab;

/// A value, and the key of the node after it.
#[derive(Drop)]
pub struct Node<T> {
    pub value: T,
    pub next: Option<usize>,
}

/// The keys of the first and the last node of a chain.
#[derive(Clone, Copy)]
pub struct Ends {
    pub first: usize,
    pub last: usize,
}

/// Sets the key of the node after a node.
pub fn set_next<T>(nodes: &mut Slab<Node<T>>, key: usize, next: Option<usize>)
    requires { IsSome (get nodes.old key) }
    ensures changed { Updates nodes.old nodes.new key
        (option_map (with_next next) (get nodes.old key)) }
    ensures places { length nodes.new.slots ≡ length nodes.old.slots }
{
    let node = nodes.get_mut(key).unwrap();
    node.next = next;
}

/// Returns the key of the first node, if there is one.
pub fn first_key(ends: Option<Ends>) -> Option<usize>
    ensures { result ≡ first_of ends }
{
    match ends {
        Some(ends) => Some(ends.first),
        None => None,
    }
}

/// Returns the key of the last node. If there is no node, returns the given key.
pub fn last_key_or(key: usize, ends: Option<Ends>) -> usize
    ensures { result ≡ last_or key ends }
{
    match ends {
        Some(ends) => ends.last,
        None => key,
    }
}

/// Returns the ends of the chain from a node on, if there is such a node.
pub fn from_node(next: Option<usize>, last: usize) -> Option<Ends>
    ensures { result ≡ ends_from next last }
{
    match next {
        Some(first) => Some(Ends { first, last }),
        None => None,
    }
}

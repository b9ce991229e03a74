// The past, only for proofs.
ghost use Rattle.std.specs.Prelude.{◌≡◌, List, []};
ghost use Rattle.std.specs.Borrow.{ftrue};
ghost use Rattle.ft_cells.specs.Plain.{PlainTree};
ghost use Rattle.ft_tree.specs.Tidy.{tidy};
ghost use Rattle.ft_core.specs.declared.request.Event.{Event as EventOf};
ghost use Rattle.ft_posix.specs.declared.call.Access.{Access as AccessOf};
ghost use Rattle.ft_core.specs.PastCode.{coded_events, coded_base_tree, coded_accesses};

use ft_calls::{Call, Reply};
use ft_forest::TxnId;
use ft_tree::Tree;
use std::marker::Model;

/// The tree from which all began, and what has happened since. It has no bytes, and nothing of it
/// is kept: only clauses see it.
#[derive(Drop)]
pub(crate) struct Past {
    pub ghost tree: { PlainTree } by { coded_base_tree },
    pub ghost events: { List EventOf } by { coded_events },
}

impl Model for Past {
    ghost also_owns = { λ _. ftrue };
}

// It owns nothing.
unsafe impl Send for Past {}

/// An event, except a granted call.
#[derive(Clone, Copy, Drop)]
pub(crate) enum Turn {
    Begin { txn: TxnId, parent: Option<TxnId> },
    Undo { stamp: u64 },
    Commit { txn: TxnId },
    Abort { txn: TxnId },
}

/// A call that is to be looked at on a tree, by reference.
#[derive(Clone, Copy, Drop)]
pub(crate) struct Question<'a> {
    pub tree: &'a Tree,
    pub stamp: u64,
    pub call: &'a Call,
}

/// The accesses of a call. They have no bytes either: not all that the asker holds already is noted
/// when the call is looked at.
#[derive(Drop)]
pub(crate) struct Seen {
    pub ghost accesses: { List AccessOf } by { coded_accesses },
}

impl Model for Seen {
    ghost also_owns = { λ _. ftrue };
}

impl Seen {
    ghost use Rattle.ft_core.specs.Noted.{seen_by};

    /// Returns the accesses of the call on the tree.
    #[inline(always)]
    pub(crate) fn by(_question: &Question<'_>) -> Seen
        ensures { result.accesses ≡ seen_by _question.now }
    {
        Seen {}
    }
}

/// A call that is granted, by reference.
#[derive(Clone, Copy, Drop)]
pub(crate) struct Grant<'a> {
    pub stamp: u64,
    pub txn: TxnId,
    pub call: &'a Call,
    pub reply: &'a Reply,
    pub seen: &'a Seen,
}

impl Past {
    ghost use Rattle.ft_core.specs.Noted.{turned, granted_too};

    /// Returns a past in which nothing has happened since this tree.
    #[inline(always)]
    pub(crate) fn new(_tree: &Tree) -> Past
        ensures { (result.tree ≡ tidy _tree.now) × (result.events ≡ []) }
    {
        Past {}
    }

    /// Adds an event.
    #[inline(always)]
    pub(crate) fn then(&self, _turn: &Turn) -> Past
        ensures { (result.tree ≡ self.now.tree)
            × (result.events ≡ turned self.now.events _turn.now) }
    {
        Past {}
    }

    /// Adds a granted call.
    #[inline(always)]
    pub(crate) fn and(&self, _grant: &Grant<'_>) -> Past
        ensures { (result.tree ≡ self.now.tree)
            × (result.events ≡ granted_too self.now.events _grant.now) }
    {
        Past {}
    }
}

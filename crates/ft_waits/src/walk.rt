// A walk along the waits-for edges, depth first.
ghost use Rattle.std.specs.Prelude.{◌≡◌, ◌+◌, ◌≤◌, ◌↔◌, ℕ, [], ◌∷◌, ◌++◌, true, IfOk, OnOk, IfSome, IfNone, OnSome, option_to_list, length, nat_eq};
ghost use Rattle.std.specs.List.{IsDistinct};
ghost use Rattle.std.specs.FinMap as finite;
ghost use Rattle.ft_waits.specs.Waits.{HasEdge, IsNamed, IsCycle};
ghost use Rattle.ft_waits.specs.Stands.{Stands};
ghost use Rattle.ft_waits.specs.Walk.{AreInOrder, LeadTo, ahead_of, KeepsRanks, path_txns, from_first};

use crate::edge::Edge;
use ft_base::{Memory, Table};
use ft_core::TxnId;
use std::alloc::Global;

/// A transaction on the path, with the edges out of it that were not followed to their end.
#[derive(Clone, Copy)]
struct Step {
    txn: TxnId,
    /// The place of the first such edge.
    next: usize,
    /// The place after the last edge out of it.
    end: usize,
    /// 0, or one more than the greatest rank that the edges before `next` lead to.
    rank: u64,
}

impl Step {
    /// Returns a transaction with all edges out of it ahead.
    fn new(edges: &[Edge], txn: TxnId) -> Step
        requires { AreInOrder edges.now }
        ensures txn { result.txn ≡ txn }
        ensures within { result.end ≤ length edges.now }
        ensures ahead { (to : ℕ)
            → LeadTo (ahead_of edges.now result) to ↔ HasEdge edges.now txn to }
        ensures rank { result.rank ≡ 0 }
    {
        let next = edges.partition_point(|edge| edge.from < txn);
        let end = edges.partition_point(|edge| edge.from <= txn);
        Step {
            txn,
            next,
            end,
            rank: 0,
        }
    }
}

/// A walk along the edges, depth first: it ranks transactions, or meets a cycle.
///
/// Each transaction that the edges name is unseen, then on the path, and then ranked.
#[derive(Drop)]
pub(crate) struct Walk<'a> {
    alloc: Global,
    /// In the order of the transactions that they go out of.
    edges: &'a [Edge],
    unseen: Table<()>,
    ranks: Table<u64>,
    /// Each step has an edge to the next.
    path: Vec<Step>,
}

impl<'a> Walk<'a> {
    /// Returns a walk that has seen nothing.
    pub(crate) fn new(alloc: Global, edges: &'a [Edge]) -> Result<Walk<'a>, Memory>
        ensures edges { IfOk result (λ walk. walk.edges.now ≡ edges.now) }
        ensures stands { IfOk result (λ walk. Stands walk []) }
        ensures at_rest { IfOk result (λ walk. walk.path.items ≡ []) }
    {
        let unseen = txns_named(alloc, edges)?;
        // No transaction is on the path twice.
        let path = Vec::with_capacity(alloc, unseen.len())?;
        Ok(Walk {
            alloc,
            edges,
            unseen,
            ranks: Table::new(alloc),
            path,
        })
    }

    /// Returns the transactions that are ranked, in rising order, with their ranks.
    pub(crate) fn ranks_list(&self) -> Result<Vec<(TxnId, u64)>, Memory>
        ensures { IfOk result (λ list. list.items ≡ finite.entries self.now.ranks) }
    {
        let mut list = Vec::with_capacity(self.alloc, self.ranks.len())?;
        for (txn, rank) in self.ranks.sorted(self.alloc)? {
            list.push((TxnId(txn), *rank))?;
        }
        Ok(list)
    }

    /// Ranks a transaction and all that it waits for, or returns a cycle.
    pub(crate) fn visit(&mut self, root: TxnId) -> Result<Option<Vec<TxnId>>, Memory>
        requires in_order { AreInOrder self.old.edges.now }
        requires stands { Stands self.old [] }
        requires at_rest { self.old.path.items ≡ [] }
        requires named { IsNamed self.old.edges.now root }
        ensures edges { self.new.edges ≡ self.old.edges }
        ensures cycle { IfOk result
            (λ found. IfSome found (λ members. IsCycle self.old.edges.now members.items)) }
        ensures distinct { IfOk result
            (λ found. IfSome found (λ members. IsDistinct nat_eq members.items)) }
        ensures stands { IfOk result (λ found. IfNone found (Stands self.new [])) }
        ensures at_rest { IfOk result (λ found. IfNone found (self.new.path.items ≡ [])) }
        ensures ranked { IfOk result
            (λ found. IfNone found (finite.contains_key self.new.ranks root ≡ true)) }
        ensures keeps { KeepsRanks self.old.ranks self.new.ranks }
    {
        let Some(mut top) = self.enter(root) else {
            return Ok(None);
        };
        loop {
            top = match self.advance(&mut top) {
                Some(next) => {
                    self.path.push(top)?;
                    match self.enter(next) {
                        Some(step) => step,
                        None => return Ok(Some(self.path_from(next)?)),
                    }
                }
                None => match self.leave(top)? {
                    Some(below) => below,
                    None => return Ok(None),
                },
            };
        }
    }

    /// Enters a transaction, unless it was seen.
    fn enter(&mut self, txn: TxnId) -> Option<Step>
        requires { AreInOrder self.old.edges.now }
        ensures others { self.new ≡ record self.old { unseen = self.new.unseen } }
        ensures unseen { self.new.unseen ≡ finite.remove self.old.unseen txn }
        ensures seen { IfNone result ((self.new ≡ self.old)
            × (finite.get self.old.unseen txn ≡ None)) }
        ensures fewer { OnSome result (finite.len self.new.unseen + 1
            ≡ finite.len self.old.unseen) }
        ensures txn { IfSome result (λ step. step.txn ≡ txn) }
        ensures stands { IfSome result
            (λ step. (steps : _) → Stands self.old steps → Stands self.new (steps ++ step ∷ [])) }
    {
        self.unseen.remove(txn.0)?;
        Some(Step::new(self.edges, txn))
    }

    /// Passes the edges out of the last transaction on the path that lead to ranked ones, up to one
    /// that does not, and returns where that one leads.
    fn advance(&self, top: &mut Step) -> Option<TxnId>
        requires { Stands self.now (self.now.path.items ++ top.old ∷ []) }
        ensures txn { top.new.txn ≡ top.old.txn }
        ensures stands { Stands self.now (self.now.path.items ++ top.new ∷ []) }
        ensures done { IfNone result (ahead_of self.now.edges.now top.new ≡ []) }
        ensures edge { IfSome result (HasEdge self.now.edges.now top.old.txn) }
        ensures unranked { IfSome result (λ next. finite.get self.now.ranks next ≡ None) }
    {
        while top.next < top.end {
            let next = self.edges[top.next].to;
            match self.ranks.get(next.0) {
                None => return Some(next),
                Some(rank) => top.rank = top.rank.max(*rank + 1),
            }
            top.next += 1;
        }
        None
    }

    /// Gives the last transaction on the path its rank, and goes back to the one before it.
    fn leave(&mut self, top: Step) -> Result<Option<Step>, Memory>
        requires stands { Stands self.old (self.old.path.items ++ top ∷ []) }
        requires done { ahead_of self.old.edges.now top ≡ [] }
        ensures edges { self.new.edges ≡ self.old.edges }
        ensures unseen { self.new.unseen ≡ self.old.unseen }
        ensures stands { OnOk result (Stands self.new self.old.path.items) }
        ensures path { IfOk result
            (λ below. self.old.path.items ≡ self.new.path.items ++ option_to_list below) }
        ensures empty { IfOk result (λ below. IfNone below (self.new.path.items ≡ [])) }
        ensures keeps { KeepsRanks self.old.ranks self.new.ranks }
    {
        self.ranks.insert(top.txn.0, top.rank)?;
        Ok(self.path.pop())
    }

    /// Returns the transactions on the path, from one of them on.
    fn path_from(&self, txn: TxnId) -> Result<Vec<TxnId>, Memory>
        ensures { IfOk result (λ members. members.items
            ≡ from_first txn (path_txns self.now.path.items)) }
    {
        let members = self
            .path
            .iter()
            .map(|step| step.txn)
            .skip_while(|member| *member != txn)
            .collect(self.alloc)?;
        Ok(members)
    }
}

/// Returns the transactions that edges name.
fn txns_named(alloc: Global, edges: &[Edge]) -> Result<Table<()>, Memory>
    ensures { IfOk result (λ txns. (txn : ℕ)
        → finite.contains_key txns txn ≡ true ↔ IsNamed edges.now txn) }
{
    let mut txns = Table::new(alloc);
    for edge in edges {
        txns.insert(edge.from.0, ())?;
        txns.insert(edge.to.0, ())?;
    }
    Ok(txns)
}

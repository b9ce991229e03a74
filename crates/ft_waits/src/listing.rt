// The waits-for edges of a core, and the verdict on them.
ghost use Rattle.std.specs.Prelude.{◌≡◌, ◌≢◌, ◌++◌, ◌↔◌, IfOk, OnOk, map};
ghost use Rattle.std.specs.List.{flat_map};
ghost use Rattle.ft_laws.specs.Lists.{In, Pairs};
ghost use Rattle.ft_core.specs.Reports.{as_wait};
ghost use Rattle.ft_waits.specs.declared.edge.Edge.{Edge as EdgeValue};
ghost use Rattle.ft_waits.specs.Edges.{AreEdgesOf, AreRising};
ghost use Rattle.ft_waits.specs.Listing.{lock_edges, child_edge};
ghost use Rattle.ft_waits.specs.Waits.{IsVerdict};

use crate::edge::{Edge, EdgeKind};
use crate::verdict::{Verdict, judge};
use ft_base::Memory;
use ft_core::{Core, LiveChild, Pending};

/// Returns the waits-for edges of a core as it is now, each once, in their order.
///
/// One goes from each transaction with a pending ask to each that blocks it, and one from each live
/// transaction to each live child. Out of memory is the only refusal. In addition to what
/// `Core::pending` and `Core::children` take, it takes the time to sort the edges.
pub fn edges(core: &Core) -> Result<Vec<Edge>, Memory>
    ensures { IfOk result (λ edges. AreEdgesOf core.now.state edges.items) }
{
    let waits = core.pending()?;
    let pairs = core.children()?;
    let mut edges = Vec::new(*waits.allocator());
    list_waits(&mut edges, waits.as_slice())?;
    list_children(&mut edges, pairs.as_slice())?;
    put_in_order(&mut edges);
    Ok(edges)
}

/// Returns the waits-for edges of a core as it is now, each once, in their order, and the verdict
/// on exactly these.
///
/// Out of memory is the only refusal.
pub fn judged_edges(core: &Core) -> Result<(Vec<Edge>, Verdict), Memory>
    ensures edges { IfOk result (λ told. AreEdgesOf core.now.state told.0.items) }
    ensures verdict { IfOk result (λ told. IsVerdict told.0.items told.1) }
{
    with_verdict(edges(core)?)
}

/// Returns these waits-for edges, and the verdict on them.
///
/// Out of memory is the only refusal.
pub fn with_verdict(edges: Vec<Edge>) -> Result<(Vec<Edge>, Verdict), Memory>
    ensures edges { IfOk result (λ told. told.0.items ≡ edges.items) }
    ensures verdict { IfOk result (λ told. IsVerdict edges.items told.1) }
{
    let verdict = judge(*edges.allocator(), edges.as_slice())?;
    Ok((edges, verdict))
}

/// Lists for each of these waits an edge to each blocker.
pub(crate) fn list_waits(edges: &mut Vec<Edge>, waits: &[Pending]) -> Result<(), Memory>
    ensures { OnOk result (edges.new.items ≡ edges.old.items
        ++ flat_map (λ wait. lock_edges (as_wait wait)) waits.now) }
{
    for wait in waits {
        list_wait(edges, wait)?;
    }
    Ok(())
}

/// Lists an edge to each blocker.
fn list_wait(edges: &mut Vec<Edge>, wait: &Pending) -> Result<(), Memory>
    ensures { OnOk result (edges.new.items ≡ edges.old.items ++ lock_edges (as_wait wait.now)) }
{
    for to in wait.blockers.as_slice() {
        edges.push(Edge {
            from: wait.txn,
            to: *to,
            kind: EdgeKind::Lock,
        })?;
    }
    Ok(())
}

/// Lists an edge from each of these parents to its child.
pub(crate) fn list_children(edges: &mut Vec<Edge>, pairs: &[LiveChild]) -> Result<(), Memory>
    ensures { OnOk result (edges.new.items ≡ edges.old.items ++ map child_edge pairs.now) }
{
    for pair in pairs {
        edges.push(Edge {
            from: pair.parent,
            to: pair.child,
            kind: EdgeKind::Child,
        })?;
    }
    Ok(())
}

/// Puts edges in their order.
fn put_in_order(edges: &mut Vec<Edge>)
    requires { Pairs (λ x y. x ≢ y) edges.old.items }
    ensures order { AreRising edges.new.items }
    ensures same { (edge : EdgeValue) → In edge edges.new.items ↔ In edge edges.old.items }
{
    edges.sort_unstable();
}

// The text of a drawing.
ghost use Rattle.std.specs.Prelude.{◌≡◌, Some, option_copied};
ghost use Rattle.std.specs.List.{flat_map};
ghost use Rattle.ft_dot.specs.Drawing.{cycle_mark, digraph, edge_text, member_text, rank_text, style_of, verdict_text};

use crate::report::Report;
use ft_core::TxnId;
use ft_waits::{Edge, EdgeKind, Verdict};
use std::fmt;

/// A report as a digraph in the DOT language, or an empty one if there is none.
#[derive(Clone, Copy)]
pub struct Digraph<'a>(pub Option<&'a Report>);

impl fmt::Display for Digraph<'_> {
    ghost output = { λ text. Some (digraph (option_copied text.0)) };

    fn fmt<W: fmt::Write>(&self, f: &mut fmt::Formatter<W>) -> fmt::Result {
        f.write_str("digraph waits {\n")?;
        if let Some(report) = self.0 {
            write!(
                f,
                "{}{}",
                VerdictLines(&report.verdict),
                EdgeLines(report.edges.as_slice())
            )?;
        }
        f.write_str("}\n")
    }
}

/// Edges, a line for each.
#[derive(Clone, Copy)]
struct EdgeLines<'a>(&'a [Edge]);

impl fmt::Display for EdgeLines<'_> {
    ghost output = { λ lines. Some (flat_map edge_text lines.0.now) };

    fn fmt<W: fmt::Write>(&self, f: &mut fmt::Formatter<W>) -> fmt::Result {
        for edge in self.0 {
            let style = style_of(edge.kind);
            writeln!(f, "  {} -> {} [style={style}];", edge.from.0, edge.to.0)?;
        }
        Ok(())
    }
}

/// Returns the style of an edge: solid for a lock, dashed for a child.
fn style_of(kind: EdgeKind) -> &'static str
    ensures { result.now ≡ style_of kind }
{
    match kind {
        EdgeKind::Lock => "solid",
        EdgeKind::Child => "dashed",
    }
}

/// The transactions of a verdict, a line for each.
#[derive(Clone, Copy)]
struct VerdictLines<'a>(&'a Verdict);

impl fmt::Display for VerdictLines<'_> {
    ghost output = { λ lines. Some (verdict_text lines.0.now) };

    fn fmt<W: fmt::Write>(&self, f: &mut fmt::Formatter<W>) -> fmt::Result {
        match self.0 {
            Verdict::Cycle(members) => MemberLines(members.as_slice()).fmt(f),
            Verdict::Ranked(ranks) => RankLines(ranks.as_slice()).fmt(f),
        }
    }
}

/// The members of a cycle, each with its mark.
#[derive(Clone, Copy)]
struct MemberLines<'a>(&'a [TxnId]);

impl fmt::Display for MemberLines<'_> {
    ghost output = { λ lines. Some (flat_map member_text lines.0.now) };

    fn fmt<W: fmt::Write>(&self, f: &mut fmt::Formatter<W>) -> fmt::Result {
        for txn in self.0 {
            let mark = cycle_mark();
            writeln!(f, "  {} [{mark}];", txn.0)?;
        }
        Ok(())
    }
}

/// Returns the mark of a member of a cycle.
fn cycle_mark() -> &'static str
    ensures { result.now ≡ cycle_mark }
{
    "color=red"
}

/// Transactions with their ranks.
#[derive(Clone, Copy)]
struct RankLines<'a>(&'a [(TxnId, u64)]);

impl fmt::Display for RankLines<'_> {
    ghost output = { λ lines. Some (flat_map rank_text lines.0.now) };

    fn fmt<W: fmt::Write>(&self, f: &mut fmt::Formatter<W>) -> fmt::Result {
        for (txn, rank) in self.0 {
            writeln!(f, "  {} [label=\"{} (rank {rank})\"];", txn.0, txn.0)?;
        }
        Ok(())
    }
}

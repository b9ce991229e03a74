// The text of which transaction waits for which.
ghost use Rattle.std.specs.Prelude.{◌≡◌, ◌++◌, Some};
ghost use Rattle.ft_words.specs.Texts.{lines_text};
ghost use Rattle.ft_line.specs.Reports.{waits_text, edge_text, rank_list, verdict_text};

use crate::text::TxnList;
use ft_core::TxnId;
use ft_waits::{Edge, Verdict};
use std::fmt;

/// Waits-for edges, and their verdict.
#[derive(Clone, Copy)]
pub struct WaitsText<'a> {
    pub edges: &'a [Edge],
    pub verdict: &'a Verdict,
}

impl fmt::Display for WaitsText<'_> {
    ghost output = { λ text. Some (waits_text text.edges.now text.verdict.now) };

    fn fmt<W: fmt::Write>(&self, f: &mut fmt::Formatter<W>) -> fmt::Result {
        let count = self.edges.len();
        write!(
            f,
            "edges {count}{}\n{}",
            EdgeLines(self.edges),
            VerdictText(self.verdict)
        )
    }
}

/// Edges, each after a line feed.
#[derive(Clone, Copy)]
struct EdgeLines<'a>(&'a [Edge]);

impl fmt::Display for EdgeLines<'_> {
    ghost output = { λ lines. Some (lines_text edge_text lines.0.now) };

    fn fmt<W: fmt::Write>(&self, f: &mut fmt::Formatter<W>) -> fmt::Result {
        for edge in self.0 {
            write!(f, "\nedge {} {} {}", edge.from.0, edge.to.0, edge.kind)?;
        }
        Ok(())
    }
}

/// A cycle, or ranks.
#[derive(Clone, Copy)]
struct VerdictText<'a>(&'a Verdict);

impl fmt::Display for VerdictText<'_> {
    ghost output = { λ text. Some (verdict_text text.0.now) };

    fn fmt<W: fmt::Write>(&self, f: &mut fmt::Formatter<W>) -> fmt::Result {
        match self.0 {
            Verdict::Cycle(members) => write!(f, "cycle{}", TxnList(members.as_slice())),
            Verdict::Ranked(ranks) => write!(f, "ranks{}", RankList(ranks.as_slice())),
        }
    }
}

/// Transactions with their ranks, each after a space.
#[derive(Clone, Copy)]
struct RankList<'a>(&'a [(TxnId, u64)]);

impl fmt::Display for RankList<'_> {
    ghost output = { λ list. Some (rank_list list.0.now) };

    fn fmt<W: fmt::Write>(&self, f: &mut fmt::Formatter<W>) -> fmt::Result {
        for (txn, rank) in self.0 {
            write!(f, " {}:{rank}", txn.0)?;
        }
        Ok(())
    }
}

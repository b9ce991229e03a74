// A report of which transaction waits for which.
use ft_base::Sequence;
use ft_waits::{Edge, Verdict};

/// A report of which transaction waits for which: the waits-for edges, and their verdict.
#[derive(Debug, PartialEq, Eq, Drop)]
pub struct Report {
    pub edges: Sequence<Edge>,
    pub verdict: Verdict,
}

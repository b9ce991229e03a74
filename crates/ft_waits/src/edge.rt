// The waits-for edges.
ghost use Rattle.std.specs.Prelude.{Some};

use ft_core::TxnId;
use std::fmt;

/// Why a transaction waits for another.
#[derive(Clone, Copy, Debug, PartialEq, Eq, PartialOrd, Ord)]
pub enum EdgeKind {
    /// Its pending ask waits for a lock of the other.
    Lock,
    /// The other is a live child, and ends first.
    Child,
}

impl fmt::Display for EdgeKind {
    ghost use Rattle.ft_waits.specs.Kinds.{kind_name};

    ghost output = { λ kind. Some (kind_name kind) };

    fn fmt<W: fmt::Write>(&self, f: &mut fmt::Formatter<W>) -> fmt::Result {
        f.write_str(match self {
            EdgeKind::Lock => "lock",
            EdgeKind::Child => "child",
        })
    }
}

/// A waits-for edge: one transaction waits for another.
///
/// Edges are ordered by `from`, then by `to`, and a lock comes before a child.
#[derive(Clone, Copy, Debug, PartialEq, Eq, PartialOrd, Ord)]
pub struct Edge {
    /// The one that waits.
    pub from: TxnId,
    /// For whom.
    pub to: TxnId,
    /// Why.
    pub kind: EdgeKind,
}

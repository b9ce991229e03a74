//! The waits-for edges between transactions, and whether there is a cycle of them.
#![tactic(auto)]

mod behind;
mod edge;
mod listing;
mod verdict;
mod walk;
mod youngest;

pub use behind::ahead_of;
pub use edge::{Edge, EdgeKind};
pub use listing::{edges, judged_edges, with_verdict};
pub use verdict::{Verdict, judge};
pub use youngest::youngest_on_cycle;

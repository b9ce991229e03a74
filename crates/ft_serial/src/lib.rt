//! The serial order of a core's history: the calls of the top-level transactions that have
//! committed, in the order of the commits, and then all other standing calls.
#![tactic(auto)]

mod asked;
mod committed_calls;
pub mod laws;
mod order;
mod top_level;
mod walk;

pub use committed_calls::CommittedCalls;
pub use order::serial;

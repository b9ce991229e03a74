//! A core that keeps what has happened, and the tree from which it went on.
#![tactic(auto)]

pub mod laws;
mod recent;
mod record;
mod recorded;

pub use recent::Recent;
pub use recorded::Recorded;

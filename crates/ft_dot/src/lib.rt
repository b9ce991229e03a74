//! Drawings of which transaction waits for which: the last report among replies, in the DOT
//! language.
#![tactic(auto)]

mod drawing;
mod filter;
mod reading;
mod report;

pub use filter::{draw, read_all};

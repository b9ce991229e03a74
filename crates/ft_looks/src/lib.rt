//! A tree that a call looks at, cell by cell, and a record of the cells that were looked at.
//!
//! The cells that are looked at, and those that are then set, are the accesses of the call. Its
//! transaction locks them.
#![tactic(auto)]

mod access_set;
mod look;

pub use look::{Look, text_parts};

//! Locks by the rules of Moss: what an owner may have on a cell, how the locks follow a history,
//! and the laws of both.
//!
//! The rules are those of Moss, Nested Transactions, MIT 1981 (the locking rules). `Rule::Profile`
//! has one rule of this project: an ancestor that holds a lock is treated as one that retains it.
//!
//! The definitions are in `specs`, and the laws are contracts in `laws`. The lemmas in `proofs` are
//! for the crate that keeps the locks.
#![tactic(auto)]

mod cell_locks;
mod crowd;
pub mod laws;
mod line;
mod lock_modes;
mod owner_index;
mod rule;

pub use cell_locks::{CellLocks, OwnerLocks};
pub use line::{LockKind, LockLine};
pub use lock_modes::LockModes;
pub use rule::Rule;

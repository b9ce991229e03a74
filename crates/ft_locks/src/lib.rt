//! The locks of transactions on cells: which transaction holds or retains which access, and which
//! transactions block a call.
//!
//! The crate `ft_lock_rules` defines a lock and the changes to it.
#![tactic(auto)]

mod blocking;
mod bulk_released;
mod cell_index;
mod cells;
mod entry_keys;
mod holdings;
mod listing;
mod locks;

pub use ft_lock_rules::{LockKind, LockLine};
pub use locks::{LockCheck, Locks};

//! Transactions that threads share: a core behind a lock, with views of what has committed if they
//! are wanted, and the trait of what job threads ask of it.
#![tactic(auto)]

mod guarded;
pub mod laws;
mod manager;
mod opened;
mod publisher;
mod shareable;
mod shared;
mod sharing;
mod victim;

pub use manager::Manager;
pub use opened::{Cause, Opened, ViewsRefused, with_views};
pub use publisher::MOST_READERS;
pub use shareable::Shareable;
pub use shared::{MOST_PAUSE, Refused, Shared};
pub use sharing::{Sharing, ViewsOf};

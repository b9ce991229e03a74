//! A small language of scripts, for the crates of tests: requests, and the answers that they are to
//! get of a core, or of one behind a lock.
#![tactic(auto)]

mod locked;
mod scripts;
mod through;

pub use locked::{is_deadlock, new_shared};
pub use scripts::{Answers, Line, Wanted, is_reply, plays};
pub use through::Through;

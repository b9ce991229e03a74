//! The command line of the program `ft`: the task that its arguments request.
#![tactic(auto)]

mod choice;
mod limits;
mod place;

pub use choice::{AskedPace, AskedSave, Choice, choose};
pub use limits::AskedLimits;

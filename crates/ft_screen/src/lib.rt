//! The progress of a task on a line of a screen: how the line is written, and trees of directories
//! that show it while they are read or made.
#![tactic(auto)]

mod screen;
mod shown;
mod tally;

pub use screen::{PAUSE, erase, rewrite};
pub use shown::{ShownSource, ShownTarget};

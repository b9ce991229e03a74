//! Limits as text: the value of a flag that sets one, and the line that lists the limits a script
//! needs.
#![tactic(auto)]

mod front;
mod line;
mod values;

pub use front::{LONGEST_NEEDS, limits_for};
pub use line::{NeedsLine, raised_by, raised_for};
pub use values::{limit_of, size_of};

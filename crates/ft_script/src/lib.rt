//! Scripts: lines that request transactions and calls, read, carried out one after another, and
//! answered.
#![tactic(auto)]

mod gathering;
mod lines;
mod playing;
mod setup;
mod setup_fault;
mod strictly;
mod writing;

pub use playing::{LONGEST_LINE, MOST_READS, PlayFault, play};
pub use setup::{core_with_setup, play_setup};
pub use setup_fault::SetupFault;
pub use strictly::{FailedLine, StrictFault, play_strictly};
pub use writing::write_out;

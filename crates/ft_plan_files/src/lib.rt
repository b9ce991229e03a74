//! The file of a plan, whose lines `put PATH @FILE` and `get PATH @FILE` stand for steps that carry
//! the bytes of files of the disk: the plan with these steps written out, the places of the `get`s,
//! and the numbers of lines.
#![tactic(auto)]

mod fault;
mod file_line;
pub mod laws;
mod places;
mod plan;
mod steps;
mod writing;

pub use fault::PlanFileFault;
pub use places::{GetPlace, line_of_file, places_of};
pub use plan::{WrittenPlan, written_plan};
pub use writing::{LONGEST_PLAN, written_out};

//! Names in plans: an `open` may give a name to its step, and later steps of its job may have the
//! name in place of the number of that step.
#![tactic(auto)]

pub mod laws;
mod numbering;
mod steps;

pub use numbering::numbered_plan;
pub use steps::{begins_job, is_silent, is_step};

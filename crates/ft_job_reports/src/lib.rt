//! Reports of jobs: which calls the steps of a job request, and whether reports are what happened.
#![tactic(auto)]

mod comparing;
mod history;
mod meeting;
mod order;
mod places;
mod report;
mod steps;

pub use comparing::are_reports;
pub use meeting::{are_met, ended_as_meant, has_strict, is_must};
pub use order::may_start;
pub use places::{job_of, place_of};
pub use report::{CallReport, End, Report};
pub use steps::{call_of_step, comes_to_subs, goes_on, is_strict, opened_descriptor};

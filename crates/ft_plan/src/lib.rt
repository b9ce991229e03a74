//! Jobs that run side by side: the plan that lists them.
#![tactic(auto)]

mod fault;
mod job;
mod line;
mod name;
mod parsing;
mod plan;
mod rules;

pub use fault::JobFault;
pub use job::{Job, JobKind, Step};
pub use name::JobName;
pub use plan::Plan;

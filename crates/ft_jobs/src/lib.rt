//! Jobs that run side by side, each in a thread and a transaction of its own, and report what has
//! become of them.
#![tactic(auto)]

mod board;
mod gate;
mod job_run;
mod pace;
mod running;

pub use ft_job_reports::{CallReport, End, Report, are_met};
pub use ft_plan::{Job, JobFault, JobKind, JobName, Plan, Step};
pub use gate::{Gate, OpenGate};
pub use pace::{Pace, USUAL_RETRIES, USUAL_THREADS};
pub use running::{JobsOutcome, run_jobs, run_jobs_unchecked};

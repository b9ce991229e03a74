//! Plans that are run, how far their jobs have come, shown on a line of a screen meanwhile, and the
//! text of their outcome.
#![tactic(auto)]

mod gets;
mod job_run;
mod plan_end;
mod progress;
mod running;
mod text;
mod watch;
mod watched;

pub use job_run::{JobRun, PlanRun};
pub use plan_end::PlanEnd;
pub use progress::Progress;
pub use running::{RunFault, run_plan};
pub use text::OutcomeText;
pub use watch::Watch;
pub use watched::run_jobs_shown;

// How a plan is run.
use ft_jobs::{Pace, Plan};
use ft_plan_files::WrittenPlan;

/// A plan from its file, and how its jobs are run.
#[derive(Drop)]
pub struct PlanRun<'p, S> {
    pub plan: &'p WrittenPlan,
    pub pace: Pace,
    /// The screen that shows how far they have come, if there is one.
    pub screen: Option<S>,
}

/// The jobs of a plan, and how they are run.
#[derive(Drop)]
pub struct JobRun<'p, S> {
    pub plan: &'p Plan,
    pub pace: Pace,
    /// The screen that shows how far they have come, if there is one.
    pub screen: Option<S>,
}

// Plans: which jobs there are.
ghost use Rattle.std.specs.Prelude.{◌≡◌, ◌⊎◌, List, IfOk, IfErr, IsErrOf, true};
ghost use Rattle.ft_plan.specs.Plans.{IsPlanOf, is_plan};

use crate::fault::JobFault;
use crate::job::Job;
use crate::parsing::jobs_of;
use crate::rules::is_plan;
use ft_base::Sequence;
use std::alloc::Global;
use std::marker::Model;

/// The jobs, in their order, with the steps of each. Clauses see it as the list of its jobs.
///
/// There are 1 to 64 jobs, with names of their own; a subjob comes after its parent. The last step
/// of each job is a commit or an abort, and no other is; a job that has subjobs starts them in
/// exactly one step, any other in none. A call on what a step opened is on what an earlier `open`
/// of the same job opened.
#[derive(Debug, Drop)]
pub struct Plan {
    jobs: Sequence<Job>,
}

impl Model for Plan {
    ghost use Rattle.std.specs.Prelude.{◌≡◌, List, true};
    ghost use Rattle.ft_plan.specs.declared.job.Job.{Job};
    ghost use Rattle.ft_plan.specs.Plans.{is_plan};

    ghost Value = { List Job };

    ghost view = { λ plan. plan.jobs };

    ghost invariant = { λ plan. is_plan plan.jobs ≡ true };
}

impl Plan {
    /// Returns the plan that these bytes are (docs/SCRIPT.md, plans).
    ///
    /// Returns BadPlan exactly if they are none. Any other fault is Memory.
    #[tactic(auto, using(crate::proofs::Grouping::only_plan))]
    pub fn read(alloc: Global, text: &[u8]) -> Result<Plan, JobFault>
        ensures plan { IfOk result (λ plan. IsPlanOf text.now plan) }
        ensures bad_plan { IsErrOf result JobFault.BadPlan → (jobs : List Job)
            → IsPlanOf text.now jobs → ⊥ }
        ensures cause { IfErr result
            (λ fault. (fault ≡ JobFault.BadPlan) ⊎ (fault ≡ JobFault.Memory)) }
    {
        let jobs = jobs_of(alloc, text)?;
        if !is_plan(jobs.as_slice()) {
            return Err(JobFault::BadPlan);
        }
        Ok(Plan { jobs: jobs.into() })
    }

    /// Returns the jobs of the plan, in order.
    pub fn jobs(&self) -> &[Job]
        ensures jobs { result.now ≡ self.now }
        ensures rules { is_plan self.now ≡ true }
    {
        self.jobs.as_slice()
    }
}

// The jobs of a plan, and their steps.
use crate::name::JobName;
use ft_base::Sequence;
use ft_posix::Call;

/// A job of a plan.
#[derive(Debug, PartialEq, Eq, Drop)]
pub struct Job {
    /// Its name.
    pub name: JobName,
    /// The job that it is a subjob of, if it is one.
    pub parent: Option<JobName>,
    /// Whether its calls must do what they request.
    pub kind: JobKind,
    /// The jobs that must have committed before it starts, alongside it in the same job.
    pub after: Sequence<JobName>,
    /// Its steps, in their order. The first step has the number 1.
    pub steps: Sequence<Step>,
}

/// The kind of a job: whether its calls must do what they request.
#[derive(Clone, Copy, Debug, PartialEq, Eq)]
pub enum JobKind {
    /// Its calls may fail.
    Free,
    /// Each of its calls must do what it requests, or may fail if it is tried.
    Strict,
    /// Each call of this one must too, and if it does not end as it is meant to, the job around it
    /// ends with it.
    Must,
}

/// A step of a job.
#[derive(Debug, PartialEq, Eq, Drop)]
pub enum Step {
    /// A call.
    Call(Call),
    /// A call on the descriptor that an earlier step of the job opened. The call has the number of
    /// that step in place of the descriptor.
    CallOn(Call),
    /// A call that may fail, in a strict job.
    Try(Call),
    /// A call that may fail, on the descriptor that an earlier step opened, as above.
    TryOn(Call),
    /// The subjobs start, side by side, and are waited for.
    Subs,
    /// The job's transaction commits.
    Commit,
    /// The job's transaction is aborted.
    Abort,
}

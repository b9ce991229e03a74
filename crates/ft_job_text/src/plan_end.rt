// How a run of a plan ended.
use ft_base::Sequence;

/// How a run of a plan ended.
#[derive(Debug, Drop)]
pub struct PlanEnd {
    /// Whether each job ended as the plan means, which is so of any plan that is not strict.
    pub met: bool,
    /// For each `get` the bytes that its read was answered, if its job and all jobs around it have
    /// committed.
    pub got: Vec<Option<Sequence<u8>>>,
}

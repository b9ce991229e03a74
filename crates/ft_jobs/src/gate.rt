// A gate may hold up the steps of jobs, and learns how far they come.
use std::sync::Wait;
use std::time::Clock;

/// A gate may hold up the steps of jobs, so that a test can tell in which order they come, or takes
/// note of how far they come.
pub trait Gate: Sync {
    /// Is called before each step of a job, with its number, and the job goes on when it returns.
    /// Jobs are numbered from 0, steps from 1.
    fn pass<R: Wait + Clock>(&self, rt: &R, job: u64, step: u64);

    /// Is called when a job has ended, even if it was not started. Does nothing if a gate does not
    /// define it.
    fn ended<R: Wait + Clock>(&self, _rt: &R, _job: u64) {}
}

/// A gate that lets each step pass at once.
#[derive(Clone, Copy, Debug)]
pub struct OpenGate;

impl Gate for OpenGate {
    fn pass<R: Wait + Clock>(&self, _rt: &R, _job: u64, _step: u64) {}
}

// Requests through a lock.
use anyhow::{Result, bail};
use ft_core::{Answer, Core, Fault, Request};
use ft_shared::Shared;
use std::alloc::Global;
use std::marker::Brand;
use std::sync::Wait;
use test_scripts::{Answers, Through};

/// Returns a new core behind a lock.
pub fn new_shared_core(alloc: Global) -> Result<Shared<Brand, Core>, Fault> {
    Shared::new(Core::new(alloc)?).map_err(|refused| refused.fault)
}

/// Carries a request out through the lock. Fails only for a checkpoint.
pub fn execute<R: Wait>(rt: &R, shared: &Shared<Brand, Core>, request: Request) -> Result<Answer> {
    if matches!(request, Request::Checkpoint) {
        bail!("there is no checkpoint through a lock");
    }
    Ok(Through { rt, shared }.answer_to(request))
}

//! An example of the crates in use: one job with two steps. The first step fails and leaves
//! nothing.
#![tactic(auto)]

mod steps;

use anyhow::Result;
use ft_core::{Core, TxnId};
use ft_words::TreeText;
use std::alloc::Global;
use steps::make_file;

/// Runs a job on a new core, and prints what came of it.
fn main(rt: HostRuntime) -> Result<()> {
    let mut core = Core::new(rt.alloc())?;
    tell_of_job(&rt, &mut core)
}

/// Runs the job, and prints what came of it.
fn tell_of_job(rt: &HostRuntime, core: &mut Core) -> Result<()> {
    let calls = run_job(rt.alloc(), core)?;
    println!(rt; "the first step failed, and {calls} calls were taken back")?;
    let rows = core.tree().rows()?;
    println!(rt; "{}", TreeText::of(rt.alloc(), rows.as_slice())?)?;
    Ok(())
}

/// Runs the job, and returns how many calls of its first step were undone.
fn run_job(alloc: Global, core: &mut Core) -> Result<u64> {
    let job = core.begin()?;
    let calls = fail_step(alloc, core, job)?;
    let step = core.sub(job)?;
    make_file(alloc, core, step, b"/whole", b"all of it")?;
    core.commit(step)?;
    core.commit(job)?;
    Ok(calls)
}

/// A step that makes a file and then fails: how many calls were undone.
fn fail_step(alloc: Global, core: &mut Core, job: TxnId) -> Result<u64> {
    let step = core.sub(job)?;
    make_file(alloc, core, step, b"/half", b"not all of it")?;
    Ok(core.abort(step)?)
}

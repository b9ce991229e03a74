//! An example of views: jobs run side by side, what they have made is published whenever one of
//! them has ended, and a thread reads it meanwhile and waits for none of them.
#![tactic(auto)]

mod reading;

use anyhow::{Result, bail};
use ft_jobs::Plan;
use ft_record::Recorded;
use ft_shared::with_views;
use reading::read_beside;
use std::marker::Brand;

/// Three jobs, each of which makes a directory.
const PLAN: &[u8] = b"job a\nmkdir /a\ncommit\njob b\nmkdir /b\ncommit\njob c\nmkdir /c\ncommit\n";

/// Runs a plan of three jobs while a reader looks on, and prints what the reader saw.
fn main(rt: HostRuntime) -> Result<()> {
    let alloc = rt.alloc();
    let plan = Plan::read(alloc, PLAN)?;
    let Ok(opened) = with_views(Recorded::new(alloc)?) else {
        bail!("there are no views");
    };
    let (jobs, seen) = read_beside::<Brand, HostRuntime>(&rt, alloc, &plan, opened)?;
    println!(rt; "{jobs} jobs have ended")?;
    println!(rt;
        "the reader saw {} calls, and {} names",
        seen.calls, seen.names
    )?;
    Ok(())
}

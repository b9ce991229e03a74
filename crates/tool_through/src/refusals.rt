// Publishes and requests, each made once more if it was refused.
use crate::publishing::publish_each;
use crate::requests::request_each;
use anyhow::{Result, bail};
use ft_core::Core;
use ft_record::{Recent, Recorded};
use ft_shared::with_views;
use std::alloc::Global;
use std::io::Print;
use std::marker::Brand;
use std::sync::Wait;

/// Makes directories through a lock, each in a transaction of its own, publishes each, and counts
/// what a reader sees then; then makes requests to a core. Prints each refusal, and makes its
/// request once more. Fails if a request that was refused has changed something.
///
/// With all the memory that it needs, nothing is refused. It is there to be run with each of its
/// allocations refused in turn.
pub fn run<R: Wait + Print>(rt: &R, alloc: Global) -> Result<()> {
    let Ok(opened) = with_views(Recent::of(Core::new(alloc)?)) else {
        bail!("there are no views");
    };
    let core = Recorded::new(alloc)?;
    publish_each::<Brand, R>(rt, alloc, opened)?;
    request_each(rt, alloc, core)
}

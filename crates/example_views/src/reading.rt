// A thread that reads alongside jobs.
ghost use Rattle.std.specs.Prelude.{◌≡◌};
ghost use Rattle.ft_shared.specs.Opening.{named_by};

use anyhow::{Result, bail};
use ft_calls::Reply;
use ft_jobs::{Gate, JobFault, JobsOutcome, Pace, Plan, Report, run_jobs_unchecked};
use ft_path::FilePath;
use ft_shared::{Opened, Shared, Sharing, ViewsOf};
use ft_view::Reader;
use std::alloc::Global;
use std::sync::Wait;
use std::thread::{self, Threads};
use std::time::{Clock, Duration};

/// How often each call is asked for at most, and how often the reader looks.
const TURNS: u64 = 10_000;

/// The last view that a reader saw.
#[derive(Clone, Copy)]
pub struct Seen {
    pub calls: u64,
    pub names: u64,
}

/// A gate that publishes what has committed whenever a job has ended.
#[derive(Drop)]
struct Publishing<'a, J: Sharing> {
    shared: &'a Shared<J>,
}

impl<'a, J: Sharing + Sync> Gate for Publishing<'a, J> {
    fn pass<R: Wait + Clock>(&self, _rt: &R, _job: u64, _step: u64) {}

    fn ended<R: Wait + Clock>(&self, rt: &R, _job: u64) {
        // If there is not enough memory for it, the next one publishes this too.
        let _ = self.shared.publish(rt);
    }
}

/// Runs the jobs of a plan, and alongside them a thread that reads what they have published.
/// Returns how many jobs have ended, and what was read last.
pub fn read_beside<J: Sharing + Send + Sync, R: Threads + Wait + Clock + Sync>(
    rt: &R,
    alloc: Global,
    plan: &Plan,
    opened: Opened,
) -> Result<(usize, Seen)>
    requires { named_by opened ≡ J.origin }
{
    let Ok((shared, reader)) = opened.named::<J, R>(rt) else {
        bail!("the views have no name");
    };
    let (run, seen) = side_by_side(rt, alloc, plan, &shared, reader);
    let (core, victims) = shared.into_parts(rt);
    let outcome = JobsOutcome::checked(alloc, plan, core, victims, run?)?;
    Ok((outcome.reports.len(), seen?))
}

/// Both at once.
fn side_by_side<J: Sharing + Send + Sync, R: Threads + Wait + Clock + Sync>(
    rt: &R,
    alloc: Global,
    plan: &Plan,
    shared: &Shared<J>,
    reader: Reader<ViewsOf<J>>,
) -> (Result<Vec<Report>, JobFault>, Result<Seen>) {
    thread::join(
        rt,
        || run_jobs_unchecked(
            rt,
            alloc,
            plan,
            shared,
            &Publishing { shared },
            Pace::of_turns(TURNS),
        ),
        move || look(rt, alloc, reader, 3),
    )
}

/// Lists the root again and again, until so many names are there.
fn look<J: Sharing, R: Wait + Clock>(
    rt: &R,
    alloc: Global,
    mut reader: Reader<ViewsOf<J>>,
    wanted: u64,
) -> Result<Seen> {
    let root = FilePath::new(alloc, b"/".as_slice())?;
    for _ in 1..TURNS {
        let seen = list(&mut reader, &root)?;
        if seen.names == wanted {
            return Ok(seen);
        }
        thread::sleep(rt, Duration::from_millis(1));
    }
    list(&mut reader, &root)
}

/// Returns what the reader sees now.
fn list<J: Sharing>(reader: &mut Reader<ViewsOf<J>>, path: &FilePath) -> Result<Seen> {
    let (calls, Reply::Names(names)) = reader.list(path)? else {
        bail!("there is no such directory");
    };
    Ok(Seen {
        calls,
        names: names.len() as u64,
    })
}

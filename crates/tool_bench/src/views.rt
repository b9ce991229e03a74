// What publishes and readers cost.
ghost use Rattle.std.specs.Prelude.{◌≡◌};
ghost use Rattle.ft_shared.specs.Opening.{named_by};

use crate::counts::ViewCounts;
use crate::failed::Failed;
use ft_calls::Call;
use ft_core::Core;
use ft_path::FilePath;
use ft_record::Recent;
use ft_shared::{Opened, Shared, Sharing, ViewsOf, with_views};
use ft_view::Reader;
use std::alloc::Global;
use std::io::Print;
use std::marker::Brand;
use std::sync::Wait;

/// Makes, publishes, reads and asks as often as the counts request, and prints how many calls are
/// published then.
pub fn run<R: Wait + Print>(rt: &R, alloc: Global, counts: ViewCounts) -> Result<(), Failed> {
    let Ok(opened) = with_views(Recent::of(Core::new(alloc)?)) else {
        return Err(Failed::Memory);
    };
    let published = work::<Brand, R>(rt, alloc, counts, opened)?;
    let _ = println!(rt; "{published} calls are published");
    Ok(())
}

/// Does all of it, and returns how many calls are published then.
fn work<J: Sharing, R: Wait>(
    rt: &R,
    alloc: Global,
    counts: ViewCounts,
    opened: Opened<Recent>,
) -> Result<u64, Failed>
    requires { named_by opened ≡ J.origin }
{
    let Ok((shared, mut reader)) = opened.named::<J, R>(rt) else {
        return Err(Failed::Call);
    };
    let published = work_through(rt, alloc, counts, &shared, &mut reader);
    shared.into_core(rt);
    published
}

/// Makes, publishes, reads and asks through the lock. Returns how many calls are published.
fn work_through<J: Sharing, R: Wait>(
    rt: &R,
    alloc: Global,
    counts: ViewCounts,
    shared: &Shared<J, Recent>,
    reader: &mut Reader<ViewsOf<J>>,
) -> Result<u64, Failed> {
    let published = make(rt, alloc, counts, shared)?;
    let path = FilePath::new(alloc, b"/0".as_slice())?;
    read(reader, counts.reads, &path)?;
    ask(rt, counts.asks, &path, shared)?;
    Ok(published)
}

/// Makes the directories, and publishes them. Returns how many calls are published.
fn make<J: Sharing, R: Wait>(
    rt: &R,
    alloc: Global,
    counts: ViewCounts,
    shared: &Shared<J, Recent>,
) -> Result<u64, Failed> {
    let mut published = 0;
    for number in 0..counts.makes {
        let text = format!(in alloc; "/{number}")?;
        let path = FilePath::new(alloc, text.as_bytes())?;
        let txn = shared.begin(rt)?;
        let _ = shared.ask(rt, txn, Call::Mkdir { path, mode: None })?;
        shared.commit(rt, txn)?;
        if counts.publishes_at(number + 1) {
            let (calls, _) = shared.publish(rt)?;
            published = calls;
        }
    }
    Ok(published)
}

/// Stats so many times.
fn read<J: Sharing>(
    reader: &mut Reader<ViewsOf<J>>,
    reads: u64,
    path: &FilePath,
) -> Result<(), Failed> {
    for _ in 0..reads {
        let _ = reader.stat(path)?;
    }
    Ok(())
}

/// Asks for a stat so many times, in one transaction.
fn ask<J: Sharing, R: Wait>(
    rt: &R,
    asks: u64,
    path: &FilePath,
    shared: &Shared<J, Recent>,
) -> Result<(), Failed> {
    let txn = shared.begin(rt)?;
    for _ in 0..asks {
        let call = Call::Stat {
            path: path.try_clone()?,
        };
        let _ = shared.ask(rt, txn, call)?;
    }
    Ok(shared.commit(rt, txn)?)
}

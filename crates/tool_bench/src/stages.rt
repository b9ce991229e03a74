// The cost of calls through a core, in transactions.
use crate::failed::{Failed, check};
use crate::paths::{Level, Place};
use ft_calls::Call;
use ft_core::{Core, Outcome, TxnId};
use ft_path::FilePath;
use std::alloc::Global;
use std::mem;

/// A request that is repeated, in a transaction that has made many directories.
#[derive(Clone, Copy, PartialEq, Eq)]
pub enum Stage {
    /// The path of a call is made, and no call: what the others take besides their asks.
    Call,
    /// A directory is asked for, each time alongside another one.
    Ask,
    /// A directory is asked for, each time alongside another one, while ten thousand other
    /// transactions at the top are live.
    Crowd,
    /// A directory is asked for, and all that was made is committed and swept at the end.
    Whole,
    /// A directory is asked for, and all that was made is committed and swept at the end. All new
    /// directories are in one and the same directory.
    Heap,
    /// The path of a look is made, and no call.
    Path,
    /// One and the same directory is looked at.
    Look,
    /// A subtransaction begins and commits, with no call.
    Empty,
}

impl Stage {
    /// The one of this name.
    pub fn named(name: &str) -> Option<Stage> {
        match name {
            "call" => Some(Stage::Call),
            "ask" => Some(Stage::Ask),
            "crowd" => Some(Stage::Crowd),
            "whole" => Some(Stage::Whole),
            "heap" => Some(Stage::Heap),
            "path" => Some(Stage::Path),
            "look" => Some(Stage::Look),
            "empty" => Some(Stage::Empty),
            _ => None,
        }
    }

    /// The path of its call, alongside one of so many directories or the first one.
    fn path(self, alloc: Global, index: u64, size: u64) -> Result<FilePath, Failed> {
        match self {
            Stage::Look | Stage::Path => Place::of(0).path(alloc, Level::Third),
            Stage::Heap => Place::of(0).path(alloc, Level::Beside(index)),
            _ => Place::among(index, size).path(alloc, Level::Beside(index)),
        }
    }

    /// Does it once with a path.
    fn take(self, core: &mut Core, txn: TxnId, path: FilePath) -> Result<(), Failed> {
        match self {
            Stage::Call | Stage::Path | Stage::Empty => Ok(()),
            Stage::Ask | Stage::Crowd | Stage::Whole | Stage::Heap => {
                ask(core, txn, Call::Mkdir { path, mode: None })
            }
            Stage::Look => ask(core, txn, Call::Stat { path }),
        }
    }
}

/// Makes a call that nobody blocks.
fn ask(core: &mut Core, txn: TxnId, call: Call) -> Result<(), Failed> {
    let outcome = core.ask(txn, call)?;
    check(matches!(outcome, Outcome::Granted { .. }))
}

/// Makes directories in a transaction, as many as `size` with three components.
fn fill(alloc: Global, core: &mut Core, txn: TxnId, size: u64) -> Result<(), Failed> {
    for index in 0..size {
        add(alloc, core, txn, Place::of(index))?;
    }
    Ok(())
}

/// Makes a directory, and those above it if it is the first in them.
fn add(alloc: Global, core: &mut Core, txn: TxnId, place: Place) -> Result<(), Failed> {
    for level in place.new_levels() {
        let path = place.path(alloc, *level)?;
        ask(core, txn, Call::Mkdir { path, mode: None })?;
    }
    Ok(())
}

/// Begins as many transactions at the top.
fn crowd(core: &mut Core, count: u64) -> Result<(), Failed> {
    for _ in 0..count {
        core.begin()?;
    }
    Ok(())
}

/// Begins subtransactions one after the other, and commits each.
fn pass(core: &mut Core, txn: TxnId, count: u64) -> Result<(), Failed> {
    for _ in 0..count {
        let child = core.sub(txn)?;
        core.commit(child)?;
    }
    Ok(())
}

/// Does a stage that takes paths, each time with another one.
fn repeat(
    alloc: Global,
    core: &mut Core,
    txn: TxnId,
    stage: Stage,
    count: u64,
    size: u64,
) -> Result<(), Failed> {
    for index in 0..count {
        let path = stage.path(alloc, index, size)?;
        stage.take(core, txn, path)?;
    }
    Ok(())
}

/// Does a stage `count` times, in a transaction of a core that has made `size` directories.
fn run_in(
    alloc: Global,
    core: &mut Core,
    stage: Stage,
    count: u64,
    size: u64,
) -> Result<u64, Failed> {
    if stage == Stage::Crowd {
        crowd(core, 10_000)?;
    }
    let txn = core.begin()?;
    fill(alloc, core, txn, size)?;
    match stage {
        Stage::Empty => pass(core, txn, count)?,
        _ => repeat(alloc, core, txn, stage, count, size)?,
    }
    if matches!(stage, Stage::Whole | Stage::Heap) {
        core.commit(txn)?;
        core.sweep();
    }
    Ok(count)
}

/// Does a stage `count` times, in a transaction of a new core that has made `size` directories.
pub fn run(alloc: Global, stage: Stage, count: u64, size: u64) -> Result<u64, Failed> {
    let mut core = Core::new(alloc)?;
    let done = run_in(alloc, &mut core, stage, count, size);
    // To drop the core is no part of an ask.
    mem::forget(core);
    done
}

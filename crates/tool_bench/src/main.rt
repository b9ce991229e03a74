//! The program `tool_bench`: `tool_bench WHAT COUNT SIZE` makes a tree of SIZE directories with
//! three components, by itself or through a core, or a table of SIZE locks, and then does COUNT
//! times WHAT to it. It is run under a tool that counts instructions: what one call takes is the
//! difference between two runs that differ in COUNT.
//!
//! `tool_bench views MAKES EVERY READS ASKS` makes MAKES directories through a lock, each in a
//! transaction of its own, and publishes what has committed after every EVERY of them; then a
//! reader stats the first one READS times, and a transaction asks for that ASKS times.
#![tactic(auto)]

mod counts;
mod failed;
mod growth;
mod locking;
mod measure;
mod paths;
mod stages;
mod views;

use counts::{ViewCounts, number};
use failed::Failed;
use locking::Asking;
use measure::Measure;
use stages::Stage;
use std::alloc::Global;
use std::env;
use std::io::Print;
use std::process::ExitCode;
use std::sync::Wait;

/// Runs a measure, and returns 0. Prints the reason and returns 1 if that fails.
fn main(rt: HostRuntime) -> ExitCode {
    let done = match words_given(&rt) {
        Ok(words) => measured(&rt, rt.alloc(), words.as_slice()),
        Err(failed) => Err(failed),
    };
    match done {
        Ok(()) => ExitCode::from(0),
        Err(failed) => {
            let _ = rt.eprint(failed.text());
            ExitCode::from(1)
        }
    }
}

/// Does what the words request, and prints a count: how often it went well, or of views how many
/// calls are published.
fn measured<R: Wait + Print>(rt: &R, alloc: Global, words: &[String]) -> Result<(), Failed> {
    if let Some((what, counts)) = words.split_first() {
        if what.as_str() == "views" {
            return views::run(rt, alloc, ViewCounts::read(counts)?);
        }
    }
    let [what, count, size] = words else {
        return Err(Failed::Usage);
    };
    let (count, size) = (number(count.as_str())?, number(size.as_str())?);
    let done = run(alloc, what.as_str(), count, size)?;
    let _ = println!(rt; "{what} {count} {size}: {done}");
    Ok(())
}

/// The words after the program's name.
fn words_given(rt: &HostRuntime) -> Result<Vec<String>, Failed> {
    match env::args(rt) {
        Ok(words) => Ok(words.skip(1).collect(rt.alloc())?),
        Err(_) => Err(Failed::Memory),
    }
}

/// Does what is measured `count` times, and returns how often it went well. Fails with the usage if
/// nothing has this name.
fn run(alloc: Global, what: &str, count: u64, size: u64) -> Result<u64, Failed> {
    if let Some(asking) = Asking::named(what) {
        return locking::run(alloc, asking, count, size);
    }
    if let Some(stage) = Stage::named(what) {
        return stages::run(alloc, stage, count, size);
    }
    let measure = Measure::named(what).ok_or(Failed::Usage)?;
    measure::run(alloc, measure, count, size)
}

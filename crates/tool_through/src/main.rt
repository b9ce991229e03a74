//! The program `tool_through`: it plays the script on standard input as `ft play` does, but
//! through a lock, request by request, and prints the same replies. `tool_through refusals`
//! publishes through a lock and makes requests to a core, and makes each refused step once more.
//!
//! A script that requests a checkpoint ends it, since there is none through a lock.
#![tactic(auto)]

mod locked;
mod playing;
mod publishing;
mod refusals;
mod requests;

use anyhow::Result;
use playing::play;
use std::env;
use std::io::Read;

/// Plays the script on standard input, and writes its replies to standard output. If the first word
/// is `refusals`, publishes and makes requests instead, and also prints what is refused. Other
/// words, such as a command of `ft`, are ignored.
fn main(rt: HostRuntime) -> Result<()> {
    let words: Vec<String> = env::args(&rt)?.skip(1).collect(rt.alloc())?;
    if words
        .first()
        .is_some_and(|word| word.as_str() == "refusals")
    {
        return refusals::run(&rt, rt.alloc());
    }
    let mut script = Vec::new(rt.alloc());
    rt.stdin().read_to_end(&mut script)?;
    play(&rt, rt.alloc(), script.as_slice(), &mut rt.stdout())
}

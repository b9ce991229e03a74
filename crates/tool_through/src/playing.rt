// A script, played through a lock.
use crate::locked::{execute, new_shared_core};
use anyhow::Result;
use ft_core::{Answer, Core, Request};
use ft_line::{AnswerText, Query, ScriptLine, WaitsText, reply_to};
use ft_names::{LineMeaning, NamedLine, Names, named_line};
use ft_script::write_out;
use ft_shared::Shared;
use std::alloc::Global;
use std::io::Write;
use std::marker::Brand;
use std::sync::Wait;
use std::thread::{self, Threads};

/// Plays a script, line by line, and writes the replies. Meanwhile another thread asks once which
/// transaction waits for which, which changes nothing.
pub fn play<R: Threads + Wait + Sync, W: Write>(
    rt: &R,
    alloc: Global,
    script: &[u8],
    writer: &mut W,
) -> Result<()> {
    let shared = new_shared_core(alloc)?;
    let (_, played) = thread::join(
        rt,
        || shared.waits(rt).is_ok(),
        || play_through(rt, alloc, &shared, script, writer),
    );
    shared.into_core(rt);
    played
}

/// Plays the lines of a script through the lock.
fn play_through<R: Wait, W: Write>(
    rt: &R,
    alloc: Global,
    shared: &Shared<Brand, Core>,
    script: &[u8],
    writer: &mut W,
) -> Result<()> {
    let lines: Vec<&[u8]> = script.split(|byte| *byte == b'\n').collect(alloc)?;
    let mut names = Names::new(alloc);
    for (place, line) in lines.iter().enumerate() {
        let before = &lines.as_slice()[..place];
        let reply = reply_through(rt, alloc, shared, &mut names, before, line)?;
        write_out(writer, reply.as_bytes())?;
    }
    Ok(())
}

/// Carries out one line, and gives the text of its reply.
fn reply_through<R: Wait>(
    rt: &R,
    alloc: Global,
    shared: &Shared<Brand, Core>,
    names: &mut Names,
    before: &[&[u8]],
    line: &[u8],
) -> Result<String> {
    let NamedLine { meaning, given } = named_line(alloc, line, names)?;
    match meaning {
        LineMeaning::Line(ScriptLine::Request(request)) => {
            let answer = execute_named(rt, alloc, shared, names, request, given)?;
            Ok(format!(in alloc; "{}\n", AnswerText(&answer))?)
        }
        LineMeaning::Line(ScriptLine::Query(Query::Waits)) => waits_reply(rt, alloc, shared),
        LineMeaning::Line(ScriptLine::Query(Query::Tree | Query::Locks | Query::Attributes)) => {
            let mut core = core_after(rt, alloc, before)?;
            Ok(reply_to(alloc, line, &mut core)?)
        }
        // These are the same on any core. (A transfer is a bad line, since there are no files.)
        LineMeaning::Line(ScriptLine::Silent | ScriptLine::Bad) | LineMeaning::Transfer(_) => {
            Ok(reply_to(alloc, line, &mut Core::new(alloc)?)?)
        }
    }
}

/// Carries out a request through the lock, and gives the name, if there is one, to its answer.
fn execute_named<R: Wait>(
    rt: &R,
    alloc: Global,
    shared: &Shared<Brand, Core>,
    names: &mut Names,
    request: Request,
    given: Option<&[u8]>,
) -> Result<Answer> {
    names.reserve(alloc, given)?;
    let answer = execute(rt, shared, request)?;
    names.give(given, &answer);
    Ok(answer)
}

/// The waits-for edges behind the lock.
fn waits_reply<R: Wait>(rt: &R, alloc: Global, shared: &Shared<Brand, Core>) -> Result<String> {
    let (edges, verdict) = shared.waits(rt)?;
    let text = WaitsText {
        edges: edges.as_slice(),
        verdict: &verdict,
    };
    Ok(format!(in alloc; "{text}\n")?)
}

/// A core that has come to the end of these lines through a lock of its own. While a core is
/// behind a lock, neither its tree nor its locks can be read, so they are read from this one.
fn core_after<R: Wait>(rt: &R, alloc: Global, lines: &[&[u8]]) -> Result<Core> {
    let shared = new_shared_core(alloc)?;
    let carried_out = carry_out_all(rt, alloc, &shared, lines);
    let core = shared.into_core(rt);
    carried_out?;
    Ok(core)
}

/// Carries out the requests of these lines through the lock.
fn carry_out_all<R: Wait>(
    rt: &R,
    alloc: Global,
    shared: &Shared<Brand, Core>,
    lines: &[&[u8]],
) -> Result<()> {
    let mut names = Names::new(alloc);
    for line in lines {
        carry_out(rt, alloc, shared, &mut names, line)?;
    }
    Ok(())
}

/// Carries out the request of a line through the lock, if it is one.
fn carry_out<R: Wait>(
    rt: &R,
    alloc: Global,
    shared: &Shared<Brand, Core>,
    names: &mut Names,
    line: &[u8],
) -> Result<()> {
    let NamedLine { meaning, given } = named_line(alloc, line, names)?;
    match meaning {
        LineMeaning::Line(ScriptLine::Request(request)) => {
            execute_named(rt, alloc, shared, names, request, given)?;
            Ok(())
        }
        LineMeaning::Line(_) | LineMeaning::Transfer(_) => Ok(()),
    }
}

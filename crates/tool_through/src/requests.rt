// Requests to a core, and its description before and after one that is refused.
use anyhow::{Result, bail};
use ft_base::Memory;
use ft_core::{Answer, Fault};
use ft_line::{AnswerText, LocksText, ScriptLine, WaitsText, parse_line};
use ft_record::Recorded;
use ft_waits::judged_edges;
use ft_words::{Lines, TreeText};
use std::alloc::Global;
use std::io::Print;
use test_scripts::Answers;

/// Transactions, a call that waits and one that is undone, and calls that take memory for names,
/// links, bytes, descriptors and locks.
const SCRIPT: &[u8] =
    b"begin\nbegin\n1 mkdir /d\n2 stat /d\nsub 1\n3 open rwc /d/f\n3 write 3 some%20bytes\n\
        3 rename /d/f /g\nundo 3\n3 link /d/f /h\ncommit 3\ncommit 1\nretry 2\n2 list /d\n\
        2 ftruncate 3 5000\n2 pread 3 8 4\nabort 2\ncheckpoint\nbegin\n4 unlink /h\ncommit 4\n";

/// Makes the requests, and prints the answer to each.
pub fn request_each<R: Print>(rt: &R, alloc: Global, mut core: Recorded) -> Result<()> {
    for line in Lines::of(SCRIPT) {
        let answer = answer_with_retry(rt, alloc, &mut core, line)?;
        println!(rt; "{}", AnswerText(&answer))?;
    }
    Ok(())
}

/// Returns the answer to a request. If there is no memory for it, it is made once more; but nothing
/// may have changed until then.
fn answer_with_retry<R: Print>(
    rt: &R,
    alloc: Global,
    core: &mut Recorded,
    line: &[u8],
) -> Result<Answer> {
    let before = state_text_with_retry(rt, alloc, core)?;
    let first = answer(alloc, core, line)?;
    if first != Answer::Refused(Fault::Memory) {
        return Ok(first);
    }
    if state_text(alloc, core)? != before {
        bail!("a request that was refused has changed something");
    }
    println!(rt; "refused: request")?;
    answer(alloc, core, line)
}

/// The answer to the request of a line.
fn answer(alloc: Global, core: &mut Recorded, line: &[u8]) -> Result<Answer> {
    match parse_line(alloc, line) {
        Ok(ScriptLine::Request(request)) => Ok(core.answer_to(request)),
        Ok(_) => bail!("the line asks for nothing"),
        Err(Memory) => Ok(Answer::Refused(Fault::Memory)),
    }
}

/// Returns the description of a core, if it is not refused twice.
fn state_text_with_retry<R: Print>(rt: &R, alloc: Global, core: &Recorded) -> Result<String> {
    match state_text(alloc, core) {
        Ok(text) => Ok(text),
        Err(_) => {
            println!(rt; "refused: look")?;
            state_text(alloc, core)
        }
    }
}

/// Describes how many events a core has had, how many calls wait, which transaction waits for
/// which, the locks, and the tree.
fn state_text(alloc: Global, core: &Recorded) -> Result<String> {
    let events = core.history().len();
    let asks = core.core().pending()?.len();
    let (edges, verdict) = judged_edges(core.core())?;
    let waits = WaitsText {
        edges: edges.as_slice(),
        verdict: &verdict,
    };
    let locks = core.core().lock_lines()?;
    let rows = core.tree().rows()?;
    let locks = LocksText(locks.as_slice());
    let tree = TreeText::of(alloc, rows.as_slice())?;
    Ok(format!(in alloc; "{events} {asks}\n{waits}\n{locks}\n{tree}\n")?)
}

// Runs a strict script: each line must do what it requests.
ghost use Rattle.std.specs.Prelude.{◌≡◌, ◌<◌, [], IfErr, IfOk, OnOk};
ghost use Rattle.ft_names.specs.Names.{moment};
ghost use Rattle.ft_script.specs.Gathering.{GathersStrictly, StopsGatheringFrom, WritesReply, StopsLastReply};
ghost use Rattle.ft_script.specs.Reading.{cut_line, to_read, unscanned};
ghost use Rattle.ft_script.specs.Runs.{PlaysStrictly, StopsStrictPlay};
ghost use Rattle.ft_strict.specs.Strict.{AnswersStrictly};

use crate::gathering::Script;
use crate::lines::ScriptLines;
use crate::playing::PlayFault;
use crate::writing::write_out;
use ft_base::Memory;
use ft_core::Core;
use ft_names::Names;
use ft_strict::strict_reply_to;
use ft_transfer::DiskFiles;
use std::alloc::Global;
use std::io::{Read, Write};

/// A line that did not do what it requests.
#[derive(Debug, PartialEq, Eq, Drop)]
pub struct FailedLine {
    /// Its number, from 1.
    pub number: u64,
    /// Its bytes, without its line feed.
    pub line: Vec<u8>,
    /// Its reply, with its line feed.
    pub reply: String,
}

/// Why `play_strictly` ended early.
#[derive(Debug, PartialEq, Eq, Drop)]
pub enum StrictFault {
    /// A fault of `play`. Lack of memory for a request, or for the contents of a report, is one
    /// too.
    Play(PlayFault),
    /// A line did not do what it requests.
    Line(FailedLine),
}

impl From<PlayFault> for StrictFault {
    ghost use Rattle.std.specs.Prelude.{◌≡◌};
    ghost use Rattle.ft_script.specs.declared.strictly.StrictFault.TheVariants.{Play};

    ghost from_gives = { λ fault made. made ≡ Play fault };

    fn from(fault: PlayFault) -> StrictFault {
        StrictFault::Play(fault)
    }
}

impl From<Memory> for StrictFault {
    ghost use Rattle.std.specs.Prelude.{◌≡◌};
    ghost use Rattle.ft_script.specs.declared.playing.PlayFault.TheVariants.{Memory};
    ghost use Rattle.ft_script.specs.declared.strictly.StrictFault.TheVariants.{Play};

    ghost from_gives = { λ _ made. made ≡ Play Memory };

    fn from(_error: Memory) -> StrictFault {
        StrictFault::Play(PlayFault::Memory)
    }
}

/// Runs a strict script as `play` runs a script, but up to the first line that does not do what it
/// requests: its reply is written, it is the fault, and no later line is taken.
///
/// These lines do not do what they request: a line that is not a valid request, a request that is
/// refused, fails or waits, a transfer that is not made, even if that is for lack of memory, and a
/// `tree` while a transaction is live, which is refused as `Live`. After `try `, a request, a
/// report or a transfer does not end the run. If there is no memory for a request, or for the
/// contents of a report, that is the fault.
pub fn play_strictly<R: Read, W: Write, F: DiskFiles>(
    alloc: Global,
    reader: &mut R,
    writer: &mut W,
    files: &F,
    core: &mut Core,
) -> Result<(), StrictFault>
    ensures ok { OnOk result (PlaysStrictly (F.tells files.now) R.remaining W.contents
        reader.old reader.new writer.old writer.new core.old core.new) }
    ensures fault { IfErr result (StopsStrictPlay (F.tells files.now) R.remaining W.contents
        reader.old reader.new writer.old writer.new core.old core.new) }
{
    let mut names = Names::new(alloc);
    let mut script = Script::new(alloc)?;
    while script.read_more(reader)? {
        let answered = answer_strictly(alloc, &mut script, &mut names, files, core);
        script.write_replies(writer)?;
        if let Some(reply) = answered? {
            return Err(StrictFault::Line(FailedLine {
                number: script.lines.count(),
                line: script.lines.into_line(),
                reply,
            }));
        }
    }
    if !script.lines.cut_last() {
        return Ok(());
    }
    play_last_strictly(alloc, script.lines, writer, &mut names, files, core)
}

/// Carries out the lines that were read, until enough replies are gathered, or up to the first line
/// that did not do what it requests. Returns the reply to that line, if there is one.
fn answer_strictly<F: DiskFiles>(
    alloc: Global,
    script: &mut Script,
    names: &mut Names,
    files: &F,
    core: &mut Core,
) -> Result<Option<String>, PlayFault>
    requires { script.old.replies.items ≡ [] }
    ensures ok { IfOk result
        (λ failed. GathersStrictly (F.tells files.now) failed script.old script.new
        (moment core.old names.old) (moment core.new names.new)) }
    ensures fault { IfErr result
        (λ fault. StopsGatheringFrom (AnswersStrictly (F.tells files.now)) fault script.old
        script.new (moment core.old names.old) (moment core.new names.new)) }
    ensures less { OnOk result (0 < unscanned script.old.lines
        → to_read script.new.lines < to_read script.old.lines) }
{
    while script.may_gather() && script.lines.cut()? {
        let reply = strict_reply_to(alloc, script.lines.line(), names, files, core)?;
        script.gather(reply.text.as_bytes())?;
        if !reply.goes_on {
            return Ok(Some(reply.text));
        }
    }
    Ok(None)
}

/// Carries out the last line, and writes its reply.
fn play_last_strictly<W: Write, F: DiskFiles>(
    alloc: Global,
    lines: ScriptLines,
    writer: &mut W,
    names: &mut Names,
    files: &F,
    core: &mut Core,
) -> Result<(), StrictFault>
    ensures ok { OnOk result (WritesReply (AnswersStrictly (F.tells files.now)) (cut_line lines)
        W.contents writer.old writer.new (moment core.old names.old)
        (moment core.new names.new)) }
    ensures fault { IfErr result
        (λ fault. StopsLastReply (F.tells files.now) fault lines W.contents writer.old writer.new
        (moment core.old names.old) (moment core.new names.new)) }
{
    let reply = strict_reply_to(alloc, lines.line(), names, files, core)?;
    write_out(writer, reply.text.as_bytes())?;
    if reply.goes_on {
        return Ok(());
    }
    Err(StrictFault::Line(FailedLine {
        number: lines.count(),
        line: lines.into_line(),
        reply: reply.text,
    }))
}

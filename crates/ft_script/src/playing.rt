// Runs a script: reads lines, carries them out, and writes the replies.
ghost use Rattle.std.specs.Prelude.{◌≡◌, ◌<◌, [], IfErr, OnOk};
ghost use Rattle.ft_names.specs.Names.{moment};
ghost use Rattle.ft_script.specs.Gathering.{GathersFrom, StopsGatheringFrom, WritesReply, StopsReply};
ghost use Rattle.ft_script.specs.Reading.{to_read, unscanned};
ghost use Rattle.ft_script.specs.Runs.{AnswersFreely, PlaysFreely, StopsFreePlay};

use crate::gathering::Script;
use crate::writing::write_out;
use ft_base::Memory;
use ft_core::Core;
use ft_names::{Names, reply_into};
use ft_transfer::DiskFiles;
use std::alloc::{AllocError, Global};
use std::io::{Read, Write};
use thiserror::Error;

/// The most reads that `play` makes.
pub const MOST_READS: u32 = 100_000_000;

/// The most bytes that a line may have, without its line feed.
pub const LONGEST_LINE: usize = 8_388_608;

/// Why `play` ended early.
#[derive(Clone, Copy, Debug, PartialEq, Eq, Error)]
pub enum PlayFault {
    /// There was no memory for a line or for a reply.
    #[error("Memory")]
    Memory = 1,
    /// A read failed.
    #[error("Read")]
    Read = 2,
    /// A write failed, was interrupted or took nothing.
    #[error("Write")]
    Write = 3,
    /// A line has more than `LONGEST_LINE` bytes.
    #[error("TooLong")]
    TooLong = 4,
    /// The script did not end within `MOST_READS` reads.
    #[error("Turns")]
    Turns = 5,
}

impl From<Memory> for PlayFault {
    ghost use Rattle.std.specs.Prelude.{◌≡◌};
    ghost use Rattle.ft_script.specs.declared.playing.PlayFault.TheVariants.{Memory};

    ghost from_gives = { λ _ fault. fault ≡ Memory };

    fn from(_error: Memory) -> PlayFault {
        PlayFault::Memory
    }
}

impl From<AllocError> for PlayFault {
    ghost use Rattle.std.specs.Prelude.{◌≡◌};
    ghost use Rattle.ft_script.specs.declared.playing.PlayFault.TheVariants.{Memory};

    ghost from_gives = { λ _ fault. fault ≡ Memory };

    fn from(_error: AllocError) -> PlayFault {
        PlayFault::Memory
    }
}

/// Runs the script that a reader gives, up to its end, and writes the replies. Its transfers read
/// and write these files of the disk.
///
/// The script is read in pieces of up to 65,536 bytes. All lines that have come whole are carried
/// out, and their replies are written together, before more is read. If they have 65,536 bytes or
/// more they are written before the next line is carried out. After each commit and abort that is
/// not refused, the core sweeps what it has released.
///
/// A fault ends the run early. Unless it is Write, all lines before the one at which it came were
/// taken, and their replies written whole; no later line was taken.
/// - Memory: there was none for a line or for the text of a reply. Nothing of that reply was
///   written. The line was carried out or not. (Lack of memory in a request or for the contents of
///   a report is a refusal, and is replied.)
/// - Read: a read failed. A line that had not ended was not taken.
/// - Write: a write failed, was interrupted or took nothing. A beginning of the replies that were
///   to be written together was written, or nothing; all lines to which they reply were carried
///   out. Without the last of them they have fewer than 65,536 bytes.
/// - TooLong: a line has more than `LONGEST_LINE` bytes. It was not taken.
/// - Turns: `MOST_READS` reads did not reach the end. An interrupted read counts, and is tried
///   again. A line that had not ended was not taken.
pub fn play<R: Read, W: Write, F: DiskFiles>(
    alloc: Global,
    reader: &mut R,
    writer: &mut W,
    files: &F,
    core: &mut Core,
) -> Result<(), PlayFault>
    ensures ok { OnOk result (PlaysFreely (F.tells files.now) R.remaining W.contents
        reader.old reader.new writer.old writer.new core.old core.new) }
    ensures fault { IfErr result (StopsFreePlay (F.tells files.now) R.remaining W.contents
        reader.old reader.new writer.old writer.new core.old core.new) }
{
    let mut names = Names::new(alloc);
    let mut script = Script::new(alloc)?;
    while script.read_more(reader)? {
        let answered = answer_lines(alloc, &mut script, &mut names, files, core);
        script.write_replies(writer)?;
        answered?;
    }
    if !script.lines.cut_last() {
        return Ok(());
    }
    play_last(alloc, script.lines.line(), writer, &mut names, files, core)
}

/// Carries out the lines that were read, until enough replies are gathered.
fn answer_lines<F: DiskFiles>(
    alloc: Global,
    script: &mut Script,
    names: &mut Names,
    files: &F,
    core: &mut Core,
) -> Result<(), PlayFault>
    requires { script.old.replies.items ≡ [] }
    ensures ok { OnOk result
        (GathersFrom (AnswersFreely (F.tells files.now)) script.old script.new
        (moment core.old names.old) (moment core.new names.new)) }
    ensures fault { IfErr result
        (λ fault. StopsGatheringFrom (AnswersFreely (F.tells files.now)) fault script.old
        script.new (moment core.old names.old) (moment core.new names.new)) }
    ensures less { OnOk result (0 < unscanned script.old.lines
        → to_read script.new.lines < to_read script.old.lines) }
{
    let mut reply = String::new(alloc);
    while script.may_gather() && script.lines.cut()? {
        reply_into(alloc, script.lines.line(), names, files, core, &mut reply)?;
        script.gather(reply.as_bytes())?;
    }
    Ok(())
}

/// Carries out the last line, and writes its reply.
fn play_last<W: Write, F: DiskFiles>(
    alloc: Global,
    line: &[u8],
    writer: &mut W,
    names: &mut Names,
    files: &F,
    core: &mut Core,
) -> Result<(), PlayFault>
    ensures ok { OnOk result (WritesReply (AnswersFreely (F.tells files.now)) line.now
        W.contents writer.old writer.new (moment core.old names.old)
        (moment core.new names.new)) }
    ensures fault { IfErr result
        (λ fault. StopsReply (AnswersFreely (F.tells files.now)) fault line.now
        W.contents writer.old writer.new (moment core.old names.old)
        (moment core.new names.new)) }
{
    let mut reply = String::new(alloc);
    reply_into(alloc, line, names, files, core, &mut reply)?;
    write_out(writer, reply.as_bytes())
}

// The status that a strict script ends with.
ghost use Rattle.std.specs.Prelude.{◌≡◌, ◌⊎◌, IfOk};
ghost use Rattle.std.specs.Io.KnownBytes.{Keeps};
ghost use Rattle.ft_run.specs.FaultLines.{TellsLine, shown_of, strict_line};
ghost use Rattle.ft_strict.specs.Strict.{AnswersStrictly};
ghost use Rattle.ft_run.specs.Statuses.{PlaysToEnd, FailsToPlay, FailsAtLine};

use crate::faults::fault_line;
use crate::status::report_fault;
use ft_core::Core;
use ft_script::{FailedLine, PlayFault, StrictFault, play_strictly, write_out};
use ft_transfer::DiskFiles;
use std::alloc::{AllocError, Global};
use std::io::{Read, Write};

/// How many bytes of a line are shown.
const LONGEST_SHOWN: usize = 200;

/// Runs a strict script on a core, and returns the status to end with: 0; 1 after a fault of
/// reading, writing or memory; or 3 after the first line that did not do what it requests. A line
/// on `errors` reports either. If that can't be written, the status is the same.
pub fn play_strictly_status<R: Read, W: Write, F: DiskFiles, E: Write>(
    alloc: Global,
    core: Core,
    reader: &mut R,
    writer: &mut W,
    files: &F,
    errors: &mut E,
) -> u8
    ensures status { (result ≡ 0) ⊎ (result ≡ 1) ⊎ (result ≡ 3) }
    ensures quiet { result ≡ 0 → Keeps (E.contents errors.old) (E.contents errors.new) }
    ensures ok { result ≡ 0 → PlaysToEnd (AnswersStrictly (F.tells files.now))
        R.remaining W.contents reader.old reader.new writer.old writer.new core.state }
    ensures fault { result ≡ 1 → FailsToPlay (AnswersStrictly (F.tells files.now))
        R.remaining W.contents E.contents
        reader.old reader.new writer.old writer.new errors.old errors.new core.state }
    ensures failed { result ≡ 3 → FailsAtLine (F.tells files.now)
        R.remaining W.contents E.contents
        reader.old reader.new writer.old writer.new errors.old errors.new core.state }
{
    let mut core = core;
    match play_strictly(alloc, reader, writer, files, &mut core) {
        Ok(()) => 0,
        Err(StrictFault::Play(fault)) => report_fault(errors, fault_line(fault)),
        Err(StrictFault::Line(line)) => report_line(alloc, errors, &line),
    }
}

/// Reports which line did not do what it requests, and returns the status to end with. If there is
/// not enough memory for that, that is reported.
fn report_line<E: Write>(alloc: Global, errors: &mut E, failed: &FailedLine) -> u8
    ensures status { result ≡ 3 }
    ensures line { TellsLine (E.contents errors.old) (E.contents errors.new)
        (strict_line failed.now) }
{
    let _ = match strict_line(alloc, failed) {
        Ok(text) => write_out(errors, text.as_slice()),
        Err(_) => write_out(errors, fault_line(PlayFault::Memory).as_bytes()),
    };
    3
}

/// Returns the line that reports a failed line.
fn strict_line(alloc: Global, failed: &FailedLine) -> Result<Vec<u8>, AllocError>
    ensures { IfOk result (λ text. text.items ≡ strict_line failed.now) }
{
    let number = format!(in alloc; "fault: Strict {}: ", failed.number)?;
    let mut text = Vec::new(alloc);
    text.extend_from_slice(number.as_bytes())?;
    text.extend_from_slice(shown(failed.line.as_slice()))?;
    text.extend_from_slice(b" = ".as_slice())?;
    text.extend_from_slice(failed.reply.as_bytes())?;
    Ok(text)
}

/// Returns a line as it is shown: without the one carriage return at its end, and cut if it is
/// long.
fn shown(line: &[u8]) -> &[u8]
    ensures { result.now ≡ shown_of line.now }
{
    let line = line.strip_suffix(b"\r".as_slice()).unwrap_or(line);
    &line[..line.len().min(LONGEST_SHOWN)]
}

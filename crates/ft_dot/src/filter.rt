// The filter: reads replies, and draws the last report among them.
ghost use Rattle.std.specs.Prelude.{◌≡◌, ◌⊎◌, OnOk, IfOk, IfErr, string_bytes, []};
ghost use Rattle.std.specs.Io.KnownBytes.{IsAtEnd};
ghost use Rattle.ft_words.specs.Spelling.{lines_of};
ghost use Rattle.ft_dot.specs.Drawing.{dot_of};
ghost use Rattle.ft_dot.specs.Drawn.{Draws, StopsDraw, ReadsInto};

use crate::drawing::Digraph;
use crate::reading::last_report;
use ft_base::Memory;
use ft_script::{PlayFault, write_out};
use ft_words::Lines;
use std::alloc::Global;
use std::io;
use std::io::{ErrorKind, Read, Write};

/// Reads replies, as `play` writes them, to their end, and writes the last report among them of
/// which transaction waits for which as a digraph in the DOT language; if there is none, an empty
/// digraph.
///
/// Each transaction of a cycle is red, any other has its rank in its label. An edge for a lock is
/// drawn whole, and one to a child in dashes. Lines may have any bytes and any length.
///
/// A fault is one of these.
/// - Memory: there was none for the replies, the report or its drawing. Nothing was written.
/// - Read: a read failed. Nothing was written. An interrupted read is tried again.
/// - Write: a write failed, was interrupted or took nothing. A part of the drawing was written.
pub fn draw<R: Read, W: Write>(
    alloc: Global,
    reader: &mut R,
    writer: &mut W,
) -> Result<(), PlayFault>
    ensures ok { OnOk result (Draws (R.remaining reader.old) (R.remaining reader.new)
        (W.contents writer.old) (W.contents writer.new)) }
    ensures fault { IfErr result (StopsDraw R.remaining W.contents reader.old reader.new
        writer.old writer.new) }
{
    let mut replies = Vec::new(alloc);
    read_all(reader, &mut replies)?;
    let text = drawing_of(alloc, replies.as_slice())?;
    write_out(writer, text.as_bytes())
}

/// Reads all that a reader has left. A fault is Memory or Read. An interrupted read is tried again.
pub fn read_all<R: Read>(reader: &mut R, replies: &mut Vec<u8>) -> Result<(), PlayFault>
    requires { replies.old.items ≡ [] }
    ensures bytes { ReadsInto (R.remaining reader.old) (R.remaining reader.new) result
        replies.new.items }
    ensures end { OnOk result (IsAtEnd (R.remaining reader.new)) }
    ensures cause { IfErr result (λ fault. (fault ≡ PlayFault.Memory) ⊎ (fault ≡ PlayFault.Read)) }
{
    match reader.read_to_end(replies) {
        Ok(_) => Ok(()),
        Err(error) => Err(fault_of(&error)),
    }
}

/// Returns the fault of a failed read.
fn fault_of(error: &io::Error) -> PlayFault
    ensures { (result ≡ PlayFault.Memory) ⊎ (result ≡ PlayFault.Read) }
{
    if error.kind() == ErrorKind::OutOfMemory {
        PlayFault::Memory
    } else {
        PlayFault::Read
    }
}

/// Returns the drawing of the last report among replies.
fn drawing_of(alloc: Global, replies: &[u8]) -> Result<String, Memory>
    ensures { IfOk result (λ text. string_bytes text ≡ dot_of (lines_of replies.now)) }
{
    let report = last_report(alloc, Lines::of(replies))?;
    Ok(format!(in alloc; "{}", Digraph(report.as_ref()))?)
}

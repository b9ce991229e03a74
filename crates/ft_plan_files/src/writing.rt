// A plan in which steps stand in place of the lines that carry files of the disk.
ghost use Rattle.std.specs.Prelude.{◌≡◌, ◌≢◌, ◌<◌, ◌≤◌, ◌↔◌, length, IfOk, IfErr, IsErrOf, OnOk, string_bytes};
ghost use Rattle.ft_transfer.specs.Disk.{Fails};
ghost use Rattle.ft_plan_files.specs.WrittenOut.{AreStepsOf, IsNotWrittenOut, IsUnreadable, IsWrittenOut};
ghost use Rattle.ft_plan_files.specs.Writing.{PutsLine};

use crate::fault::PlanFileFault;
use crate::file_line::{FileLine, file_line_in};
use crate::steps::{GetText, PutText};
use ft_names::without_return;
use ft_transfer::{Direction, DiskFiles};
use ft_words::split_once;
use std::alloc::Global;

/// The most bytes of the file of a plan.
pub const LONGEST_PLAN: usize = 8_388_608;

/// Returns a plan in which steps stand in place of the lines that carry files of the disk. Reads
/// the files that it puts, in the order of their lines.
///
/// Fails if the file of the plan has more than 8,388,608 bytes, if one of the files that it puts
/// can't be read, or if there is not enough memory.
pub fn written_out<F: DiskFiles>(
    alloc: Global,
    text: &[u8],
    files: &F,
) -> Result<Vec<u8>, PlanFileFault>
    ensures ok { IfOk result (λ made. IsWrittenOut (F.tells files.now) text.now made.items) }
    ensures short { OnOk result (length text.now ≤ LONGEST_PLAN) }
    ensures long { IsErrOf result PlanFileFault.TooLong ↔ (LONGEST_PLAN < length text.now) }
    ensures unread { IsErrOf result PlanFileFault.Read
        → IsNotWrittenOut (F.tells files.now) text.now }
{
    if text.len() > LONGEST_PLAN {
        return Err(PlanFileFault::TooLong);
    }
    write_lines(alloc, text, files)
}

/// Writes out the lines of a plan.
fn write_lines<F: DiskFiles>(
    alloc: Global,
    text: &[u8],
    files: &F,
) -> Result<Vec<u8>, PlanFileFault>
    ensures ok { IfOk result (λ made. IsWrittenOut (F.tells files.now) text.now made.items) }
    ensures unread { IsErrOf result PlanFileFault.Read
        → IsNotWrittenOut (F.tells files.now) text.now }
    ensures cause { IfErr result (λ fault. fault ≢ PlanFileFault.TooLong) }
{
    let mut made = Vec::new(alloc);
    let mut rest = text;
    while let Some((line, more)) = split_once(b'\n', rest) {
        put_line(alloc, &mut made, line, files)?;
        made.extend_from_slice(b"\n".as_slice())?;
        rest = more;
    }
    put_line(alloc, &mut made, rest, files)?;
    Ok(made)
}

/// Puts a line, or the steps for which it stands.
fn put_line<F: DiskFiles>(
    alloc: Global,
    made: &mut Vec<u8>,
    line: &[u8],
    files: &F,
) -> Result<(), PlanFileFault>
    ensures ok { OnOk result (PutsLine (F.tells files.now) line.now made.old.items made.new.items) }
    ensures unread { IsErrOf result PlanFileFault.Read → IsUnreadable (F.tells files.now) line.now }
    ensures cause { IfErr result (λ fault. fault ≢ PlanFileFault.TooLong) }
{
    let text = without_return(line);
    match file_line_in(alloc, text)? {
        None => made.extend_from_slice(line)?,
        Some(carrying) => {
            let steps = steps_of(alloc, &carrying, files)?;
            made.extend_from_slice(steps.as_bytes())?;
            made.extend_from_slice(&line[text.len()..])?;
        }
    }
    Ok(())
}

/// Returns the steps for which a line stands that carries a file. Reads the file that it puts.
fn steps_of<F: DiskFiles>(
    alloc: Global,
    line: &FileLine,
    files: &F,
) -> Result<String, PlanFileFault>
    ensures ok { IfOk result
        (λ steps. AreStepsOf (F.tells files.now) line.now (string_bytes steps)) }
    ensures unread { IsErrOf result PlanFileFault.Read
        → (line.now.direction ≡ Direction.Put) × F.tells files.now (Fails line.now.file) }
    ensures cause { IfErr result (λ fault. fault ≢ PlanFileFault.TooLong) }
{
    let tried = line.tried;
    let path = line.path.as_bytes();
    match line.direction {
        Direction::Put => {
            let bytes = files.read_file(line.file.as_bytes())?;
            let bytes = bytes.as_slice();
            Ok(format!(in alloc; "{}", PutText { tried, path, bytes })?)
        }
        Direction::Get => Ok(format!(in alloc; "{}", GetText { tried, path })?),
    }
}

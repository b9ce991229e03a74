// The part of a script that is read before it is played.
ghost use Rattle.std.specs.Prelude.{◌≡◌, IfOk, true};
ghost use Rattle.std.specs.Io.KnownBytes.{Consumes};
ghost use Rattle.ft_needs.specs.Fronts.{HasLine, IsFront};
ghost use Rattle.ft_needs.specs.Lines.{raised_for};

use crate::line::raised_for;
use ft_core::Limits;
use ft_words::split_once;
use std::alloc::Global;
use std::io::{self, ErrorKind, Read};

/// How many bytes of a line are looked at for what a script needs, or a few more.
pub const LONGEST_NEEDS: usize = 4_096;

/// How many bytes are read at once.
const PIECE: usize = 512;

/// The most reads that are made.
const MOST_READS: u32 = 100_000_000;

/// Returns the limits that are at least these, and at least those that a script needs by its first
/// line, and the front of the script, which was read for it: its first line and maybe more. If the
/// line is longer than `LONGEST_NEEDS`, the front is as much of it.
///
/// Nothing is read after a line that has come whole. The error is `OutOfMemory`, that of a read
/// that failed, or `Interrupted` if too many were.
pub fn limits_for<R: Read>(
    alloc: Global,
    limits: Limits,
    script: &mut R,
) -> io::Result<(Limits, Vec<u8>)>
    ensures limits { IfOk result (λ begun. begun.0 ≡ raised_for limits begun.1.items) }
    ensures read { IfOk result
        (λ begun. Consumes (R.remaining script.old) (R.remaining script.new) begun.1.items) }
    ensures front { IfOk result (λ begun. IsFront begun.1.items (R.remaining script.new)) }
{
    let front = front_of(alloc, script)?;
    let limits = raised_for(limits, front.as_slice());
    Ok((limits, front))
}

/// Reads the front of a script, and returns it.
fn front_of<R: Read>(alloc: Global, script: &mut R) -> io::Result<Vec<u8>>
    ensures read { IfOk result
        (λ front. Consumes (R.remaining script.old) (R.remaining script.new) front.items) }
    ensures front { IfOk result (λ front. IsFront front.items (R.remaining script.new)) }
{
    let mut front = Vec::new(alloc);
    let mut piece = [0; PIECE];
    for _ in 0..MOST_READS {
        if front.len() >= LONGEST_NEEDS || has_line(front.as_slice()) {
            return Ok(front);
        }
        match script.read(&mut piece) {
            Ok(0) => return Ok(front),
            Ok(count) => front.extend_from_slice(&piece[..count])?,
            Err(error) if error.kind() == ErrorKind::Interrupted => {}
            Err(error) => return Err(error),
        }
    }
    Err(io::Error::from(ErrorKind::Interrupted))
}

/// Returns whether the first line of a text has its line feed.
fn has_line(text: &[u8]) -> bool
    ensures { result ≡ true → HasLine text.now }
{
    split_once(b'\n', text).is_some()
}

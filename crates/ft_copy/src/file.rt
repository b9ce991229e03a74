// The copy of a file, piece by piece.
ghost use Rattle.std.specs.Prelude.{◌≡◌, ◌⊎◌, ◌≤◌, take, vec_len, length, OnOk, IfErr, IfOk};
ghost use Rattle.std.specs.Io.{ReadsAtMost};
ghost use Rattle.std.specs.Io.KnownBytes.{Consumes, IsAtEnd};
ghost use Rattle.ft_copy.specs.Asked.{Piece};
ghost use Rattle.ft_copy.specs.declared.found.Found.TheVariants.{File};
ghost use Rattle.ft_copy.specs.Runs.{CopiesFound, Pours};
ghost use Rattle.ft_copy.specs.Stops.{StopsPouring, StopsVisit};
ghost use Rattle.ft_copy.specs.Told.{Finds};
ghost use Rattle.ft_copy.specs.Walks.{Standing};

use crate::copy_fault::CopyFault;
use crate::found::{CopyPath, FoundFile};
use crate::limits::CopyLimits;
use crate::source::Source;
use crate::target::Target;
use std::alloc::{AllocError, Global};
use std::io::{ErrorKind, Read};

/// The most bytes of a piece in which a file is copied.
pub const PIECE: usize = 65_536;

/// Copies this file. It is refused if it turns out to have more bytes than the limits allow.
pub(crate) fn copy_file<S: Source, T: Target>(
    alloc: Global,
    limits: CopyLimits,
    source: &S,
    target: &mut T,
    place: &CopyPath,
    file: &FoundFile,
) -> Result<(), CopyFault>
    ensures ok { OnOk result
        (CopiesFound limits (S.tells source.now) T.does place.now file.now target.old
        target.new) }
    ensures err { (walk : Standing)
        → S.tells source.now (Finds place.now.path place.now.node (File file.now))
        → IfErr result (λ trouble. StopsVisit limits (S.tells source.now) T.does T.fails trouble
        place.now walk target.old target.new) }
{
    let path = place.path.as_slice();
    let given = limits.kept_given(file.given);
    let mut opened = source.open(path, place.node)?;
    if !opened.id.is(file.facts.id) {
        return Err(CopyFault::Read);
    }
    target.open(path, given.attributes)?;
    pour(alloc, limits.file_size, &mut opened.file, target)?;
    target.close(given.time)
}

/// Appends all that a reader has left to the open file. More than `most` bytes are refused.
fn pour<R: Read, T: Target>(
    alloc: Global,
    most: u64,
    file: &mut R,
    target: &mut T,
) -> Result<(), CopyFault>
    ensures ok { OnOk result (Pours T.does most (R.remaining file.old) target.old target.new) }
    ensures err { IfErr result
        (λ trouble. StopsPouring T.does T.fails most trouble (R.remaining file.old) target.old
        target.new) }
{
    let mut room = room_for_piece(alloc)?;
    let piece = room.as_mut_slice();
    let mut left = most as usize;
    loop {
        let count = read_piece(file, piece)?;
        if count == 0 {
            return Ok(());
        }
        if count > left {
            return Err(CopyFault::TooLarge);
        }
        left -= count;
        target.piece(&piece[..count])?;
    }
}

/// Returns room for the bytes of one read.
fn room_for_piece(alloc: Global) -> Result<Vec<u8>, AllocError>
    ensures { IfOk result (λ room. vec_len room ≡ PIECE) }
{
    vec![in alloc; 0; PIECE]
}

/// Reads once, and returns the number of bytes. Out of memory is a fault of its own.
pub fn read_piece<R: Read>(file: &mut R, piece: &mut [u8]) -> Result<usize, CopyFault>
    ensures bound { ReadsAtMost result piece.new }
    ensures bytes { IfOk result
        (λ n. Consumes (R.remaining file.old) (R.remaining file.new) (take n piece.new)) }
    ensures cause { IfErr result
        (λ trouble. (trouble ≡ CopyFault.Memory) ⊎ (trouble ≡ CopyFault.Read)) }
    ensures end { IfOk result (λ n. n ≡ 0 → 1 ≤ length piece.old → IsAtEnd (R.remaining file.new)) }
{
    match file.read(piece) {
        Ok(count) => Ok(count),
        Err(error) if error.kind() == ErrorKind::OutOfMemory => Err(CopyFault::Memory),
        Err(_) => Err(CopyFault::Read),
    }
}

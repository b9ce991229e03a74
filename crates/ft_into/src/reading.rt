// How the bytes of a file are compared.
ghost use Rattle.std.specs.Prelude.{◌<◌, length, IfOk, IsFalse, IsTrue};
ghost use Rattle.std.specs.Io.KnownBytes.{Consumes, IsAtEnd};
ghost use Rattle.ft_into.specs.Compares.{AreOthers, HasMore};

use ft_copy::{CopyFault, read_piece};
use std::io::Read;

/// Returns whether these bytes are next in a file. It is read so far, or up to where it has others.
pub(crate) fn goes_on<R: Read>(
    file: &mut R,
    bytes: &[u8],
    room: &mut [u8],
) -> Result<bool, CopyFault>
    requires { 0 < length room.old }
    ensures yes { IfOk result (λ goes_on. IsTrue goes_on
        → Consumes (R.remaining file.old) (R.remaining file.new) bytes.now) }
    ensures no { IfOk result (λ goes_on. IsFalse goes_on
        → AreOthers (R.remaining file.old) bytes.now) }
{
    let mut rest = bytes;
    while !rest.is_empty() {
        let most = rest.len().min(room.len());
        let piece = &mut room[..most];
        let count = read_piece(file, piece)?;
        if count == 0 {
            return Ok(false);
        }
        if piece[..count] != rest[..count] {
            return Ok(false);
        }
        rest = &rest[count..];
    }
    Ok(true)
}

/// Returns whether nothing is left in a file.
pub(crate) fn is_over<R: Read>(file: &mut R) -> Result<bool, CopyFault>
    ensures yes { IfOk result (λ over. IsTrue over → IsAtEnd (R.remaining file.old)) }
    ensures no { IfOk result (λ over. IsFalse over → HasMore (R.remaining file.old)) }
{
    let mut room = [0; 1];
    Ok(read_piece(file, &mut room)? == 0)
}

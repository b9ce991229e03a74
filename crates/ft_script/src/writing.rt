// Texts that are written out.
ghost use Rattle.std.specs.Prelude.{◌≡◌, OnOk, OnErr, IfErr};
ghost use Rattle.std.specs.Io.KnownBytes.{Appends};
ghost use Rattle.ft_script.specs.Runs.{WritesPart};

use crate::playing::PlayFault;
use std::io::Write;

/// Writes bytes, all of them or a front.
pub fn write_out<W: Write>(writer: &mut W, bytes: &[u8]) -> Result<(), PlayFault>
    ensures ok { OnOk result (Appends (W.contents writer.old) (W.contents writer.new) bytes.now) }
    ensures err { OnErr result
        (WritesPart (W.contents writer.old) (W.contents writer.new) bytes.now) }
    ensures cause { IfErr result (λ fault. fault ≡ PlayFault.Write) }
{
    let mut rest = bytes;
    while !rest.is_empty() {
        match writer.write(rest) {
            Ok(0) | Err(_) => return Err(PlayFault::Write),
            Ok(count) => rest = &rest[count..],
        }
    }
    Ok(())
}

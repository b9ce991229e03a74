// The names that a source reports.
ghost use Rattle.std.specs.Prelude.{◌≡◌, ◌⊎◌, IfErr, IfOk};
ghost use Rattle.ft_path.specs.Name.{IsName};

use crate::copy_fault::CopyFault;
use ft_path::{LONGEST_NAME, Name};
use std::alloc::Global;

/// Returns the name that has these bytes. Fails with `BadName` if they cannot be a name: there are
/// none or too many, or a null byte or a slash is among them.
pub fn name_of(alloc: Global, bytes: &[u8]) -> Result<Name, CopyFault>
    ensures ok { IfOk result (λ name. name ≡ bytes.now) }
    ensures err { IfErr result
        (λ trouble. (trouble ≡ CopyFault.Memory) ⊎ ((trouble ≡ CopyFault.BadName)
        × ¬ IsName bytes.now)) }
{
    if bytes.is_empty()
        || bytes.len() > LONGEST_NAME
        || bytes.contains(&0)
        || bytes.contains(&b'/')
    {
        return Err(CopyFault::BadName);
    }
    Ok(Name::from_bytes(alloc, bytes)?)
}

// What a call needs an open descriptor for.
ghost use Rattle.std.specs.Prelude.{◌≡◌};
ghost use Rattle.ft_calls.specs.Opened.{is_open_for, open_for, Opens};

use ft_looks::Look;
use ft_path::Errno;
use ft_posix::CallError;
use ft_tree::OpenFile;

/// The purpose for which a call needs an open descriptor.
#[derive(Clone, Copy)]
pub(crate) enum Purpose {
    /// Neither reading nor writing: each open descriptor will do.
    Any,
    /// Reading.
    Reading,
    /// Writing.
    Writing,
}

impl Purpose {
    /// Returns whether a description is open for the purpose.
    fn is_met_by(self, description: OpenFile) -> bool
        ensures { result ≡ is_open_for self description }
    {
        match self {
            Purpose::Any => true,
            Purpose::Reading => description.access.can_read(),
            Purpose::Writing => description.access.can_write(),
        }
    }
}

/// Returns the open file description of a descriptor. Fails with EBADF if the descriptor is not
/// open for the purpose.
pub(crate) fn open_for(
    look: &mut Look<'_>,
    fd: u64,
    purpose: Purpose,
) -> Result<OpenFile, CallError>
    ensures { Opens look.old (open_for fd (is_open_for purpose)) look.new result }
{
    match look.open_file(fd)? {
        Some(description) if purpose.is_met_by(description) => Ok(description),
        _ => Err(CallError::Errno(Errno::EBADF)),
    }
}

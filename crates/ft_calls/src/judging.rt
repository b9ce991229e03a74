// The text of a path and the arguments of a call, judged before anything is looked at.
ghost use Rattle.std.specs.Prelude.{◌≡◌};
ghost use Rattle.ft_path.specs.FilePath.{parts_of};
ghost use Rattle.ft_posix.specs.Attributes.{mode_fault, time_fault};
ghost use Rattle.ft_posix.specs.Computes.{Resolves};
ghost use Rattle.ft_calls.specs.Judged.{judged};

use ft_looks::{Look, text_parts};
use ft_path::{Errno, FilePath};
use ft_posix::CallError;
use ft_tree::{MOST_MODE, MOST_NANOSECONDS, PathEnd, Timestamp};
use std::alloc::Global;

/// Returns where a path leads, through a last symbolic link if that is to be followed. The fault of
/// its text comes first, then that of the arguments, if they have one, and then that of the
/// look-up.
pub(crate) fn find_spot(
    alloc: Global,
    look: &mut Look<'_>,
    follow: bool,
    path: &FilePath,
    fault: Option<Errno>,
) -> Result<PathEnd, CallError>
    ensures { Resolves look.old (judged fault follow (parts_of path.now)) look.new result }
{
    let parts = text_parts(path)?;
    if let Some(errno) = fault {
        return Err(CallError::Errno(errno));
    }
    look.walk(alloc, follow, &parts)
}

/// Returns the fault of a mode, if one is given and has a fault.
pub(crate) fn mode_fault(mode: Option<u16>) -> Option<Errno>
    ensures { result ≡ mode_fault mode }
{
    match mode {
        Some(mode) if mode > MOST_MODE => Some(Errno::EINVAL),
        _ => None,
    }
}

/// Returns the fault of a time, if there is one.
pub(crate) fn time_fault(time: Timestamp) -> Option<Errno>
    ensures { result ≡ time_fault time }
{
    if time.nanoseconds > MOST_NANOSECONDS {
        return Some(Errno::EINVAL);
    }
    None
}

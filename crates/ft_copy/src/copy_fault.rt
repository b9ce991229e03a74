// Why a copy was not made.
use ft_base::{Memory, Sequence};
use std::alloc::{AllocError, AllocFailed};
use thiserror::Error;

/// Why a copy was not made.
#[derive(Clone, Copy, Debug, PartialEq, Eq, Error)]
pub enum CopyFault {
    /// There was not enough memory.
    #[error("Memory")]
    Memory,
    /// The source could not be read.
    #[error("Read")]
    Read,
    /// The target could not be written.
    #[error("Write")]
    Write,
    /// There is a device, a FIFO or a socket.
    #[error("Special")]
    Special,
    /// A file has more bytes than a file may have.
    #[error("TooLarge")]
    TooLarge,
    /// A file or a symbolic link has more names than one may have.
    #[error("TooManyLinks")]
    TooManyLinks,
    /// A path has more bytes than a path may have.
    #[error("PathTooLong")]
    PathTooLong,
    /// A tree cannot have this name, or the target cannot make it.
    #[error("BadName")]
    BadName,
    /// The source does not describe a tree: a directory has two names, or a name leads to nothing.
    #[error("BadTree")]
    BadTree,
    /// Something that is to be made already exists.
    #[error("Exists")]
    Exists,
    /// There are more calls than a core grants between two checkpoints.
    #[error("Full")]
    Full,
}

/// Why a copy was not made, and at which path. The path is empty at the root, before the first file
/// and after the last.
///
/// The trouble is the fault of the source, if it could not give a report, or of the target, if it
/// failed. Otherwise it is:
///
/// - Memory: there was not enough, at any time;
/// - Special: the source reported something special that is not to be left out;
/// - TooLarge, TooManyLinks: a file is over the limit, by what was reported or read;
/// - BadTree: the source reported something at the root that is no directory;
/// - PathTooLong: the path has more than 4,095 bytes; BadName: its last name is `.` or `..`;
/// - Read: a file that was opened could not be read, or another was listed, opened or read;
/// - Full: 2^64 - 1 places were visited.
#[derive(Debug, PartialEq, Eq, Drop)]
pub struct CopyStop {
    pub trouble: CopyFault,
    pub path: Sequence<u8>,
}

impl From<Memory> for CopyFault {
    ghost use Rattle.std.specs.Prelude.{◌≡◌};
    ghost use Rattle.ft_copy.specs.declared.copy_fault.CopyFault.TheVariants.{Memory};

    ghost from_gives = { λ _ trouble. trouble ≡ Memory };

    /// Returns `CopyFault::Memory`.
    fn from(_error: Memory) -> CopyFault {
        CopyFault::Memory
    }
}

impl From<AllocError> for CopyFault {
    ghost use Rattle.std.specs.Prelude.{◌≡◌};
    ghost use Rattle.ft_copy.specs.declared.copy_fault.CopyFault.TheVariants.{Memory};

    ghost from_gives = { λ _ trouble. trouble ≡ Memory };

    /// Returns `CopyFault::Memory`.
    fn from(_error: AllocError) -> CopyFault {
        CopyFault::Memory
    }
}

impl<T: Drop> From<AllocFailed<T>> for CopyFault {
    ghost use Rattle.std.specs.Prelude.{◌≡◌};
    ghost use Rattle.ft_copy.specs.declared.copy_fault.CopyFault.TheVariants.{Memory};

    ghost from_gives = { λ _ trouble. trouble ≡ Memory };

    /// Returns `CopyFault::Memory`.
    fn from(_error: AllocFailed<T>) -> CopyFault {
        CopyFault::Memory
    }
}

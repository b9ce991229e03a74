// The requests to a source.
ghost use Rattle.std.specs.Prelude.{IfErr, IfOk, IsFalse, IsTrue, ℕ};

use crate::copy_fault::CopyFault;
use crate::found::{Found, Leading, Listing, Opened};
use std::io::Read;

/// A description of a tree of directories.
///
/// A place in it is given by its path, and by the number that the source gave with its name. The
/// thing that is listed, opened or read there may differ from the one found there before. Each
/// reply therefore names the file that it is of.
pub trait Source {
    ghost use Rattle.ft_copy.specs.Told.{Told, Lists, Finds, Holds, Leads, Omits, Keeps, Refuses};

    /// A file that is open for reading.
    type File: Read + Drop;

    /// The reports of the source. By default they are not stated, as for a disk to which others may
    /// write.
    ghost tells: { Self → Told → Type 0 } = { λ _ _. Unit {0} };

    /// Returns the names in a directory, in any order, without `.` and `..`.
    fn names(&self, path: &[u8], node: u64) -> Result<Listing, CopyFault>
        ensures ok { IfOk result
            (λ listing. tells self.now (Lists path.now node listing.id listing.names.items)) }
        ensures err { IfErr result (λ trouble. tells self.now (Refuses path.now node trouble)) };

    /// Returns what is at a place.
    fn look(&self, path: &[u8], node: u64) -> Result<Found, CopyFault>
        ensures ok { IfOk result (λ found. tells self.now (Finds path.now node found)) }
        ensures err { IfErr result (λ trouble. tells self.now (Refuses path.now node trouble)) };

    /// Opens a file.
    fn open(&self, path: &[u8], node: u64) -> Result<Opened<Self::File>, CopyFault>
        ensures ok { IfOk result
            (λ opened. tells self.now
            (Holds path.now node opened.id (Self.File.remaining opened.file))) }
        ensures err { IfErr result (λ trouble. tells self.now (Refuses path.now node trouble)) };

    /// Returns the target of a symbolic link, exactly as the link has it.
    fn read_link(&self, path: &[u8], node: u64) -> Result<Leading, CopyFault>
        ensures ok { IfOk result
            (λ leading. tells self.now (Leads path.now node leading.id leading.to)) }
        ensures err { IfErr result (λ trouble. tells self.now (Refuses path.now node trouble)) };

    /// Returns whether something at this path that a tree cannot have is to be left out.
    fn omits(&self, path: &[u8]) -> Result<bool, CopyFault>
        ensures ok { IfOk result (λ omits. IsTrue omits → tells self.now (Omits path.now)) }
        ensures kept { IfOk result (λ omits. IsFalse omits → tells self.now (Keeps path.now)) }
        ensures err { IfErr result
            (λ trouble. (node : ℕ) → tells self.now (Refuses path.now node trouble)) };
}

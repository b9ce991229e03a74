// The files of the disk.
ghost use Rattle.std.specs.Prelude.{IfOk, OnErr, OnOk};

use thiserror::Error;

/// A file of the disk could not be read or written.
#[derive(Clone, Copy, Debug, PartialEq, Eq, Error)]
#[error("File")]
pub struct FileFailed;

/// The files of the disk that a script names.
pub trait DiskFiles {
    ghost use Rattle.ft_transfer.specs.Disk.{FileTold, Reads, Writes, Fails};

    /// The reports of the disk. By default they are not stated, as for a disk to which others may
    /// write.
    ghost tells: { Self → FileTold → Type 0 } = { λ _ _. Unit {0} };

    /// Returns the bytes of a file.
    fn read_file(&self, name: &[u8]) -> Result<Vec<u8>, FileFailed>
        ensures ok { IfOk result (λ bytes. tells self.now (Reads name.now bytes.items)) }
        ensures err { OnErr result (tells self.now (Fails name.now)) };

    /// Gives a file these bytes, and no others. If it fails, the file stays as it was.
    fn write_file(&self, name: &[u8], bytes: &[u8]) -> Result<(), FileFailed>
        ensures ok { OnOk result (tells self.now (Writes name.now bytes.now)) }
        ensures err { OnErr result (tells self.now (Fails name.now)) };
}

/// No files: none can be read, and none can be written.
#[derive(Clone, Copy, Debug, PartialEq, Eq)]
pub struct NoFiles;

impl DiskFiles for NoFiles {
    ghost use Rattle.ft_transfer.specs.Disk.{OnlyFails};

    ghost tells = { λ _. OnlyFails };

    /// Fails.
    fn read_file(&self, _name: &[u8]) -> Result<Vec<u8>, FileFailed> {
        Err(FileFailed)
    }

    /// Fails.
    fn write_file(&self, _name: &[u8], _bytes: &[u8]) -> Result<(), FileFailed> {
        Err(FileFailed)
    }
}

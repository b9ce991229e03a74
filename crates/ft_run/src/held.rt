// A directory on disk that is held open, so that what is in it is got at by itself.
use ft_copy::FileId;
use std::fs::{File, Metadata};
use std::os::fd::AsRawFd;
use std::os::unix::fs::MetadataExt;
use std::{fs, io};

/// A directory that is open. Whatever is put in its place, or in that of one around it, names in it
/// are looked up in this very directory, if the system shows open files in `/proc`.
#[derive(Drop)]
pub struct Held {
    pub id: FileId,
    /// The path by which the system gets at it, without a slash at its end.
    pub place: String,
    // (it is closed with the rest)
    _folder: File,
}

impl Held {
    /// Opens the directory at a place, which may be a symbolic link to it. `path` is its path
    /// without `/proc`. The slash after it keeps the system from waiting for a FIFO.
    pub fn open(rt: &HostRuntime, place: &str, path: String) -> io::Result<Held> {
        let slashed = format!(in rt.alloc(); "{place}/")?;
        let folder = File::open(rt, slashed.as_str())?;
        let id = id_of(&folder.metadata()?);
        let by_number = format!(in rt.alloc(); "/proc/self/fd/{}", folder.as_raw_fd())?;
        let place = match looked_into(rt, by_number.as_str()) {
            Ok(there) if there == id => by_number,
            _ => path,
        };
        Ok(Held {
            id,
            place,
            _folder: folder,
        })
    }

    /// Returns the directory to which the system's path leads: another one, if there is no `/proc`
    /// and something was put in its place.
    pub fn id_now(&self, rt: &HostRuntime) -> io::Result<FileId> {
        looked_into(rt, self.place.as_str())
    }
}

/// Returns what distinguishes the directory at a place, or at the end of the symbolic link there.
fn looked_into(rt: &HostRuntime, place: &str) -> io::Result<FileId> {
    let slashed = format!(in rt.alloc(); "{place}/")?;
    Ok(id_of(&fs::symlink_metadata(rt, slashed.as_str())?))
}

/// Returns what distinguishes something from all else.
pub fn id_of(metadata: &Metadata) -> FileId {
    FileId {
        device: metadata.dev(),
        number: metadata.ino(),
    }
}

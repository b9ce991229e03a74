// Directories and files that were made on disk.
use crate::causes::Causes;
use crate::giving::Giving;
use crate::held::id_of;
use ft_cells::Attributes;
use ft_copy::{CopyFault, FileId};
use std::alloc::{AllocError, Global};
use std::fs::{DirBuilder, File, OpenOptions, Permissions};
use std::io::ErrorKind;
use std::os::unix::fs::{DirBuilderExt, MetadataExt, OpenOptionsExt, PermissionsExt};
use std::{fs, io};

/// How many names alongside a place are tried.
pub const MOST_TRIES: u32 = 1_000;

/// The mode of a directory until it is whole. Only its owner gets at it, and can fill it.
const BEGUN_FOLDER: u32 = 0o700;

/// The mode of a file until it is whole.
pub const BEGUN_FILE: u32 = 0o600;

/// A directory that was made, or that is to get attributes: its path, and what distinguishes it
/// from all others.
#[derive(Drop)]
pub struct Made {
    pub place: String,
    pub id: FileId,
}

impl Made {
    /// Returns whether the directory is there, and not another one or a symbolic link.
    pub fn is_there(&self, rt: &HostRuntime) -> bool {
        match fs::symlink_metadata(rt, self.place.as_str()) {
            Ok(metadata) => metadata.is_dir() && id_of(&metadata) == self.id,
            Err(_) => false,
        }
    }

    /// Gives the directory its attributes. If they are to survive a power failure, it waits until
    /// they are on the disk. If anything else is in its place, that gets nothing and is not opened.
    pub fn give(
        &self,
        rt: &HostRuntime,
        causes: &Causes,
        giving: &mut Giving,
        attributes: Attributes,
        is_synced: bool,
    ) -> Result<(), CopyFault> {
        let place = self.place.as_str();
        if !self.is_there(rt) {
            return Err(CopyFault::Write);
        }
        let folder = File::open(rt, place).map_err(|error| causes.of_write(place.len(), error))?;
        let metadata = folder
            .metadata()
            .map_err(|error| causes.of_write(place.len(), error))?;
        if id_of(&metadata) != self.id {
            return Err(CopyFault::Write);
        }
        giving
            .give(&folder, attributes)
            .and_then(|()| sync_if(&folder, is_synced))
            .map_err(|error| causes.of_write(place.len(), error))
    }
}

/// Makes a directory that only its owner gets at, whatever the umask removes from its mode.
pub fn make_folder(rt: &HostRuntime, place: &str) -> io::Result<FileId> {
    DirBuilder::new().mode(BEGUN_FOLDER).create(rt, place)?;
    let metadata = fs::symlink_metadata(rt, place)?;
    if !metadata.is_dir() {
        return Err(io::Error::from(ErrorKind::AlreadyExists));
    }
    if metadata.mode() % 0o1000 != BEGUN_FOLDER {
        fs::set_permissions(rt, place, Permissions::from_mode(BEGUN_FOLDER))?;
    }
    Ok(id_of(&metadata))
}

/// Makes a file at a place where nothing is, and opens it for writing. The umask removes bits of
/// its mode.
pub fn make_file(rt: &HostRuntime, place: &str, mode: u32) -> io::Result<File> {
    OpenOptions::new()
        .write(true)
        .create_new(true)
        .mode(mode)
        .open(rt, place)
}

/// Returns the name alongside a place that has this number. A file has it until it is whole.
pub fn beside(alloc: Global, place: &str, number: u32) -> Result<String, AllocError> {
    format!(in alloc; "{}.save.part{number}", around(place))
}

/// Returns the directory of a place, with the slash at its end.
pub fn around(place: &str) -> &str {
    match place.rfind('/') {
        Some(slash) => &place[..slash + 1],
        None => "",
    }
}

/// Waits until a file or directory is on the disk, if that is requested.
pub fn sync_if(file: &File, is_synced: bool) -> io::Result<()> {
    if is_synced {
        return file.sync_all();
    }
    Ok(())
}

/// Waits until the names in a directory are on the disk.
pub fn sync_folder(rt: &HostRuntime, place: &str) -> io::Result<()> {
    File::open(rt, place)?.sync_all()
}

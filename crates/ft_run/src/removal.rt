// How a directory on disk is removed if there may be no memory.
use ft_path::LONGEST_PATH;
use std::alloc::{AllocError, Global};
use std::fs::{Files, Permissions};
use std::io::Read;
use std::os::unix::fs::PermissionsExt;
use std::str;

/// How many bytes of names are read at once.
const NAMES: usize = 4_096;

/// The mode of a directory that is emptied.
const EMPTIED: u32 = 0o700;

/// The room in which a directory on disk is removed, taken before there is anything to remove.
#[derive(Drop)]
pub struct Removal {
    // the path of the directory that is being emptied
    path: Vec<u8>,
    // names in it, each ended by a null byte
    names: Vec<u8>,
}

impl Removal {
    /// Takes the room.
    pub fn new(alloc: Global) -> Result<Removal, AllocError> {
        Ok(Removal {
            path: Vec::with_capacity(alloc, LONGEST_PATH + 1)?,
            names: vec![in alloc; 0; NAMES]?,
        })
    }

    /// Removes a directory with all that is in it, or as much of it as the system lets it.
    pub fn remove<F: Files>(&mut self, files: &F, dir: &str) {
        self.path.clear();
        if self.path.extend_from_slice(dir.as_bytes()).is_err() {
            return;
        }
        for _ in 0..u64::MAX {
            match self.empty(files) {
                Some(true) if self.leave(files, dir.len()) => {}
                Some(false) => {}
                _ => return,
            }
        }
    }

    /// Empties the directory at the path, and returns true. At a directory in it that is not empty,
    /// it stops: then the path becomes the path of that one, and it returns false. Returns `None`
    /// if that can't be done. A symbolic link is removed, and never followed. The directory may
    /// have its mode already, by which nobody may empty it.
    fn empty<F: Files>(&mut self, files: &F) -> Option<bool> {
        let place = text_of(self.path.as_slice())?;
        if !is_folder(files, place) {
            return None;
        }
        let _ = files.set_permissions(place, Permissions::from_mode(EMPTIED));
        let mut listing = files.open_dir(place).ok()?;
        for _ in 0..u64::MAX {
            let count = listing.read(self.names.as_mut_slice()).ok()?;
            if count == 0 {
                return Some(true);
            }
            if !remove_names(files, &mut self.path, &self.names[..count])? {
                return Some(false);
            }
        }
        None
    }

    /// Removes the empty directory at the path, and goes back to the directory around it. Returns
    /// whether there is more to do: the path of the whole has this many bytes.
    fn leave<F: Files>(&mut self, files: &F, top: usize) -> bool {
        let is_removed = match text_of(self.path.as_slice()) {
            Some(path) => files.remove_dir(path).is_ok(),
            None => false,
        };
        match self.path.iter().rposition(|byte| *byte == b'/') {
            Some(slash) if is_removed && self.path.len() > top => {
                self.path.truncate(slash);
                true
            }
            _ => false,
        }
    }
}

/// Removes what has these names in the directory at a path, up to a directory that is not empty, as
/// `empty` does.
fn remove_names<F: Files>(files: &F, path: &mut Vec<u8>, names: &[u8]) -> Option<bool> {
    for name in names.split(|byte| *byte == 0) {
        if name.is_empty() || name == b".".as_slice() || name == b"..".as_slice() {
            continue;
        }
        let length = path.len();
        path.push(b'/').ok()?;
        path.extend_from_slice(name).ok()?;
        let place = text_of(path.as_slice())?;
        if files.remove_file(place).is_err() && files.remove_dir(place).is_err() {
            return is_folder(files, place).then_some(false);
        }
        path.truncate(length);
    }
    Some(true)
}

/// Returns whether a directory is at a path, and not a symbolic link that leads to one.
fn is_folder<F: Files>(files: &F, place: &str) -> bool {
    match files.symlink_metadata(place) {
        Ok(metadata) => metadata.is_dir(),
        Err(_) => false,
    }
}

/// Returns a path as text.
fn text_of(path: &[u8]) -> Option<&str> {
    str::from_utf8(path).ok()
}

// A directory on disk as a source.
use crate::causes::{Causes, Noted};
use crate::explained::say;
use crate::held::{Held, id_of};
use ft_cells::{Attributes, MOST_NANOSECONDS, Timestamp};
use ft_copy::{
    CopyFault, FileFacts, FileId, FolderEntry, Found, FoundFile, FoundFolder, Given, Leading,
    Listing, Opened, Source, name_of,
};
use ft_path::{LONGEST_PATH, Name};
use ft_words::PercentCoded;
use std::cell::{Cell, RefCell};
use std::fs::{File, Files, Metadata};
use std::io::Read;
use std::os::unix::fs::{FileTypeExt, MetadataExt};
use std::{fs, str};

/// How many bytes of names are read at once.
const NAMES: usize = 4_096;

/// How many modes there are. The system puts the kind of a file above them.
const MODES: u32 = 0o10000;

/// A directory on disk, which is read and never written.
///
/// Symbolic links are not followed, even one that takes the place of a directory meanwhile. An
/// entry of a directory is looked up in the one that was listed, or else nothing is reported.
/// Whatever was opened, listed or read is reported with what distinguishes it from all else, so
/// that a caller that has looked there before knows whether it is the same.
#[derive(Drop)]
pub struct DiskSource<'a> {
    rt: &'a HostRuntime,
    dir: &'a str,
    causes: &'a Causes,
    // whether names that are no text are listed: then they are refused when they are looked at
    tells_names: bool,
    // the directories that were listed: the number of what is in one is its place here
    listed: RefCell<Vec<FileId>>,
    // the one that is held open, and its number
    held: Cell<Option<(u64, Held)>>,
    // whether sentences say what can't be loaded
    explains: Cell<bool>,
    // what was looked at last that is neither a file, a directory nor a link
    special: Cell<&'static str>,
}

impl<'a> DiskSource<'a> {
    /// Nothing is read yet. A name that is no text is refused with its directory, unless such names
    /// are to be listed: then it is refused when it is looked at.
    pub fn new(
        rt: &'a HostRuntime,
        dir: &'a str,
        causes: &'a Causes,
        tells_names: bool,
    ) -> DiskSource<'a> {
        DiskSource {
            rt,
            dir,
            causes,
            tells_names,
            listed: RefCell::new(Vec::new(rt.alloc())),
            held: Cell::new(None),
            explains: Cell::new(false),
            special: Cell::new(""),
        }
    }

    /// Begins to print what keeps the directory from being loaded: that it can't be read, or
    /// something special in it. Each is a sentence on standard error.
    pub fn begin(&self) {
        self.explains.set(true);
    }

    /// Returns the given fault. If the directory itself can't be read, a sentence names it first.
    fn explained(&self, path: &[u8], fault: CopyFault) -> CopyFault {
        if path.is_empty() && fault == CopyFault::Read && self.explains.get() {
            let alloc = self.rt.alloc();
            let dir = self.dir;
            match self.causes.last() {
                Some(kind) => say(
                    self.rt,
                    format!(in alloc; "cannot read the directory '{dir}': {kind}"),
                ),
                None => say(
                    self.rt,
                    format!(in alloc; "cannot read the directory '{dir}'"),
                ),
            }
        }
        fault
    }

    /// Says that something special at a path can't be loaded.
    fn refuse(&self, path: &[u8]) {
        if !self.explains.get() {
            return;
        }
        let path = PercentCoded(path);
        let special = self.special.get();
        let sentence = format!(in self.rt.alloc();
            "cannot load '{path}': it is {special} (--skip leaves it out)"
        );
        say(self.rt, sentence);
    }

    /// Returns the place of a path of the tree on disk. A path that is no text has no place there.
    fn place(&self, path: &[u8]) -> Result<String, CopyFault> {
        let Ok(path) = str::from_utf8(path) else {
            return Err(CopyFault::BadName);
        };
        if self.dir.len().saturating_add(path.len()) > LONGEST_PATH {
            return Err(CopyFault::PathTooLong);
        }
        Ok(format!(in self.rt.alloc(); "{}{path}", self.dir)?)
    }

    /// Returns the path by which the system gets at a place: the directory itself, or a name in the
    /// directory that has this number among those that were listed.
    fn reached(&self, path: &[u8], node: u64) -> Result<String, CopyFault> {
        let place = self.place(path)?;
        let Some(slash) = path.iter().rposition(|byte| *byte == b'/') else {
            return Ok(place);
        };
        let name = str::from_utf8(&path[slash..]).map_err(|_| CopyFault::BadName)?;
        let (number, held) = match self.held.take() {
            Some((number, held)) if number == node => (number, held),
            _ => (node, self.listed_before(&path[..slash], node)?),
        };
        let reached = format!(in self.rt.alloc(); "{}{name}", held.place);
        self.held.set(Some((number, held)));
        Ok(reached?)
    }

    /// Opens again the directory that has this number among those that were listed. Refuses another
    /// directory in its place.
    fn listed_before(&self, path: &[u8], node: u64) -> Result<Held, CopyFault> {
        let place = self.place(path)?;
        let held = self.opened(place.as_str(), path)?;
        match self.listed.try_borrow() {
            Ok(listed) if listed.get(node as usize) == Some(&held.id) => Ok(held),
            _ => Err(CopyFault::Read),
        }
    }

    /// Opens the directory of a path, by which the system gets at it at a place.
    fn opened(&self, place: &str, path: &[u8]) -> Result<Held, CopyFault> {
        Held::open(self.rt, place, self.place(path)?).map_err(|error| self.causes.of_read(error))
    }

    /// Returns the names in an open directory.
    fn names_in(&self, held: &Held) -> Result<Vec<Name>, CopyFault> {
        let alloc = self.rt.alloc();
        let slashed = format!(in alloc; "{}/", held.place)?;
        let mut listing = self
            .rt
            .open_dir(slashed.as_str())
            .map_err(|error| self.causes.of_read(error))?;
        let mut room = vec![in alloc; 0; NAMES]?;
        let mut names = Vec::new(alloc);
        for _ in 0..u64::MAX {
            let count = match listing.read(room.as_mut_slice()) {
                Ok(count) => count,
                Err(error) => return Err(self.causes.of_read(error)),
            };
            if count == 0 {
                return Ok(names);
            }
            self.add_names(&room[..count], &mut names)?;
        }
        Err(CopyFault::Read)
    }

    /// Adds names, each of which a null byte ends.
    fn add_names(&self, bytes: &[u8], names: &mut Vec<Name>) -> Result<(), CopyFault> {
        for name in bytes.split(|byte| *byte == 0) {
            if name.is_empty() || name == b".".as_slice() || name == b"..".as_slice() {
                continue;
            }
            if !self.tells_names && str::from_utf8(name).is_err() {
                return Err(CopyFault::BadName);
            }
            names.push(name_of(self.rt.alloc(), name)?)?;
        }
        Ok(())
    }

    /// Holds a directory open that was listed, and returns its number.
    fn hold(&self, held: Held) -> Result<u64, CopyFault> {
        let Ok(mut listed) = self.listed.try_borrow_mut() else {
            return Err(CopyFault::Read);
        };
        let number = listed.len() as u64;
        listed.push(held.id)?;
        self.held.set(Some((number, held)));
        Ok(number)
    }
}

impl<'a> Source for DiskSource<'a> {
    type File = Noted<'a, File>;

    fn names(&self, path: &[u8], node: u64) -> Result<Listing, CopyFault> {
        let alloc = self.rt.alloc();
        let held = self
            .opened(self.reached(path, node)?.as_str(), path)
            .map_err(|fault| self.explained(path, fault))?;
        let found = self.names_in(&held)?;
        let id = held
            .id_now(self.rt)
            .map_err(|error| self.causes.of_read(error))?;
        let node = self.hold(held)?;
        let mut names = Vec::with_capacity(alloc, found.len())?;
        for name in found {
            names.push(FolderEntry { name, node })?;
        }
        Ok(Listing { id, names })
    }

    fn look(&self, path: &[u8], node: u64) -> Result<Found, CopyFault> {
        let place = if !path.is_empty() {
            self.reached(path, node)?
        } else if self.dir.is_empty() {
            // (nothing has no name, and a slash would lead to the root of the disk)
            String::new(self.rt.alloc())
        } else {
            // (it may be a symbolic link that leads to the directory)
            format!(in self.rt.alloc(); "{}/", self.dir)?
        };
        match fs::symlink_metadata(self.rt, place.as_str()) {
            Ok(metadata) => {
                self.special.set(kind_of(&metadata));
                Ok(found(&metadata))
            }
            Err(error) => Err(self.explained(path, self.causes.of_read(error))),
        }
    }

    /// Opens a file. (The kit follows a symbolic link when it opens a file, and waits for a FIFO. A
    /// link that has come meanwhile leads to another file than the one that was looked at.)
    fn open(&self, path: &[u8], node: u64) -> Result<Opened<Noted<'a, File>>, CopyFault> {
        let place = self.reached(path, node)?;
        let file = File::open(self.rt, place.as_str()).map_err(|error| self.causes.of_read(error))?;
        let metadata = file.metadata().map_err(|error| self.causes.of_read(error))?;
        if found(&metadata) == Found::Special {
            self.special.set(kind_of(&metadata));
            if !self.tells_names {
                self.refuse(path);
            }
            return Err(CopyFault::Special);
        }
        Ok(Opened {
            id: id_of(&metadata),
            file: Noted::new(file, self.causes),
        })
    }

    fn read_link(&self, path: &[u8], node: u64) -> Result<Leading, CopyFault> {
        let place = self.reached(path, node)?;
        let to = fs::read_link(self.rt, place.as_str()).map_err(|error| self
            .causes
            .of_read(error))?;
        let metadata = fs::symlink_metadata(self.rt, place.as_str()).map_err(|error| self
            .causes
            .of_read(error))?;
        Ok(Leading {
            id: id_of(&metadata),
            to: to.into_string().into_bytes().into(),
        })
    }

    fn omits(&self, path: &[u8]) -> Result<bool, CopyFault> {
        self.refuse(path);
        Ok(false)
    }
}

/// Returns what the system reports of a directory or file.
fn found(metadata: &Metadata) -> Found {
    if metadata.is_dir() {
        return Found::Folder(FoundFolder {
            id: id_of(metadata),
            attributes: attributes_of(metadata),
        });
    }
    let facts = FileFacts {
        id: id_of(metadata),
        links: metadata.nlink(),
        size: metadata.len(),
    };
    if metadata.is_file() {
        let given = Given {
            attributes: attributes_of(metadata),
            time: Some(time_of(metadata)),
        };
        Found::File(FoundFile { facts, given })
    } else if metadata.is_symlink() {
        Found::Symlink(facts)
    } else {
        Found::Special
    }
}

/// Returns what something is that is not a regular file.
pub fn kind_of(metadata: &Metadata) -> &'static str {
    let kind = metadata.file_type();
    if kind.is_dir() {
        "a directory"
    } else if kind.is_symlink() {
        "a symbolic link"
    } else if kind.is_fifo() {
        "a FIFO"
    } else if kind.is_socket() {
        "a socket"
    } else {
        "a device"
    }
}

/// Returns the mode of a directory or file, without its kind, and its owners.
fn attributes_of(metadata: &Metadata) -> Attributes {
    Attributes {
        mode: (metadata.mode() % MODES) as u16,
        owner: metadata.uid(),
        group: metadata.gid(),
    }
}

/// Returns when the bytes of a file were changed last.
fn time_of(metadata: &Metadata) -> Timestamp {
    let nanoseconds = u32::try_from(metadata.mtime_nsec()).unwrap_or(0);
    Timestamp {
        seconds: metadata.mtime(),
        nanoseconds: nanoseconds.min(MOST_NANOSECONDS),
    }
}

// A directory on disk as a target.
use crate::causes::Causes;
use crate::explained::say;
use crate::giving::Giving;
use crate::made::{BEGUN_FILE, MOST_TRIES, Made, make_file, make_folder, sync_folder, sync_if};
use crate::removal::Removal;
use ft_cells::{Attributes, Timestamp};
use ft_copy::{CopyFault, Target};
use ft_script::write_out;
use std::fs::File;
use std::io::{ErrorKind, Write};
use std::os::unix::fs::symlink;
use std::{fs, io, str};

/// A directory that is to be made on disk. It is made under another name alongside its place, and
/// gets its own when it is whole.
///
/// Files get their modes, owners and times when they are closed, and directories at the end, those
/// in a directory before it, so that one that nobody may write can be filled.
#[derive(Drop)]
pub struct DiskTarget<'a> {
    rt: &'a HostRuntime,
    // the place that it is to have, without slashes at its end
    dir: &'a str,
    causes: &'a Causes,
    // whether owners and groups are to be kept
    wants_owners: bool,
    // whether it is to survive a power failure after the end
    is_synced: bool,
    // the parts until it is whole, once it was begun
    begun: Option<Begun>,
    // the file that is open
    file: Option<OpenFile>,
}

/// An open file, and what it is to have.
#[derive(Drop)]
struct OpenFile {
    file: File,
    attributes: Attributes,
}

/// A directory that was begun.
#[derive(Drop)]
struct Begun {
    // its place
    beside: Made,
    // the directories in it, each before those in it, and what they are to have
    folders: Vec<(Made, Attributes)>,
    // what gives it all
    giving: Giving,
    // what it is removed with if it is given up, even if there is no memory any more
    removal: Removal,
}

impl<'a> DiskTarget<'a> {
    /// Returns a target on which nothing is made yet.
    pub fn new(
        rt: &'a HostRuntime,
        dir: &'a str,
        causes: &'a Causes,
        wants_owners: bool,
        is_synced: bool,
    ) -> DiskTarget<'a> {
        DiskTarget {
            rt,
            dir: dir.trim_end_matches('/'),
            causes,
            wants_owners,
            is_synced,
            begun: None,
            file: None,
        }
    }

    /// Returns the place of a path of the tree until the directory is whole.
    fn place(&self, path: &[u8]) -> Result<String, CopyFault> {
        let Ok(path) = str::from_utf8(path) else {
            return Err(CopyFault::BadName);
        };
        match &self.begun {
            Some(begun) => Ok(format!(in self.rt.alloc(); "{}{path}", begun.beside.place)?),
            None => Err(CopyFault::Write),
        }
    }

    /// Makes a directory alongside the place, by the first name that is free.
    fn make_beside(&self) -> Result<Made, CopyFault> {
        for number in 0..MOST_TRIES {
            let place = format!(in self.rt.alloc(); "{}.part{number}", self.dir)?;
            match make_folder(self.rt, place.as_str()) {
                Ok(id) => return Ok(Made { place, id }),
                Err(error) if error.kind() == ErrorKind::AlreadyExists => {}
                // (its name is longer than that of the directory)
                Err(error) if error.kind() == ErrorKind::InvalidFilename => {
                    return Err(CopyFault::PathTooLong);
                }
                Err(error) => return Err(self.unmade(place.as_str(), error)),
            }
        }
        let dir = self.dir;
        say(
            self.rt,
            format!(in self.rt.alloc(); "'{dir}.part0' to '{dir}.part999' exist already"),
        );
        Err(CopyFault::Exists)
    }

    /// Returns the fault of a directory that can't be made at a place, after a sentence that says
    /// why.
    fn unmade(&self, place: &str, error: io::Error) -> CopyFault {
        let kind = error.kind();
        let fault = self.causes.of_write(place.len(), error);
        if fault == CopyFault::Write {
            let alloc = self.rt.alloc();
            say(
                self.rt,
                format!(in alloc; "cannot make the directory '{place}': {kind}"),
            );
        }
        fault
    }

    /// Returns the fault of a place that something else has, after a sentence that names it.
    fn taken(&self) -> CopyFault {
        let dir = self.dir;
        if dir.is_empty() {
            say(
                self.rt,
                format!(in self.rt.alloc(); "the directory to be made has no name"),
            );
        } else {
            say(
                self.rt,
                format!(in self.rt.alloc(); "'{dir}' exists already"),
            );
        }
        CopyFault::Exists
    }

    /// Waits until the name of the directory is on the disk, if that is requested.
    fn sync_around(&self) -> Result<(), CopyFault> {
        if !self.is_synced {
            return Ok(());
        }
        let around = match self.dir.rfind('/') {
            Some(slash) => &self.dir[..slash + 1],
            None => "./",
        };
        sync_folder(self.rt, around).map_err(|error| self.causes.of_write(around.len(), error))
    }

    /// Returns whether something is at the place that the directory is to have.
    fn is_taken(&self) -> bool {
        self.dir.is_empty() || fs::symlink_metadata(self.rt, self.dir).is_ok()
    }
}

impl Target for DiskTarget<'_> {
    fn start(&mut self) -> Result<(), CopyFault> {
        if self.is_taken() {
            return Err(self.taken());
        }
        let alloc = self.rt.alloc();
        let removal = Removal::new(alloc)?;
        let beside = self.make_beside()?;
        let giving = Giving::new(self.rt, self.wants_owners, beside.place.as_str());
        self.begun = Some(Begun {
            beside,
            folders: Vec::new(alloc),
            giving,
            removal,
        });
        Ok(())
    }

    fn folder(&mut self, path: &[u8], attributes: Attributes) -> Result<(), CopyFault> {
        let place = self.place(path)?;
        let id = make_folder(self.rt, place.as_str()).map_err(|error| self
            .causes
            .of_write(place.len(), error))?;
        match &mut self.begun {
            Some(begun) => Ok(begun.folders.push((Made { place, id }, attributes))?),
            None => Err(CopyFault::Write),
        }
    }

    fn open(&mut self, path: &[u8], attributes: Attributes) -> Result<(), CopyFault> {
        let place = self.place(path)?;
        let file = make_file(self.rt, place.as_str(), BEGUN_FILE).map_err(|error| self
            .causes
            .of_write(place.len(), error))?;
        self.file = Some(OpenFile { file, attributes });
        Ok(())
    }

    fn piece(&mut self, bytes: &[u8]) -> Result<(), CopyFault> {
        let causes = self.causes;
        match &mut self.file {
            Some(open) => open
                .file
                .write_all(bytes)
                .map_err(|error| causes.of_write(0, error)),
            None => Err(CopyFault::Write),
        }
    }

    fn close(&mut self, time: Option<Timestamp>) -> Result<(), CopyFault> {
        let causes = self.causes;
        let (Some(open), Some(begun)) = (self.file.take(), &mut self.begun) else {
            return Err(CopyFault::Write);
        };
        let is_synced = self.is_synced;
        let giving = &mut begun.giving;
        giving
            .set_time(&open.file, time)
            .and_then(|()| giving.give(&open.file, open.attributes))
            .and_then(|()| sync_if(&open.file, is_synced))
            .map_err(|error| causes.of_write(0, error))
    }

    fn link(&mut self, first: &[u8], path: &[u8]) -> Result<(), CopyFault> {
        let first = self.place(first)?;
        let place = self.place(path)?;
        fs::hard_link(self.rt, first.as_str(), place.as_str()).map_err(|error| self
            .causes
            .of_write(place.len(), error))
    }

    fn symlink(&mut self, to: &[u8], path: &[u8]) -> Result<(), CopyFault> {
        let Ok(to) = str::from_utf8(to) else {
            return Err(CopyFault::BadName);
        };
        let place = self.place(path)?;
        symlink(self.rt, to, place.as_str()).map_err(|error| self
            .causes
            .of_write(place.len(), error))
    }

    fn finish(&mut self, attributes: Attributes) -> Result<(), CopyFault> {
        if self.is_taken() {
            return Err(self.taken());
        }
        let causes = self.causes;
        let Some(begun) = &mut self.begun else {
            return Err(CopyFault::Write);
        };
        begun.give_folders(self.rt, causes, attributes, self.is_synced)?;
        let losses = begun.giving.losses(self.rt.alloc())?;
        let place = begun.beside.place.as_str();
        fs::rename(self.rt, place, self.dir).map_err(|error| causes.of_write(place.len(), error))?;
        self.begun = None;
        let _ = write_out(&mut self.rt.stderr(), losses.as_bytes());
        self.sync_around()
    }

    fn give_up(&mut self) {
        self.file = None;
        if let Some(begun) = &mut self.begun
            && begun.beside.is_there(self.rt)
        {
            begun.removal.remove(self.rt, begun.beside.place.as_str());
        }
        self.begun = None;
    }
}

impl Begun {
    /// Gives the directories what they are to have. Those in a directory come before it, and the
    /// whole comes last.
    fn give_folders(
        &mut self,
        rt: &HostRuntime,
        causes: &Causes,
        attributes: Attributes,
        is_synced: bool,
    ) -> Result<(), CopyFault> {
        let giving = &mut self.giving;
        for (made, given) in self.folders.iter().rev() {
            made.give(rt, causes, giving, *given, is_synced)?;
        }
        self.beside.give(rt, causes, giving, attributes, is_synced)
    }
}

// A directory on disk in which a tree is made.
use crate::causes::Causes;
use crate::giving::Giving;
use crate::held::id_of;
use crate::made::{
    BEGUN_FILE, MOST_TRIES, Made, around, beside, make_file, make_folder, sync_folder, sync_if,
};
use ft_cells::{Attributes, Timestamp};
use ft_copy::CopyFault;
use ft_into::{Act, Maker, Thing};
use ft_script::write_out;
use std::collections::BTreeSet;
use std::fs::File;
use std::io::{ErrorKind, Write};
use std::os::unix::fs::symlink;
use std::{fs, io, str};

/// A directory on disk in which a tree is made. Files, and what is changed, are made under another
/// name in the same directory, and get their own names when they are whole.
///
/// Directories get their modes and owners at the end, those in a directory before it. So a
/// directory that nobody may write can be filled.
#[derive(Drop)]
pub struct DiskMaker<'a> {
    rt: &'a HostRuntime,
    // its path, without slashes at the end
    dir: &'a str,
    causes: &'a Causes,
    giving: Giving,
    // whether it is to survive a power failure after the end
    is_synced: bool,
    // the directories that were changed, if they are to survive a power failure
    changed: BTreeSet<String>,
    // the directories that are to get attributes, each before those in it
    folders: Vec<(Made, Attributes)>,
    // the same of the whole
    top: Option<(Made, Attributes)>,
    // the file that is open
    file: Option<OpenFile>,
}

/// A file that is open, its path now and at the end, and its attributes.
#[derive(Drop)]
struct OpenFile {
    file: File,
    beside: String,
    place: String,
    act: Act,
    attributes: Attributes,
}

impl<'a> DiskMaker<'a> {
    /// Returns a maker that has made nothing yet.
    pub fn new(
        rt: &'a HostRuntime,
        dir: &'a str,
        causes: &'a Causes,
        wants_owners: bool,
        is_synced: bool,
    ) -> DiskMaker<'a> {
        let alloc = rt.alloc();
        DiskMaker {
            rt,
            dir: dir.trim_end_matches('/'),
            causes,
            giving: Giving::into(rt, wants_owners),
            is_synced,
            changed: BTreeSet::new(alloc),
            folders: Vec::new(alloc),
            top: None,
            file: None,
        }
    }

    /// Returns the path on disk of a path of the tree. That of the root has a slash at its end,
    /// since it may be a symbolic link to the directory.
    fn place(&self, path: &[u8]) -> Result<String, CopyFault> {
        let Ok(path) = str::from_utf8(path) else {
            return Err(CopyFault::BadName);
        };
        if path.is_empty() {
            return Ok(format!(in self.rt.alloc(); "{}/", self.dir)?);
        }
        Ok(format!(in self.rt.alloc(); "{}{path}", self.dir)?)
    }

    /// Returns the fault if something could not be made at a place.
    fn trouble(&self, place: &str, error: io::Error) -> CopyFault {
        self.causes.of_write(place.len(), error)
    }

    /// Forgets that names in a directory were changed, since it was removed.
    fn forget(&mut self, place: &str) -> Result<(), CopyFault> {
        let folder = format!(in self.rt.alloc(); "{place}/")?;
        self.changed.remove(folder.as_str());
        Ok(())
    }

    /// Notes that names in the directory of a place were changed.
    fn note_around(&mut self, place: &str) -> Result<(), CopyFault> {
        if self.is_synced {
            let around = String::from_str(self.rt.alloc(), around(place))?;
            self.changed.insert(around)?;
        }
        Ok(())
    }

    /// Makes a file alongside a place, by the first name that is free.
    fn open_beside(&self, place: &str) -> Result<(File, String), CopyFault> {
        for number in 0..MOST_TRIES {
            let beside = beside(self.rt.alloc(), place, number)?;
            if beside.as_str() == place {
                // (the tree has a file of this name)
                continue;
            }
            match make_file(self.rt, beside.as_str(), BEGUN_FILE) {
                Ok(file) => return Ok((file, beside)),
                Err(error) if error.kind() == ErrorKind::AlreadyExists => {}
                Err(error) => return Err(self.trouble(beside.as_str(), error)),
            }
        }
        Err(CopyFault::Exists)
    }

    /// Makes a link alongside a place, by the first name that is free.
    fn link_beside(&self, to: &str, is_symbolic: bool, place: &str) -> Result<String, CopyFault> {
        for number in 0..MOST_TRIES {
            let beside = beside(self.rt.alloc(), place, number)?;
            match make_link(self.rt, to, is_symbolic, beside.as_str()) {
                Ok(()) => return Ok(beside),
                Err(error) if error.kind() == ErrorKind::AlreadyExists => {}
                Err(error) => return Err(self.trouble(beside.as_str(), error)),
            }
        }
        Err(CopyFault::Exists)
    }

    /// Makes a link at a path. If one is to be changed, the new one is made alongside and renamed.
    fn put_link(
        &mut self,
        act: Act,
        to: &str,
        is_symbolic: bool,
        path: &[u8],
    ) -> Result<(), CopyFault> {
        let place = self.place(path)?;
        self.note_around(place.as_str())?;
        if act == Act::Add {
            return make_link(self.rt, to, is_symbolic, place.as_str()).map_err(|error| {
                self.trouble(place.as_str(), error)
            });
        }
        let beside = self.link_beside(to, is_symbolic, place.as_str())?;
        let put = self.rename(beside.as_str(), place.as_str());
        // (two names of one file stay where they are)
        let _ = fs::remove_file(self.rt, beside.as_str());
        put
    }

    /// Gives what was made alongside a place its own name.
    fn rename(&self, beside: &str, place: &str) -> Result<(), CopyFault> {
        fs::rename(self.rt, beside, place).map_err(|error| self.trouble(place, error))
    }

    /// Gives the open file its attributes, its time and its name.
    fn put(&mut self, open: &OpenFile, time: Option<Timestamp>) -> Result<(), CopyFault> {
        let is_synced = self.is_synced;
        let place = open.place.as_str();
        let giving = &mut self.giving;
        let given = giving
            .set_time(&open.file, time)
            .and_then(|()| giving.give(&open.file, open.attributes))
            .and_then(|()| sync_if(&open.file, is_synced));
        given.map_err(|error| self.trouble(place, error))?;
        if open.act == Act::Add && fs::symlink_metadata(self.rt, place).is_ok() {
            return Err(CopyFault::Exists);
        }
        self.rename(open.beside.as_str(), place)
    }

    /// Gives the directories their attributes. Those in a directory come before it, and the whole
    /// comes last.
    fn give_folders(&mut self) -> Result<(), CopyFault> {
        let (rt, causes, is_synced) = (self.rt, self.causes, self.is_synced);
        let giving = &mut self.giving;
        for (made, given) in self.folders.iter().rev() {
            made.give(rt, causes, giving, *given, is_synced)?;
        }
        match &self.top {
            Some((made, given)) => made.give(rt, causes, giving, *given, is_synced),
            None => Ok(()),
        }
    }

    /// Waits until the names in a directory are on the disk.
    fn sync(&self, place: &str) -> Result<(), CopyFault> {
        sync_folder(self.rt, place).map_err(|error| self.trouble(place, error))
    }
}

impl Maker for DiskMaker<'_> {
    fn folder(&mut self, act: Act, path: &[u8], attributes: Attributes) -> Result<(), CopyFault> {
        let place = self.place(path)?;
        let id = if act == Act::Add {
            self.note_around(place.as_str())?;
            make_folder(self.rt, place.as_str())
        } else {
            fs::symlink_metadata(self.rt, place.as_str()).map(|metadata| id_of(&metadata))
        };
        let id = id.map_err(|error| self.trouble(place.as_str(), error))?;
        let made = Made { place, id };
        if path.is_empty() {
            self.top = Some((made, attributes));
        } else {
            self.folders.push((made, attributes))?;
        }
        Ok(())
    }

    fn open(&mut self, act: Act, path: &[u8], attributes: Attributes) -> Result<(), CopyFault> {
        let place = self.place(path)?;
        self.note_around(place.as_str())?;
        let (file, beside) = self.open_beside(place.as_str())?;
        self.file = Some(OpenFile {
            file,
            beside,
            place,
            act,
            attributes,
        });
        Ok(())
    }

    fn piece(&mut self, bytes: &[u8]) -> Result<(), CopyFault> {
        let causes = self.causes;
        match &mut self.file {
            Some(open) => open
                .file
                .write_all(bytes)
                .map_err(|error| causes.of_write(0, error)),
            None => Err(CopyFault::Write),
        }
    }

    fn close(&mut self, time: Option<Timestamp>) -> Result<(), CopyFault> {
        let Some(open) = self.file.take() else {
            return Err(CopyFault::Write);
        };
        let put = self.put(&open, time);
        if put.is_err() {
            self.file = Some(open);
        }
        put
    }

    fn link(&mut self, act: Act, first: &[u8], path: &[u8]) -> Result<(), CopyFault> {
        let first = self.place(first)?;
        self.put_link(act, first.as_str(), false, path)
    }

    fn symlink(&mut self, act: Act, to: &[u8], path: &[u8]) -> Result<(), CopyFault> {
        let Ok(to) = str::from_utf8(to) else {
            return Err(CopyFault::BadName);
        };
        self.put_link(act, to, true, path)
    }

    fn remove(&mut self, thing: Thing, path: &[u8]) -> Result<(), CopyFault> {
        let place = self.place(path)?;
        self.note_around(place.as_str())?;
        let removed = if thing == Thing::Folder {
            fs::remove_dir(self.rt, place.as_str())
        } else {
            fs::remove_file(self.rt, place.as_str())
        };
        removed.map_err(|error| self.trouble(place.as_str(), error))?;
        if thing == Thing::Folder {
            return self.forget(place.as_str());
        }
        Ok(())
    }

    fn finish(&mut self) -> Result<(), CopyFault> {
        // (before they get modes by which nobody may open them)
        for place in self.changed.iter() {
            self.sync(place.as_str())?;
        }
        self.give_folders()?;
        let losses = self.giving.losses(self.rt.alloc())?;
        let _ = write_out(&mut self.rt.stderr(), losses.as_bytes());
        Ok(())
    }

    fn give_up(&mut self) {
        if let Some(open) = self.file.take() {
            let _ = fs::remove_file(self.rt, open.beside.as_str());
        }
    }
}

/// Makes a further name of a file, or a symbolic link.
fn make_link(rt: &HostRuntime, to: &str, is_symbolic: bool, place: &str) -> io::Result<()> {
    if is_symbolic {
        symlink(rt, to, place)
    } else {
        fs::hard_link(rt, to, place)
    }
}

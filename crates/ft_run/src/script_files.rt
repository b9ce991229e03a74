// The files of the disk that a script or a plan names.
//
// No clause states what a disk holds, so these are the functions of a trait whose reports are not
// stated either.
use crate::disk_source::kind_of;
use crate::explained::say;
use crate::made::{BEGUN_FILE, MOST_TRIES, beside, make_file};
use ft_transfer::{DiskFiles, FileFailed};
use ft_words::PercentCoded;
use std::alloc::AllocError;
use std::fs::{File, Metadata, Permissions};
use std::io::{ErrorKind, Read, Write};
use std::os::unix::fs::{MetadataExt, PermissionsExt};
use std::{fs, io, str};
use thiserror::Error;

/// The mode of a new file, of which the umask removes bits.
const NEW_FILE: u32 = 0o666;

/// How many modes there are without S_ISUID, S_ISGID and S_ISVTX.
const PERMISSIONS: u32 = 0o1000;

/// The files of the disk that a script names. A relative name is looked up in the working
/// directory. If a file can't be read or written, a sentence on standard error says why.
#[derive(Clone, Copy)]
pub struct ScriptFiles<'a> {
    rt: &'a HostRuntime,
    // the most bytes that a file of the tree may have
    most: u64,
}

/// Why a file was not read or not written.
#[derive(Debug, Drop, Error)]
enum Cause {
    #[error("{}", .0.kind())]
    System(#[from] io::Error),
    #[error("out of memory")]
    Memory(#[from(alloc)] AllocError),
    #[error("it is {0}")]
    Special(&'static str),
    #[error("it has more bytes than --largest-file allows")]
    TooLarge,
    #[error("its name is not UTF-8 text")]
    NotText,
    #[error(".save.part0 to .save.part999 exist already in its directory")]
    Taken,
}

impl<'a> ScriptFiles<'a> {
    /// Returns the files for a tree whose files have at most this many bytes.
    pub fn new(rt: &'a HostRuntime, most: u64) -> ScriptFiles<'a> {
        ScriptFiles { rt, most }
    }

    /// Opens a regular file, to which a symbolic link may lead. Returns how long it is, too.
    fn open(&self, name: &[u8]) -> Result<(File, u64), Cause> {
        let place = text_of(name)?;
        // (an open would wait for a FIFO)
        refuse_special(&fs::metadata(self.rt, place)?)?;
        let file = File::open(self.rt, place)?;
        let metadata = file.metadata()?;
        refuse_special(&metadata)?;
        Ok((file, metadata.len()))
    }

    /// Returns the bytes of a file. If there are more than a file of the tree may have, it returns
    /// one more than that, since none has room for it.
    fn bytes_of(&self, file: File) -> Result<Vec<u8>, Cause> {
        let mut bytes = Vec::new(self.rt.alloc());
        file.take(self.most.saturating_add(1))
            .read_to_end(&mut bytes)?;
        Ok(bytes)
    }

    /// Returns the bytes of a regular file, as `bytes_of` does.
    fn read(&self, name: &[u8]) -> Result<Vec<u8>, Cause> {
        let (file, _) = self.open(name)?;
        self.bytes_of(file)
    }

    /// Returns the bytes of a regular file if a file of the tree may have as many.
    fn read_fitting(&self, name: &[u8]) -> Result<Vec<u8>, Cause> {
        let (file, len) = self.open(name)?;
        if len > self.most {
            return Err(Cause::TooLarge);
        }
        let bytes = self.bytes_of(file)?;
        // (it may have grown meanwhile)
        if bytes.len() as u64 > self.most {
            return Err(Cause::TooLarge);
        }
        Ok(bytes)
    }

    /// Makes a regular file with these bytes, or replaces one. It is made alongside its place, and
    /// renamed when it is whole.
    fn write(&self, name: &[u8], bytes: &[u8]) -> Result<(), Cause> {
        let place = text_of(name)?;
        let mode = self.mode_at(place)?;
        let (file, beside) = self.open_beside(place, mode)?;
        let put = fill(file, bytes, mode).and_then(|()| fs::rename(
            self.rt,
            beside.as_str(),
            place,
        ));
        if put.is_err() {
            let _ = fs::remove_file(self.rt, beside.as_str());
        }
        Ok(put?)
    }

    /// Returns the permissions of the regular file at a place, or `None` if nothing is there.
    fn mode_at(&self, place: &str) -> Result<Option<u32>, Cause> {
        match fs::symlink_metadata(self.rt, place) {
            Ok(metadata) => {
                refuse_special(&metadata)?;
                Ok(Some(metadata.mode() % PERMISSIONS))
            }
            Err(error) if error.kind() == ErrorKind::NotFound => Ok(None),
            Err(error) => Err(Cause::System(error)),
        }
    }

    /// Makes a file alongside a place, by the first name that is free. If it is to get the mode of
    /// another one, nobody else can open it until then.
    fn open_beside(&self, place: &str, mode: Option<u32>) -> Result<(File, String), Cause> {
        let begun = mode.map_or(NEW_FILE, |_| BEGUN_FILE);
        for number in 0..MOST_TRIES {
            let beside = beside(self.rt.alloc(), place, number)?;
            if beside.as_str() == place {
                continue;
            }
            match make_file(self.rt, beside.as_str(), begun) {
                Ok(file) => return Ok((file, beside)),
                Err(error) if error.kind() == ErrorKind::AlreadyExists => {}
                Err(error) => return Err(Cause::System(error)),
            }
        }
        Err(Cause::Taken)
    }

    /// Says why a file was not read or not written.
    fn failed(&self, what: &str, name: &[u8], cause: &Cause) -> FileFailed {
        let name = PercentCoded(name);
        say(
            self.rt,
            format!(in self.rt.alloc(); "cannot {what} '{name}': {cause}"),
        );
        FileFailed
    }
}

impl DiskFiles for ScriptFiles<'_> {
    fn read_file(&self, name: &[u8]) -> Result<Vec<u8>, FileFailed> {
        self.read(name)
            .map_err(|cause| self.failed("read", name, &cause))
    }

    fn write_file(&self, name: &[u8], bytes: &[u8]) -> Result<(), FileFailed> {
        self.write(name, bytes)
            .map_err(|cause| self.failed("write", name, &cause))
    }
}

/// The files of the disk that a plan names: those of a script, except that a file can't be read if
/// the tree has no room for it. (The `write` of a `put` would write a part of it.)
#[derive(Clone, Copy)]
pub struct PlanFiles<'a>(ScriptFiles<'a>);

impl<'a> PlanFiles<'a> {
    /// Returns the files for a tree whose files have at most this many bytes.
    pub fn new(rt: &'a HostRuntime, most: u64) -> PlanFiles<'a> {
        PlanFiles(ScriptFiles::new(rt, most))
    }
}

impl DiskFiles for PlanFiles<'_> {
    fn read_file(&self, name: &[u8]) -> Result<Vec<u8>, FileFailed> {
        self.0
            .read_fitting(name)
            .map_err(|cause| self.0.failed("read", name, &cause))
    }

    fn write_file(&self, name: &[u8], bytes: &[u8]) -> Result<(), FileFailed> {
        self.0.write_file(name, bytes)
    }
}

/// Writes the bytes of a new file, and gives it a mode, if it is to have one.
fn fill(file: File, bytes: &[u8], mode: Option<u32>) -> io::Result<()> {
    let mut file = file;
    file.write_all(bytes)?;
    match mode {
        Some(mode) => file.set_permissions(Permissions::from_mode(mode)),
        None => Ok(()),
    }
}

/// Returns a name as text. A name without bytes is that of no file.
fn text_of(name: &[u8]) -> Result<&str, Cause> {
    if name.is_empty() {
        return Err(Cause::System(io::Error::from(ErrorKind::NotFound)));
    }
    str::from_utf8(name).map_err(|_| Cause::NotText)
}

/// Refuses anything except a regular file.
fn refuse_special(metadata: &Metadata) -> Result<(), Cause> {
    if metadata.is_file() {
        return Ok(());
    }
    Err(Cause::Special(kind_of(metadata)))
}

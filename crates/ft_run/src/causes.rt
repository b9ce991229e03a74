// Why the system has not done what it was asked for.
use ft_copy::CopyFault;
use ft_path::LONGEST_PATH;
use ft_script::write_out;
use std::cell::Cell;
use std::io;
use std::io::{ErrorKind, Read, Write};

/// Why the system has not done what it was asked for last, if it has not.
#[derive(Drop)]
pub struct Causes {
    last: Cell<Option<ErrorKind>>,
}

impl Causes {
    /// It has done all.
    pub fn new() -> Causes {
        Causes {
            last: Cell::new(None),
        }
    }

    /// It has not done something.
    pub fn note(&self, error: &io::Error) {
        self.last.set(Some(error.kind()));
    }

    /// That does not matter any more.
    pub fn forget(&self) {
        self.last.set(None);
    }

    /// Returns why it has not, if that is known.
    pub fn last(&self) -> Option<ErrorKind> {
        self.last.get()
    }

    /// Returns why something was not read. The kit's library reports where a link leads only if
    /// that is UTF-8 text.
    pub fn of_read(&self, error: io::Error) -> CopyFault {
        match error.kind() {
            ErrorKind::OutOfMemory => CopyFault::Memory,
            ErrorKind::InvalidFilename => CopyFault::BadName,
            _ => {
                self.note(&error);
                CopyFault::Read
            }
        }
    }

    /// Returns why something could not be made at a place, of which the path has so many bytes.
    pub fn of_write(&self, length: usize, error: io::Error) -> CopyFault {
        match error.kind() {
            ErrorKind::OutOfMemory => CopyFault::Memory,
            ErrorKind::InvalidFilename if length >= LONGEST_PATH => CopyFault::PathTooLong,
            ErrorKind::InvalidFilename => CopyFault::BadName,
            _ => {
                self.note(&error);
                CopyFault::Write
            }
        }
    }

    /// Prints on standard error, after the line of a fault, why that has come, if it is known.
    pub fn tell(&self, rt: &HostRuntime) {
        if let Some(kind) = self.last.get() {
            if let Ok(line) = format!(in rt.alloc(); "cause: {kind}\n") {
                let _ = write_out(&mut rt.stderr(), line.as_bytes());
            }
        }
    }
}

/// A reader or a writer of which it is noted why it does not read or write.
#[derive(Drop)]
pub struct Noted<'a, F> {
    file: F,
    causes: &'a Causes,
}

impl<'a, F> Noted<'a, F> {
    /// Nothing is read or written yet.
    pub fn new(file: F, causes: &'a Causes) -> Noted<'a, F> {
        Noted { file, causes }
    }
}

impl<F: Read> Read for Noted<'_, F> {
    fn read(&mut self, bytes: &mut [u8]) -> io::Result<usize> {
        match self.file.read(bytes) {
            Ok(count) => Ok(count),
            Err(error) => {
                self.causes.note(&error);
                Err(error)
            }
        }
    }
}

impl<F: Write> Write for Noted<'_, F> {
    fn write(&mut self, bytes: &[u8]) -> io::Result<usize> {
        match self.file.write(bytes) {
            Ok(count) => Ok(count),
            Err(error) => {
                self.causes.note(&error);
                Err(error)
            }
        }
    }

    fn flush(&mut self) -> io::Result<()> {
        self.file.flush()
    }
}

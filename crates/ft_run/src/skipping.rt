// A directory on disk of which what can't be loaded is left out.
use crate::causes::{Causes, Noted};
use crate::disk_source::DiskSource;
use ft_copy::{
    CopyFault, CopyLimits, FileFacts, FolderEntry, Found, Leading, Listing, Opened, Source,
};
use ft_path::LONGEST_PATH;
use ft_script::write_out;
use ft_words::PercentCoded;
use std::alloc::AllocError;
use std::cell::Cell;
use std::fs::File;

/// The reasons to leave something out, in the order in which they are reported at the end.
const REASONS: [CopyFault; 6] = [
    CopyFault::Special,
    CopyFault::TooLarge,
    CopyFault::TooManyLinks,
    CopyFault::PathTooLong,
    CopyFault::BadName,
    CopyFault::Read,
];

/// A directory on disk, which reports what can't be loaded as something special, and leaves that
/// out. To know whether something can be loaded, it is listed, opened or read when it is looked at.
/// At the root nothing is left out.
#[derive(Drop)]
pub struct SkippingSource<'a, 'b> {
    rt: &'a HostRuntime,
    disk: &'b DiskSource<'a>,
    causes: &'a Causes,
    limits: CopyLimits,
    // the most bytes that a path of the directory may have
    longest: usize,
    // whether what is left out is listed on standard output, and not reported on standard error
    is_listed: bool,
    // whether it is reported and counted
    is_told: Cell<bool>,
    // why what was looked at last can't be loaded
    why: Cell<CopyFault>,
    // how much was left out for each reason
    counts: [Cell<u64>; 6],
}

impl<'a, 'b> SkippingSource<'a, 'b> {
    /// Nothing was left out yet, and nothing is reported until `begin`. In a script each path comes
    /// after this one.
    pub fn new(
        rt: &'a HostRuntime,
        disk: &'b DiskSource<'a>,
        causes: &'a Causes,
        limits: CopyLimits,
        top: &[u8],
        is_listed: bool,
    ) -> SkippingSource<'a, 'b> {
        SkippingSource {
            rt,
            disk,
            causes,
            limits,
            longest: LONGEST_PATH.saturating_sub(top.len()),
            is_listed,
            is_told: Cell::new(false),
            why: Cell::new(CopyFault::Special),
            counts: [
                Cell::new(0),
                Cell::new(0),
                Cell::new(0),
                Cell::new(0),
                Cell::new(0),
                Cell::new(0),
            ],
        }
    }

    /// Reports and counts from now on what is left out.
    pub fn begin(&self) {
        self.disk.begin();
        self.is_told.set(true);
    }

    /// Prints how much was left out and why, and returns whether anything was.
    pub fn tell(&self) -> Result<bool, AllocError> {
        let alloc = self.rt.alloc();
        let mut line = String::new(alloc);
        for (reason, count) in REASONS.iter().zip(self.counts.iter()) {
            if count.get() > 0 {
                let front = if line.is_empty() { "left out:" } else { "," };
                let part = format!(in alloc; "{front} {} {reason}", count.get())?;
                line.push_str(part.as_str())?;
            }
        }
        if line.is_empty() {
            return Ok(false);
        }
        line.push('\n')?;
        self.write(line.as_str());
        Ok(true)
    }

    /// Writes a line to the stream that reports what is left out.
    fn write(&self, line: &str) {
        let _ = if self.is_listed {
            write_out(&mut self.rt.stdout(), line.as_bytes())
        } else {
            write_out(&mut self.rt.stderr(), line.as_bytes())
        };
    }

    /// Reports something that is left out, and counts it.
    fn leave_out(&self, path: &[u8], why: CopyFault) -> Result<(), AllocError> {
        self.causes.forget();
        if !self.is_told.get() {
            return Ok(());
        }
        for (reason, count) in REASONS.iter().zip(self.counts.iter()) {
            if *reason == why {
                count.set(count.get().saturating_add(1));
            }
        }
        let path = PercentCoded(path);
        let line = if self.is_listed {
            format!(in self.rt.alloc(); "{why} {path}\n")?
        } else {
            format!(in self.rt.alloc(); "left out: {path}\n")?
        };
        self.write(line.as_str());
        Ok(())
    }

    /// Looks at a place. Fails for the reason why what is there can't be loaded.
    fn try_out(&self, path: &[u8], node: u64) -> Result<Found, CopyFault> {
        let found = self.disk.look(path, node)?;
        match found {
            Found::Folder(_) => {
                self.disk.names(path, node)?;
            }
            Found::File(file) => {
                self.judge(file.facts)?;
                if file.facts.size > self.limits.file_size {
                    return Err(CopyFault::TooLarge);
                }
                self.disk.open(path, node)?;
            }
            Found::Symlink(facts) => {
                self.judge(facts)?;
                self.disk.read_link(path, node)?;
            }
            Found::Special => return Err(CopyFault::Special),
        }
        Ok(found)
    }

    /// Fails if something has too many names.
    fn judge(&self, facts: FileFacts) -> Result<(), CopyFault> {
        if facts.links > self.limits.links {
            return Err(CopyFault::TooManyLinks);
        }
        Ok(())
    }

    /// Leaves out a name of a directory if it makes the path too long, and returns whether it does.
    fn is_too_long(&self, path: &[u8], listed: &FolderEntry) -> Result<bool, CopyFault> {
        let name = listed.name.as_bytes();
        if path.len().saturating_add(name.len()) < self.longest {
            return Ok(false);
        }
        let mut child = Vec::from_slice(self.rt.alloc(), path)?;
        child.push(b'/')?;
        child.extend_from_slice(name)?;
        self.leave_out(child.as_slice(), CopyFault::PathTooLong)?;
        Ok(true)
    }
}

impl<'a> Source for SkippingSource<'a, '_> {
    type File = Noted<'a, File>;

    fn names(&self, path: &[u8], node: u64) -> Result<Listing, CopyFault> {
        let listing = self.disk.names(path, node)?;
        let mut names = Vec::new(self.rt.alloc());
        for listed in listing.names {
            if !self.is_too_long(path, &listed)? {
                names.push(listed)?;
            }
        }
        Ok(Listing {
            id: listing.id,
            names,
        })
    }

    fn look(&self, path: &[u8], node: u64) -> Result<Found, CopyFault> {
        if path.is_empty() {
            return self.disk.look(path, node);
        }
        match self.try_out(path, node) {
            Err(CopyFault::Memory) => Err(CopyFault::Memory),
            Err(why) => {
                self.why.set(why);
                Ok(Found::Special)
            }
            Ok(found) => Ok(found),
        }
    }

    fn open(&self, path: &[u8], node: u64) -> Result<Opened<Noted<'a, File>>, CopyFault> {
        self.disk.open(path, node)
    }

    fn read_link(&self, path: &[u8], node: u64) -> Result<Leading, CopyFault> {
        self.disk.read_link(path, node)
    }

    fn omits(&self, path: &[u8]) -> Result<bool, CopyFault> {
        self.leave_out(path, self.why.get())?;
        Ok(true)
    }
}

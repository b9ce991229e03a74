// How files and directories on disk are given their modes, owners and times.
use ft_cells::{Attributes, Timestamp};
use std::alloc::{AllocError, Global};
use std::fs::{File, Metadata, Permissions};
use std::io::ErrorKind;
use std::os::unix::fs::{MetadataExt, PermissionsExt, fchown};
use std::time::{Duration, SystemTime, UNIX_EPOCH};
use std::{fs, io};

/// The mode bit S_ISGID. S_ISUID is the only one above it.
const SET_GROUP_ID: u16 = 0o2000;

/// A directory that belongs to the user who runs this.
const SELF: &str = "/proc/self/";

/// Gives open files and directories what they are to have, and counts what could not be kept.
///
/// Only the superuser gives owners and groups, as with tar, and if the system refuses one, all else
/// goes on. A file or directory that does not get its owner and its group has no S_ISUID and
/// S_ISGID.
#[derive(Drop)]
pub struct Giving {
    // whether owners and groups are set
    gives_owners: bool,
    // the time of files that have none
    moment: Option<SystemTime>,
    // how many files and directories have another owner or another group
    owners_lost: u64,
    // how many files have another time
    times_lost: u64,
}

impl Giving {
    /// Owners and groups are set if that is wanted, by the superuser. Then the directory at this
    /// place, which was made before, belongs to the superuser. Files that have no time get that of
    /// now.
    pub fn new(rt: &HostRuntime, wants_owners: bool, made: &str) -> Giving {
        let is_superuser = fs::symlink_metadata(rt, made).is_ok_and(|made| made.uid() == 0);
        Giving {
            gives_owners: wants_owners && is_superuser,
            moment: SystemTime::now(rt).ok(),
            owners_lost: 0,
            times_lost: 0,
        }
    }

    /// Returns the same for a directory that exists. Owners are set if the superuser runs this.
    pub fn into(rt: &HostRuntime, wants_owners: bool) -> Giving {
        Giving::new(rt, wants_owners, SELF)
    }

    /// Gives an open file or directory its mode, its owner and its group, and its S_ISUID and
    /// S_ISGID last, since a change of the owner removes these. Whoever may give owners may perhaps
    /// set no mode after that.
    pub fn give(&mut self, file: &File, attributes: Attributes) -> io::Result<()> {
        set_mode(file, attributes.mode % SET_GROUP_ID)?;
        if self.own(file, attributes)? && attributes.mode >= SET_GROUP_ID {
            set_mode(file, attributes.mode)?;
        }
        Ok(())
    }

    /// Gives a file or directory its owner and its group, and returns whether it has them.
    fn own(&mut self, file: &File, attributes: Attributes) -> io::Result<bool> {
        if is_owned(&file.metadata()?, attributes) {
            return Ok(true);
        }
        if !self.gives_owners {
            return Ok(false);
        }
        let is_given = match fchown(file, Some(attributes.owner), Some(attributes.group)) {
            Ok(()) => is_owned(&file.metadata()?, attributes),
            Err(error) if is_refused(&error) => false,
            Err(error) => return Err(error),
        };
        if !is_given {
            self.owners_lost = self.owners_lost.saturating_add(1);
        }
        Ok(is_given)
    }

    /// Gives an open file the time of its bytes, and the present moment if there is none which the
    /// system can be given. It is read back, since a file system may cut what it has no room for.
    pub fn set_time(&mut self, file: &File, time: Option<Timestamp>) -> io::Result<()> {
        let is_set = match time.and_then(system_time).or(self.moment) {
            Some(set) => file.set_modified(set).is_ok(),
            None => true,
        };
        let is_kept = match time {
            Some(time) => is_timed(&file.metadata()?, time),
            None => is_set,
        };
        if !is_kept {
            self.times_lost = self.times_lost.saturating_add(1);
        }
        Ok(())
    }

    /// Returns what could not be kept, in lines.
    pub fn losses(&self, alloc: Global) -> Result<String, AllocError> {
        let mut lines = String::new(alloc);
        if self.owners_lost > 0 {
            let line = format!(in alloc; "owners not kept: {}\n", self.owners_lost)?;
            lines.push_str(line.as_str())?;
        }
        if self.times_lost > 0 {
            let line = format!(in alloc; "times not kept: {}\n", self.times_lost)?;
            lines.push_str(line.as_str())?;
        }
        Ok(lines)
    }
}

/// Returns whether the superuser runs this, if the system shows processes in `/proc`.
pub fn is_superuser(rt: &HostRuntime) -> bool {
    fs::symlink_metadata(rt, SELF).is_ok_and(|of_self| of_self.uid() == 0)
}

/// Sets the mode of an open file or directory.
fn set_mode(file: &File, mode: u16) -> io::Result<()> {
    file.set_permissions(Permissions::from_mode(u32::from(mode)))
}

/// Returns whether something has this owner and this group.
fn is_owned(metadata: &Metadata, attributes: Attributes) -> bool {
    metadata.uid() == attributes.owner && metadata.gid() == attributes.group
}

/// Returns whether the bytes of something have this time.
fn is_timed(metadata: &Metadata, time: Timestamp) -> bool {
    metadata.mtime() == time.seconds && metadata.mtime_nsec() == i64::from(time.nanoseconds)
}

/// Returns whether the system lets nobody, or not this process, set such an owner. The process may
/// lack the right to, the user namespace may lack the owner, or the file system may have no owners.
fn is_refused(error: &io::Error) -> bool {
    matches!(
        error.kind(),
        ErrorKind::PermissionDenied | ErrorKind::InvalidInput | ErrorKind::Unsupported
    )
}

/// Returns a time as the system's. Returns `None` before 1970, since no `SystemTime` here is
/// earlier.
fn system_time(time: Timestamp) -> Option<SystemTime> {
    let seconds = u64::try_from(time.seconds).ok()?;
    UNIX_EPOCH.checked_add(Duration::new(seconds, time.nanoseconds))
}

// Measures of calls on a tree.
use crate::failed::Failed;
use crate::growth::Growth;
use crate::paths::{Level, Place, path};
use ft_calls::{Call, OpenFlags, Reply, Whence};
use ft_path::FilePath;
use ft_tree::AccessMode;
use std::alloc::Global;
use std::mem;

/// A measure that is repeated.
#[derive(Clone, Copy, PartialEq, Eq)]
pub enum Measure {
    /// The path of a call is made, and no call: what the others take besides their calls.
    Text,
    /// A directory is looked at by `stat`, and nothing is changed.
    Stat,
    /// A directory is made.
    Mkdir,
    /// A directory gets another mode.
    Chmod,
    /// A directory is asked for that is there.
    Refused,
    /// An open file's offset is set, for which nothing new is stored.
    Lseek,
    /// The tree is copied, and a directory made in the copy.
    Copy,
    /// The tree is copied, a directory is made in the copy, and it is undone there.
    Revert,
}

impl Measure {
    /// The one of this name.
    pub fn named(name: &str) -> Option<Measure> {
        match name {
            "text" => Some(Measure::Text),
            "stat" => Some(Measure::Stat),
            "mkdir" => Some(Measure::Mkdir),
            "chmod" => Some(Measure::Chmod),
            "refused" => Some(Measure::Refused),
            "lseek" => Some(Measure::Lseek),
            "copy" => Some(Measure::Copy),
            "revert" => Some(Measure::Revert),
            _ => None,
        }
    }

    /// The path of one of the directories, or of a new one alongside it.
    fn path(self, alloc: Global, place: Place, index: u64) -> Result<FilePath, Failed> {
        let level = match self {
            Measure::Stat | Measure::Chmod | Measure::Refused => Level::Third,
            _ => Level::Beside(index),
        };
        place.path(alloc, level)
    }

    /// Does it once with a path, and returns whether that went well.
    fn take_at(self, growth: &mut Growth, fd: u64, path: FilePath) -> Result<bool, Failed> {
        let call = match self {
            Measure::Stat => Call::Stat { path },
            Measure::Chmod => Call::Chmod { mode: 0o700, path },
            _ => Call::Mkdir { path, mode: None },
        };
        self.take(growth, fd, &call)
    }

    /// Does the measure once, and returns whether it went well.
    fn take(self, growth: &mut Growth, fd: u64, call: &Call) -> Result<bool, Failed> {
        match self {
            Measure::Text => Ok(true),
            Measure::Stat => Ok(growth.accesses(call)? == 4),
            Measure::Mkdir | Measure::Chmod => growth.does(call),
            Measure::Refused => Ok(!growth.does(call)?),
            Measure::Lseek => Ok(seek(growth, fd)? == 1),
            Measure::Copy => growth.does_on_copy(call, false),
            Measure::Revert => growth.does_on_copy(call, true),
        }
    }
}

/// Sets the offset of an open file to 1, and returns it.
fn seek(growth: &mut Growth, fd: u64) -> Result<u64, Failed> {
    let call = Call::Lseek {
        fd,
        whence: Whence::Set,
        off: 1,
    };
    number(growth, &call)
}

/// Makes the file `/f`, and returns its descriptor.
fn open(alloc: Global, growth: &mut Growth) -> Result<u64, Failed> {
    let path = path(alloc, b"/f".as_slice())?;
    let call = Call::Open {
        path,
        flags: OpenFlags {
            access: AccessMode::ReadWrite,
            create: true,
            excl: false,
            trunc: false,
            append: false,
            mode: None,
        },
    };
    number(growth, &call)
}

/// Returns the number in the reply to a call.
fn number(growth: &mut Growth, call: &Call) -> Result<u64, Failed> {
    match growth.perform(call)? {
        Reply::Number(number) => Ok(number),
        _ => Err(Failed::Call),
    }
}

/// Does a measure `count` times, over a tree of this size, each time at another directory, and
/// returns how often it went well.
fn run_on(
    alloc: Global,
    growth: &mut Growth,
    measure: Measure,
    count: u64,
    size: u64,
) -> Result<u64, Failed> {
    let fd = open(alloc, growth)?;
    let mut done: u64 = 0;
    for index in 0..count {
        let path = measure.path(alloc, Place::among(index, size), index)?;
        if measure.take_at(growth, fd, path)? {
            done = done.wrapping_add(1);
        }
    }
    Ok(done)
}

/// Does a measure `count` times, over a new tree of this size, each time at another directory.
/// Returns how often it went well.
pub fn run(alloc: Global, measure: Measure, count: u64, size: u64) -> Result<u64, Failed> {
    let mut growth = Growth::new(alloc, size)?;
    let done = run_on(alloc, &mut growth, measure, count, size);
    // To drop the tree is no part of a call.
    mem::forget(growth);
    done
}

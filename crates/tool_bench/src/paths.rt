// The paths of the directories that are made and looked at.
use crate::failed::Failed;
use ft_path::{FilePath, PathFault};
use std::alloc::Global;

/// The place of a directory: ten in each of the second level, and a hundred of these in each of the
/// first.
#[derive(Clone, Copy)]
pub struct Place {
    first: u64,
    second: u64,
    third: u64,
}

/// How many components of a path are meant, or a new name alongside the directories of the third
/// level.
#[derive(Clone, Copy)]
pub enum Level {
    First,
    Second,
    Third,
    /// A name of its own for each number.
    Beside(u64),
}

impl Place {
    /// The place of the directory of this number.
    pub fn of(index: u64) -> Place {
        Place {
            first: index / 1000,
            second: index / 10 % 100,
            third: index % 10,
        }
    }

    /// One of so many directories, each time another one.
    pub fn among(index: u64, size: u64) -> Place {
        Place::of(index.wrapping_mul(7919).checked_rem(size).unwrap_or(0))
    }

    /// From which level on the directory is the first one there, so that those above it must be
    /// made too.
    pub fn new_levels(self) -> &'static [Level] {
        match (self.second, self.third) {
            (0, 0) => &[Level::First, Level::Second, Level::Third],
            (_, 0) => &[Level::Second, Level::Third],
            _ => &[Level::Third],
        }
    }

    /// The path of the directory, or of the one above it at a level.
    pub fn path(self, alloc: Global, level: Level) -> Result<FilePath, Failed> {
        let Place {
            first,
            second,
            third,
        } = self;
        let text = match level {
            Level::First => format!(in alloc; "/a{first}")?,
            Level::Second => format!(in alloc; "/a{first}/b{second}")?,
            Level::Third => format!(in alloc; "/a{first}/b{second}/c{third}")?,
            Level::Beside(number) => format!(in alloc; "/a{first}/b{second}/n{number}")?,
        };
        path(alloc, text.as_bytes())
    }
}

/// The path of these bytes.
pub fn path(alloc: Global, bytes: &[u8]) -> Result<FilePath, Failed> {
    match FilePath::new(alloc, bytes) {
        Ok(path) => Ok(path),
        Err(PathFault::Memory) => Err(Failed::Memory),
        Err(PathFault::NulByte) => Err(Failed::Call),
    }
}

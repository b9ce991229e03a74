// Modes and owners, and the times of the bytes of files.
ghost use Rattle.std.specs.Prelude.{◌≡◌};
ghost use Rattle.ft_cells.specs.Attributes.{default_attributes, kept_attributes};

use crate::node::Kind;

/// The largest mode. It has twelve bits (POSIX.1-2017, Base Definitions, sys/stat.h: `S_IRWXU`,
/// `S_IRWXG`, `S_IRWXO`, `S_ISUID`, `S_ISGID` and `S_ISVTX`).
pub const MOST_MODE: u16 = 0o7777;

/// The most nanoseconds that a time has in addition to its seconds (POSIX.1-2017, Base Definitions,
/// time.h: `struct timespec`).
pub const MOST_NANOSECONDS: u32 = 999_999_999;

/// The mode of a directory if none is set, a rule of this project.
pub const DIRECTORY_MODE: u16 = 0o755;

/// The mode of a regular file if none is set, a rule of this project.
pub const FILE_MODE: u16 = 0o644;

/// The mode of a symbolic link, a rule of this project. POSIX leaves this mode open (System
/// Interfaces, lstat), and it has no meaning.
pub const LINK_MODE: u16 = 0o777;

/// The mode and the owners of a directory or file (POSIX.1-2017, Base Definitions, sys/stat.h:
/// `st_mode`, `st_uid` and `st_gid`).
///
/// They are not used to check access. A tree is that of a process with appropriate privileges (4.5
/// File Access Permissions).
#[derive(Clone, Copy, Debug, PartialEq, Eq)]
pub struct Attributes {
    /// The file mode bits.
    pub mode: u16,
    /// The user that owns the directory or file.
    pub owner: u32,
    /// The group of the directory or file.
    pub group: u32,
}

impl Attributes {
    /// Returns the attributes that a directory or file of a kind has if none are set. Its owner and
    /// group are 0, a rule of this project.
    pub fn of(kind: Kind) -> Attributes
        ensures { result ≡ default_attributes kind }
    {
        let mode = match kind {
            Kind::Dir => DIRECTORY_MODE,
            Kind::File => FILE_MODE,
            Kind::Link => LINK_MODE,
        };
        Attributes {
            mode,
            owner: 0,
            group: 0,
        }
    }

    /// Returns what is stored of these attributes for a directory or file of a kind: nothing, if
    /// they are the defaults of that kind.
    pub fn kept(self, kind: Kind) -> Option<Attributes>
        ensures { result ≡ kept_attributes kind self }
    {
        if self == Attributes::of(kind) {
            None
        } else {
            Some(self)
        }
    }
}

/// A time since the Epoch (POSIX.1-2017, Base Definitions, time.h: `struct timespec`).
#[derive(Clone, Copy, Debug, PartialEq, Eq)]
pub struct Timestamp {
    /// Whole seconds. The number is negative before the Epoch.
    pub seconds: i64,
    /// Nanoseconds in addition to the seconds.
    pub nanoseconds: u32,
}

// The error numbers of the calls, by name.
ghost use Rattle.std.specs.Prelude.{◌≡◌, Some};
ghost use Rattle.ft_path.specs.Errno.{errno_name};

use std::error::Error;
use std::fmt;

/// Why a call has failed: an error of POSIX.1-2017, System Interfaces, 2.3 (Error Numbers).
#[derive(Clone, Copy, Debug, PartialEq, Eq)]
pub enum Errno {
    /// No such file or directory.
    ENOENT,
    /// Not a directory.
    ENOTDIR,
    /// File exists.
    EEXIST,
    /// Is a directory.
    EISDIR,
    /// Directory not empty.
    ENOTEMPTY,
    /// Invalid argument.
    EINVAL,
    /// Operation not permitted.
    EPERM,
    /// Resource busy.
    EBUSY,
    /// Too many links.
    EMLINK,
    /// Filename too long.
    ENAMETOOLONG,
    /// Bad file descriptor.
    EBADF,
    /// File too large.
    EFBIG,
    /// Value too large to be stored in its type.
    EOVERFLOW,
    /// Too many levels of symbolic links.
    ELOOP,
}

impl Errno {
    /// Returns the name of the error, for example `ENOENT`.
    pub fn name(self) -> &'static str
        ensures { result.now ≡ errno_name self }
    {
        match self {
            Errno::ENOENT => "ENOENT",
            Errno::ENOTDIR => "ENOTDIR",
            Errno::EEXIST => "EEXIST",
            Errno::EISDIR => "EISDIR",
            Errno::ENOTEMPTY => "ENOTEMPTY",
            Errno::EINVAL => "EINVAL",
            Errno::EPERM => "EPERM",
            Errno::EBUSY => "EBUSY",
            Errno::EMLINK => "EMLINK",
            Errno::ENAMETOOLONG => "ENAMETOOLONG",
            Errno::EBADF => "EBADF",
            Errno::EFBIG => "EFBIG",
            Errno::EOVERFLOW => "EOVERFLOW",
            Errno::ELOOP => "ELOOP",
        }
    }
}

impl fmt::Display for Errno {
    ghost output = { λ errno. Some (errno_name errno) };

    fn fmt<W: fmt::Write>(&self, f: &mut fmt::Formatter<W>) -> fmt::Result {
        f.write_str(self.name())
    }
}

impl Error for Errno {}

// Calls, their replies and their accesses.
ghost use Rattle.std.specs.Prelude.{◌≡◌, IfOk};

use ft_base::{Memory, Sequence};
use ft_path::{Errno, FilePath, Name};
use ft_tree::{AccessMode, Attributes, Cell, Kind, OpenFile, Timestamp};
use std::alloc::Global;

/// A call with its arguments.
///
/// A call on a path can fail with the fault of the text or the fault of the look-up. The fault of
/// the text is ENOENT for an empty path, and ENAMETOOLONG for a path of more than 4,095 bytes or
/// with a component of more than 255. The text of a target that is followed has the same faults.
///
/// The fault of the look-up is ENOENT for a missing directory on the way. It is ENOTDIR for a
/// regular file on the way or before a trailing slash, and ELOOP for more than 40 symbolic links.
/// The fault of the text is tested before that of the look-up. The errors of each call are listed
/// in the order in which they are tested.
///
/// A symbolic link on the way or before a trailing slash is followed. `List`, `Open`, `Truncate`,
/// `Stat`, `Chmod`, `Chown` and `Utime` also follow a link that is the last component, except for
/// an `Open` with `create` and `excl`. The other calls act on a last symbolic link itself.
///
/// No call depends on its caller: each call has appropriate privileges (Base Definitions, 4.5). A
/// mode is the 12 bits of sys/stat.h (S_IRWXU to S_ISVTX). A mode above 07777 is EINVAL, a choice
/// of this project. An owner or a group that is not given stays.
#[derive(Debug, PartialEq, Eq)]
pub enum Call {
    /// Makes a directory without entries, whose number is the call's stamp, and returns `Done`
    /// (POSIX.1-2017, System Interfaces, mkdir). Its mode is the given one, or 0755 if none is
    /// given. Its owner and its group are 0.
    ///
    /// Fails with the fault of the text; EINVAL for a mode above 07777; the fault of the look-up;
    /// EEXIST if the path leads to a directory, a file or a symbolic link, including the root and a
    /// last `.` or `..`. A slash after a missing last name is no fault.
    Mkdir {
        path: FilePath,
        mode: Option<u16>,
    },
    /// Removes an empty directory and its entry, and returns `Done` (POSIX.1-2017, System
    /// Interfaces, rmdir).
    ///
    /// Fails with the fault of the text; EINVAL for a last `.`; ENOTEMPTY for a last `..`; EBUSY
    /// for the root, a path without components; the fault of the look-up; ENOENT if the last name
    /// is missing; ENOTDIR if it is a file; ENOTEMPTY if the directory has an entry; EBUSY if a
    /// symbolic link before a trailing slash leads to the root, or leads to a directory by a last
    /// `.` or `..`. ENOTEMPTY for `..` and EBUSY are choices of this project.
    Rmdir {
        path: FilePath,
    },
    /// Returns all names of a directory at once, as `Names`. POSIX has no such call. It takes the
    /// place of opendir and a readdir of all entries except `.` and `..`.
    ///
    /// Fails with the fault of the text; the fault of the look-up; ENOENT if the last name is
    /// missing; ENOTDIR if it is a file.
    List {
        path: FilePath,
    },
    /// Opens a file and returns the new descriptor as `Number`. The descriptor is the call's stamp,
    /// and its description is at offset 0 (POSIX.1-2017, System Interfaces, open).
    ///
    /// With `create` a missing file is made, whose number is also the stamp. Its mode is the given
    /// one, or 0644 if none is given. Its owner and its group are 0, and it has no time. With
    /// `trunc` an existing file is cut to size 0 and loses its time. With `append` each write goes
    /// to the end of the file. `append` without writing is kept and has no other effect. If no file
    /// is made, a mode up to 07777 has no effect.
    ///
    /// Fails with the fault of the text; EINVAL for `trunc` without writing or a mode above 07777;
    /// the fault of the look-up; ENOENT if the last name is missing and `create` is not set or a
    /// slash follows the name; EEXIST if it exists, with `create` and `excl`; EISDIR for a
    /// directory. Three rules are choices of this project: `excl` has no effect without `create`,
    /// EINVAL, and EISDIR for every access.
    Open {
        path: FilePath,
        flags: OpenFlags,
    },
    /// Closes a descriptor and returns `Done` (POSIX.1-2017, System Interfaces, close).
    ///
    /// Fails with EBADF if it is not open.
    Close {
        fd: u64,
    },
    /// Reads at most `len` bytes at the offset, and returns them as `Bytes`. The offset moves by
    /// their count. At or past the end there are none (POSIX.1-2017, System Interfaces, read).
    ///
    /// Fails with EBADF if the descriptor is not open, or not for reading.
    Read {
        fd: u64,
        len: u64,
    },
    /// Writes at the offset, or with append at the end of the file, and returns the count of
    /// written bytes as `Number`. It writes as many bytes as have room below the size limit. A gap
    /// before them is filled with zeros. The offset becomes the end of the written bytes, and the
    /// file loses its time. A write of no bytes changes nothing (POSIX.1-2017, System Interfaces,
    /// write).
    ///
    /// Fails with EBADF if the descriptor is not open, or not for writing; EFBIG if there are bytes
    /// and the place is at the size limit or past it.
    Write {
        fd: u64,
        bytes: Sequence<u8>,
    },
    /// Reads at most `len` bytes at `off`, and returns them as `Bytes`. The offset stays
    /// (POSIX.1-2017, System Interfaces, pread).
    ///
    /// Fails with EBADF if the descriptor is not open, or not for reading; EINVAL if `off` is
    /// negative.
    Pread {
        fd: u64,
        off: i64,
        len: u64,
    },
    /// Writes at `off`, even with append. The offset stays. In all else it does what `Write` does
    /// (POSIX.1-2017, System Interfaces, pwrite).
    ///
    /// Fails with EBADF if the descriptor is not open, or not for writing; EINVAL if `off` is
    /// negative; EFBIG if there are bytes and `off` is at the size limit or past it.
    Pwrite {
        fd: u64,
        off: i64,
        bytes: Sequence<u8>,
    },
    /// Sets the offset to `off` from the start, the offset or the end, and returns it as `Number`
    /// (POSIX.1-2017, System Interfaces, lseek).
    ///
    /// Fails with EBADF if the descriptor is not open; EINVAL if the result is negative; EOVERFLOW
    /// if it is above 2^63 - 1.
    Lseek {
        fd: u64,
        whence: Whence,
        off: i64,
    },
    /// Cuts a file to a length, or adds zeros up to it, and returns `Done`. The file loses its time
    /// (POSIX.1-2017, System Interfaces, truncate).
    ///
    /// Fails with the fault of the text; EINVAL if `len` is negative; EFBIG if it is above the size
    /// limit; the fault of the look-up; ENOENT if the last name is missing; EISDIR for a directory.
    Truncate {
        len: i64,
        path: FilePath,
    },
    /// Does to a descriptor's file what `Truncate` does (POSIX.1-2017, System Interfaces,
    /// ftruncate).
    ///
    /// Fails with EBADF if the descriptor is not open, or not for writing; EINVAL if `len` is
    /// negative; EFBIG if it is above the size limit. EBADF is a choice of this project.
    Ftruncate {
        fd: u64,
        len: i64,
    },
    /// Returns what a path leads to, as `Info` (POSIX.1-2017, System Interfaces, stat).
    ///
    /// Fails with the fault of the text; the fault of the look-up; ENOENT if the last name is
    /// missing.
    Stat {
        path: FilePath,
    },
    /// Returns what a descriptor has open, as `Info` (POSIX.1-2017, System Interfaces, fstat).
    ///
    /// Fails with EBADF if the descriptor is not open.
    Fstat {
        fd: u64,
    },
    /// Makes another entry for a file, and returns `Done` (POSIX.1-2017, System Interfaces, link).
    ///
    /// Fails with the fault of the text of `old`, then of `new`; the fault of the look-up of `old`;
    /// ENOENT if `old` is missing; EPERM if it is a directory; the fault of the look-up of `new`;
    /// EEXIST if `new` leads to a directory or file; ENOENT if it is missing and a slash follows
    /// it; EMLINK if the file has as many links as the tree allows.
    Link {
        old: FilePath,
        new: FilePath,
    },
    /// Removes an entry of a file, and returns `Done`. A file without entries remains while a
    /// descriptor has it open (POSIX.1-2017, System Interfaces, unlink).
    ///
    /// Fails with the fault of the text; the fault of the look-up; ENOENT if the last name is
    /// missing; EPERM for a directory.
    Unlink {
        path: FilePath,
    },
    /// Gives a file or a directory another name, and returns `Done`. Whatever had that name is
    /// replaced. If both names lead to the same file or directory, nothing changes (POSIX.1-2017,
    /// System Interfaces, rename).
    ///
    /// Fails with the fault of the text of `old`, then of `new`; EINVAL if the last component of
    /// one of them is `.` or `..`; EBUSY if one of them is the root; the fault of the look-up of
    /// `old`; ENOENT if `old` is missing; the fault of the look-up of `new`; ENOTDIR if `old` is a
    /// file, `new` is missing and a slash follows it; EISDIR for a file in place of a directory,
    /// and ENOTDIR for a directory in place of a file; EINVAL for a directory that would come to be
    /// below itself; ENOTEMPTY in place of a directory that has an entry.
    ///
    /// EBUSY also occurs for a symbolic link before a trailing slash that leads to the root, or
    /// leads to a directory by a last `.` or `..`. EBUSY and this order are choices of this
    /// project.
    Rename {
        old: FilePath,
        new: FilePath,
    },
    /// Makes a symbolic link that holds a target, and returns `Done`. Its number is the call's
    /// stamp. The target may lead anywhere (POSIX.1-2017, System Interfaces, symlink).
    ///
    /// Fails with the fault of the text of `path`; ENOENT for a target of no bytes, and
    /// ENAMETOOLONG for a target of more than 4,095; the fault of the look-up; EEXIST if the path
    /// leads to a directory, a file or a symbolic link; ENOENT if the last name is missing and a
    /// slash follows it. ENOENT for no bytes is a choice of this project.
    Symlink {
        target: FilePath,
        path: FilePath,
    },
    /// Returns the target of a symbolic link, as `Bytes` (POSIX.1-2017, System Interfaces,
    /// readlink).
    ///
    /// Fails with the fault of the text; the fault of the look-up; ENOENT if the last name is
    /// missing; EINVAL for anything that is not a symbolic link.
    Readlink {
        path: FilePath,
    },
    /// Returns what a path leads to, as `Stat` does, except that a last symbolic link is not
    /// followed. The size of a link is that of its target (POSIX.1-2017, System Interfaces, lstat).
    ///
    /// Fails as `Stat` does.
    Lstat {
        path: FilePath,
    },
    /// Sets the mode of a directory or a file, and returns `Done`. Its owner and its group stay
    /// (POSIX.1-2017, System Interfaces, chmod).
    ///
    /// Fails with the fault of the text; EINVAL for a mode above 07777; the fault of the look-up;
    /// ENOENT if the last name is missing.
    Chmod {
        mode: u16,
        path: FilePath,
    },
    /// Does to a descriptor's file what `Chmod` does (POSIX.1-2017, System Interfaces, fchmod).
    ///
    /// Fails with EBADF if the descriptor is not open; EINVAL for a mode above 07777.
    Fchmod {
        fd: u64,
        mode: u16,
    },
    /// Sets the owner and the group of a directory or a file, if they are given, and returns
    /// `Done`. Its mode stays, including the bits S_ISUID and S_ISGID (POSIX.1-2017, System
    /// Interfaces, chown).
    ///
    /// Fails with the fault of the text; the fault of the look-up; ENOENT if the last name is
    /// missing.
    Chown {
        owner: Option<u32>,
        group: Option<u32>,
        path: FilePath,
    },
    /// Does what `Chown` does, except that a last symbolic link is not followed. The owner and the
    /// group of a link are 0 and stay so (POSIX.1-2017, System Interfaces, lchown).
    ///
    /// Fails as `Chown` does, and then with EINVAL for a link that would get another owner or
    /// another group.
    Lchown {
        owner: Option<u32>,
        group: Option<u32>,
        path: FilePath,
    },
    /// Does to a descriptor's file what `Chown` does (POSIX.1-2017, System Interfaces, fchown).
    ///
    /// Fails with EBADF if the descriptor is not open.
    Fchown {
        fd: u64,
        owner: Option<u32>,
        group: Option<u32>,
    },
    /// Sets the time of a file's bytes, and returns `Done`. The time stays until the bytes are
    /// changed (POSIX.1-2017, System Interfaces, utimensat, for the last data modification).
    ///
    /// Fails with the fault of the text; EINVAL for 1,000,000,000 nanoseconds or more; the fault of
    /// the look-up; ENOENT if the last name is missing; EINVAL for a directory, whose time is not
    /// kept, a choice of this project.
    Utime {
        time: Timestamp,
        path: FilePath,
    },
    /// Does what `Utime` does, except that a last symbolic link is not followed. The time of a link
    /// is not kept either (POSIX.1-2017, System Interfaces, utimensat with AT_SYMLINK_NOFOLLOW).
    ///
    /// Fails as `Utime` does, and also with EINVAL for a symbolic link.
    Lutime {
        time: Timestamp,
        path: FilePath,
    },
    /// Does to a descriptor's file what `Utime` does (POSIX.1-2017, System Interfaces, futimens).
    ///
    /// Fails with EBADF if the descriptor is not open; EINVAL for 1,000,000,000 nanoseconds or
    /// more.
    Futime {
        fd: u64,
        time: Timestamp,
    },
}

impl Drop for Call {
    fn drop(self) {
        match self {
            Call::Mkdir { path: _, mode: _ }
            | Call::Rmdir { path: _ }
            | Call::List { path: _ }
            | Call::Open { path: _, flags: _ }
            | Call::Close { fd: _ }
            | Call::Read { fd: _, len: _ }
            | Call::Write { fd: _, bytes: _ }
            | Call::Pread {
                fd: _,
                off: _,
                len: _,
            }
            | Call::Pwrite {
                fd: _,
                off: _,
                bytes: _,
            }
            | Call::Lseek {
                fd: _,
                whence: _,
                off: _,
            }
            | Call::Truncate { len: _, path: _ }
            | Call::Ftruncate { fd: _, len: _ }
            | Call::Stat { path: _ }
            | Call::Fstat { fd: _ }
            | Call::Link { old: _, new: _ }
            | Call::Unlink { path: _ }
            | Call::Rename { old: _, new: _ }
            | Call::Symlink { target: _, path: _ }
            | Call::Readlink { path: _ }
            | Call::Lstat { path: _ }
            | Call::Chmod { mode: _, path: _ }
            | Call::Fchmod { fd: _, mode: _ }
            | Call::Chown {
                owner: _,
                group: _,
                path: _,
            }
            | Call::Lchown {
                owner: _,
                group: _,
                path: _,
            }
            | Call::Fchown {
                fd: _,
                owner: _,
                group: _,
            }
            | Call::Utime { time: _, path: _ }
            | Call::Lutime { time: _, path: _ }
            | Call::Futime { fd: _, time: _ } => {}
        }
    }
}

/// The point from which an offset counts (POSIX.1-2017, Base Definitions, unistd.h: SEEK_SET,
/// SEEK_CUR and SEEK_END).
#[derive(Clone, Copy, Debug, PartialEq, Eq)]
pub enum Whence {
    /// From the start of the file.
    Set,
    /// From the offset of the description.
    Cur,
    /// From the end of the file.
    End,
}

/// How a file is opened (POSIX.1-2017, Base Definitions, fcntl.h).
#[derive(Clone, Copy, Debug, PartialEq, Eq)]
pub struct OpenFlags {
    /// For reading, writing or both (O_RDONLY, O_WRONLY, O_RDWR).
    pub access: AccessMode,
    /// A missing file is made (O_CREAT).
    pub create: bool,
    /// With `create`: an existing file is refused (O_EXCL).
    pub excl: bool,
    /// The file is cut to size 0 (O_TRUNC).
    pub trunc: bool,
    /// Each write goes to the end of the file (O_APPEND).
    pub append: bool,
    /// The mode of a file that is made, if a mode is given.
    pub mode: Option<u16>,
}

impl OpenFlags {
    ghost use Rattle.std.specs.Prelude.{◌≡◌};
    ghost use Rattle.ft_posix.specs.Files.{is_exclusive, description};

    /// Returns whether an existing file is refused.
    pub fn is_exclusive(self) -> bool
        ensures { result ≡ is_exclusive self }
    {
        self.create && self.excl
    }

    /// Returns the description of a file that is opened with these flags, at offset 0.
    pub fn description(self, file: u64) -> OpenFile
        ensures { result ≡ description self file }
    {
        OpenFile {
            file,
            access: self.access,
            append: self.append,
            offset: 0,
        }
    }
}

/// The facts about a directory, a file or a symbolic link, to which a path leads or which a
/// descriptor has open.
#[derive(Clone, Copy, Debug, PartialEq, Eq)]
pub struct FileInfo {
    /// Whether it is a directory, a file or a symbolic link.
    pub kind: Kind,
    /// Its number.
    pub number: u64,
    /// Its count of links. A directory has one link, a choice of this project.
    pub links: u64,
    /// Its size in bytes. A directory has size 0, a choice of this project.
    pub size: u64,
    /// Its attributes, or none if they are the default ones.
    pub attributes: Option<Attributes>,
    /// The time of its bytes. There is none if none was set, or if the bytes have changed since.
    pub time: Option<Timestamp>,
}

/// The reply of a call.
#[derive(Debug, PartialEq, Eq, Drop)]
pub enum Reply {
    /// The call was made, and there is nothing to report.
    Done,
    /// The names of a directory with the kinds of what they lead to, in the order of their bytes.
    /// `.` and `..` are not among them.
    Names(Sequence<(Name, Kind)>),
    /// A descriptor, an offset, or how many bytes were written.
    Number(u64),
    /// The bytes that were read, or the target of a symbolic link.
    Bytes(Sequence<u8>),
    /// The facts about what a path leads to or a descriptor has open.
    Info(FileInfo),
    /// The call failed with this error and changed nothing.
    Failed(Errno),
}

impl Reply {
    ghost use Rattle.std.specs.Prelude.{◌≡◌, IfOk, OnErr};
    ghost use Rattle.ft_posix.specs.Perform.{IsList};

    /// Returns an equal reply. Out of memory is the only refusal, and only a list can be refused.
    pub fn copy(&self, alloc: Global) -> Result<Reply, Memory>
        ensures ok { IfOk result (λ copy. copy ≡ self.now) }
        ensures lists { OnErr result (IsList self.now) }
    {
        match self {
            Reply::Done => Ok(Reply::Done),
            Reply::Names(names) => copy_names(alloc, names.as_slice()),
            Reply::Number(number) => Ok(Reply::Number(*number)),
            Reply::Bytes(bytes) => Ok(Reply::Bytes(bytes.as_slice().to_vec(alloc)?.into())),
            Reply::Info(info) => Ok(Reply::Info(*info)),
            Reply::Failed(errno) => Ok(Reply::Failed(*errno)),
        }
    }
}

/// Returns a reply of equal names.
fn copy_names(alloc: Global, names: &[(Name, Kind)]) -> Result<Reply, Memory>
    ensures { IfOk result (λ copy. copy ≡ Reply.Names names.now) }
{
    let mut copies = Vec::new(alloc);
    for (name, kind) in names {
        copies.push((name.clone()?, *kind))?;
    }
    Ok(Reply::Names(copies.into()))
}

/// How an access uses its cell. Two accesses conflict if their cells overlap and one of them
/// writes.
#[derive(Clone, Copy, Debug, PartialEq, Eq)]
pub enum Mode {
    /// The cell is looked at.
    Read,
    /// The cell is given a value, even if it is looked at too.
    Write,
}

/// A cell that a call reads or writes.
#[derive(Debug, PartialEq, Eq, Drop)]
pub struct Access {
    pub cell: Cell,
    pub mode: Mode,
}

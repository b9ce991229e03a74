// Copies of calls.
ghost use Rattle.std.specs.Prelude.{◌≡◌, IfOk};

use crate::call::Call;
use ft_base::{Memory, Sequence};
use std::alloc::Global;

impl Call {
    /// Returns an equal call. Out of memory is the only refusal, and only paths and bytes take
    /// memory.
    pub fn copy(&self, alloc: Global) -> Result<Call, Memory>
        ensures { IfOk result (λ copy. copy ≡ self.now) }
    {
        Ok(match self {
            Call::Mkdir { path, mode } => Call::Mkdir {
                path: path.try_clone()?,
                mode: *mode,
            },
            Call::Rmdir { path } => Call::Rmdir {
                path: path.try_clone()?,
            },
            Call::List { path } => Call::List {
                path: path.try_clone()?,
            },
            Call::Open { path, flags } => Call::Open {
                path: path.try_clone()?,
                flags: *flags,
            },
            Call::Close { fd } => Call::Close { fd: *fd },
            Call::Read { fd, len } => Call::Read { fd: *fd, len: *len },
            Call::Write { fd, bytes } => Call::Write {
                fd: *fd,
                bytes: copy_bytes(alloc, bytes)?,
            },
            Call::Pread { fd, off, len } => Call::Pread {
                fd: *fd,
                off: *off,
                len: *len,
            },
            Call::Pwrite { fd, off, bytes } => Call::Pwrite {
                fd: *fd,
                off: *off,
                bytes: copy_bytes(alloc, bytes)?,
            },
            Call::Lseek { fd, whence, off } => Call::Lseek {
                fd: *fd,
                whence: *whence,
                off: *off,
            },
            Call::Truncate { len, path } => Call::Truncate {
                len: *len,
                path: path.try_clone()?,
            },
            Call::Ftruncate { fd, len } => Call::Ftruncate { fd: *fd, len: *len },
            Call::Stat { path } => Call::Stat {
                path: path.try_clone()?,
            },
            Call::Fstat { fd } => Call::Fstat { fd: *fd },
            Call::Link { old, new } => Call::Link {
                old: old.try_clone()?,
                new: new.try_clone()?,
            },
            Call::Unlink { path } => Call::Unlink {
                path: path.try_clone()?,
            },
            Call::Rename { old, new } => Call::Rename {
                old: old.try_clone()?,
                new: new.try_clone()?,
            },
            Call::Symlink { target, path } => Call::Symlink {
                target: target.try_clone()?,
                path: path.try_clone()?,
            },
            Call::Readlink { path } => Call::Readlink {
                path: path.try_clone()?,
            },
            Call::Lstat { path } => Call::Lstat {
                path: path.try_clone()?,
            },
            Call::Chmod { mode, path } => Call::Chmod {
                mode: *mode,
                path: path.try_clone()?,
            },
            Call::Fchmod { fd, mode } => Call::Fchmod {
                fd: *fd,
                mode: *mode,
            },
            Call::Chown { owner, group, path } => Call::Chown {
                owner: *owner,
                group: *group,
                path: path.try_clone()?,
            },
            Call::Lchown { owner, group, path } => Call::Lchown {
                owner: *owner,
                group: *group,
                path: path.try_clone()?,
            },
            Call::Fchown { fd, owner, group } => Call::Fchown {
                fd: *fd,
                owner: *owner,
                group: *group,
            },
            Call::Utime { time, path } => Call::Utime {
                time: *time,
                path: path.try_clone()?,
            },
            Call::Lutime { time, path } => Call::Lutime {
                time: *time,
                path: path.try_clone()?,
            },
            Call::Futime { fd, time } => Call::Futime {
                fd: *fd,
                time: *time,
            },
        })
    }
}

/// Returns equal bytes.
fn copy_bytes(alloc: Global, bytes: &Sequence<u8>) -> Result<Sequence<u8>, Memory>
    ensures { IfOk result (λ copy. copy ≡ bytes.now) }
{
    Ok(bytes.as_slice().to_vec(alloc)?.into())
}

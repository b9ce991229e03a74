//! The calls on a tree as values, their effects by POSIX, and their laws.
//!
//! The rules are those of POSIX.1-2017, System Interfaces (mkdir, rmdir, open, close, read, write,
//! pread, pwrite, lseek, truncate, ftruncate, stat, fstat, link, unlink, rename, symlink, readlink,
//! lstat, chmod, fchmod, chown, lchown, fchown, utimensat, futimens), with Base Definitions, 4.13
//! (Pathname Resolution). The order in which errors are tested is this project's own. `List` is its
//! own too, and takes the place of opendir and readdir.
//!
//! The definitions are in `specs`, and the laws are contracts in `laws`. The lemmas in `proofs` are
//! for the crates that carry the calls out.
#![tactic(auto)]

mod call;
mod copying;
mod intent;
pub mod laws;
mod stamped;

pub use call::{Access, Call, FileInfo, Mode, OpenFlags, Reply, Whence};
pub use intent::{CallError, Edit, Edits, Intent, PlannedReply};
pub use stamped::StampedCall;

/// The largest offset of a description: 2^63 - 1.
pub const LAST_OFFSET: u64 = 9_223_372_036_854_775_807;

//! The twenty-eight calls, carried out as far as a look at the tree. The accesses, the edits and
//! the reply of a call are found before anything is changed.
//!
//! The crate `ft_posix` defines what each call does.
#![tactic(auto)]

mod attributes;
mod descriptors;
mod dirs;
mod draft;
mod files;
mod judging;
mod links;
mod making;
mod offsets;
mod preparing;
mod purpose;
mod symlinks;

pub use ft_posix::{
    Access, Call, Edit, Edits, FileInfo, Intent, LAST_OFFSET, Mode, OpenFlags, PlannedReply, Reply,
    StampedCall, Whence,
};
pub use preparing::{Looked, Prepared, accesses, intend, look_behind, look_over, prepare};

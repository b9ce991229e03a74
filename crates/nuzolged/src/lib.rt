//! A tree inside a program, for C and for languages that call C: exported functions over a handle.
//!
//! `bindings/c/nuzolged.h` declares them, and says what the caller owes. A function carries out one
//! request, and returns the answer in numbers.
#![tactic(auto)]

mod answered;
mod asking;
mod attributes;
mod calls;
mod flags;
mod handle;
pub mod laws;
mod limits;
mod lines;
mod listing;
mod locks;
mod nuz_answer;
mod parts;
mod paths;
mod pointer;
mod transactions;
mod trees;
mod waits;

pub use answered::Answered;
pub use attributes::{
    nuz_chmod, nuz_chown, nuz_fchmod, nuz_fchown, nuz_futime, nuz_lchown, nuz_lutime, nuz_utime,
};
pub use calls::{
    nuz_close, nuz_fstat, nuz_ftruncate, nuz_lseek, nuz_pread, nuz_pwrite, nuz_read, nuz_write,
};
pub use handle::Handle;
pub use limits::Limits;
pub use lines::{nuz_reply, nuz_request};
pub use locks::nuz_locks;
pub use nuz_answer::NuzAnswer;
pub use parts::{nuz_blocker, nuz_bytes, nuz_name};
pub use paths::{
    nuz_link, nuz_list, nuz_list_all, nuz_lstat, nuz_mkdir, nuz_open, nuz_readlink, nuz_rename,
    nuz_rmdir, nuz_stat, nuz_symlink, nuz_truncate, nuz_unlink,
};
pub use pointer::TreePointer;
pub use transactions::{
    nuz_abort, nuz_begin, nuz_begin_sub, nuz_cancel, nuz_checkpoint, nuz_commit, nuz_retry,
    nuz_undo,
};
pub use trees::{
    nuz_tree_close, nuz_tree_fair, nuz_tree_open, nuz_tree_open_with, nuz_tree_seed, nuz_version,
};
pub use waits::{nuz_blockers, nuz_cycle};

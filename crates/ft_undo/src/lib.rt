//! Making calls on a tree, and undoing them.
#![tactic(auto)]

mod action;
mod bytes_undo;
mod entry_was;
mod logs;
mod time_undo;
mod undo;

pub use action::perform;
pub use bytes_undo::BytesUndo;
pub use entry_was::EntryWas;
pub use logs::{LogRecord, Logs};
pub use time_undo::TimeUndo;
pub use undo::{BeforeImage, Undo, apply, revert};

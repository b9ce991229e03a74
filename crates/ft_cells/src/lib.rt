//! The cells of a tree: what each is called and what it may hold.
//!
//! The rules are those of POSIX.1-2017, Base Definitions, 3 (Definitions: Directory, Directory
//! Entry, Empty Directory, File, Link Count, Open File Description, Parent Directory). That
//! directories, files and descriptors have numbers is a rule of this project.
//!
//! The definitions are in `specs`. The lemmas in `proofs` are cited by the crates that store the
//! cells and keep the tree.
#![tactic(auto)]

mod attributes;
mod cell;
mod entry;
mod hint;
mod limits;
mod node;
mod open_file;
mod rare;
mod row;

pub use attributes::{
    Attributes, DIRECTORY_MODE, FILE_MODE, LINK_MODE, MOST_MODE, MOST_NANOSECONDS, Timestamp,
};
pub use cell::Cell;
pub use entry::{Entry, EntryRef};
pub use hint::{Hint, Hinted, seen_in, value_in, with_hint};
pub use limits::TreeLimits;
pub use node::{Form, Found, Kind, Node, PathEnd};
pub use open_file::{AccessMode, OpenFile};
pub use rare::Rare;
pub use row::TreeRow;

/// The limit of bytes in a file if no other is set: a mebibyte, a rule of this project.
pub const DEFAULT_FILE_SIZE: u64 = 1_048_576;

/// The limit of entries that name a file if no other is set, a rule of this project.
pub const DEFAULT_LINKS: u64 = 1_000;

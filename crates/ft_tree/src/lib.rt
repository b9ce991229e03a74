//! A tree of directories and files by its stored cells: where a path leads, what each place holds,
//! and which descriptors are open. One cell is set at a time.
//!
//! The rules are those of POSIX.1-2017, Base Definitions, 3 (Definitions: Directory, Directory
//! Entry, Empty Directory, File, Link Count, Open File Description, Parent Directory, Root
//! Directory) and 4.13 (Pathname Resolution). Two things are rules of this project: directories,
//! files and descriptors have numbers, and the number of the root is 1.
#![tactic(auto)]

mod cursor;
mod front;
mod keeps;
mod reader;
mod rows;
mod tree;

pub use cursor::{Cursor, HintedFile};
pub use front::Front;
pub use ft_cells::{
    AccessMode, Attributes, Cell, Entry, EntryRef, Form, Found, Kind, MOST_MODE, MOST_NANOSECONDS,
    Node, OpenFile, PathEnd, Rare, Timestamp, TreeLimits, TreeRow,
};
pub use ft_inodes::FileUndo;
pub use keeps::Keeps;
pub use reader::{Halt, MOST_FOLLOWED, Reader, Route, Way, walk, walk_from};
pub use tree::{ROOT, Tree};

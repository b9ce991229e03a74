//! The store of directories and files: they are stored as inodes, each under its number.
//!
//! The rules are those of POSIX.1-2017, Base Definitions, 3 (Definitions: Directory, File, File
//! Serial Number, Link Count). That directories and files have numbers is a rule of this project.
#![tactic(auto)]

mod directory;
mod file;
mod inode;
mod inodes;
mod listed;
mod name_index;
mod place;
mod places;

pub use directory::Directory;
pub use file::{File, FileUndo};
pub use inodes::Inodes;
pub use listed::{Directories, Files};

/// The most places of a directory that are searched one after another, without an index.
const FEW_PLACES: usize = 8;

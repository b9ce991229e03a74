//! The open file descriptions of a tree, and whether a file is open.
//!
//! The rules are those of POSIX.1-2017, Base Definitions, 3 (Definitions: Open File Description).
//! That descriptors have numbers of their own, which are not reused, is a rule of this project.
#![tactic(auto)]

mod open_files;

pub use open_files::OpenFiles;

//! The text of paths: names, paths and their components, and the errno names.
//!
//! The rules are those of POSIX.1-2017, Base Definitions, sections 3.170 (Filename), 3.271
//! (Pathname) and 4.13 (Pathname Resolution).
#![tactic(auto)]

mod bytes;
mod errno;
mod front;
mod hash;
mod judged;
mod name;
mod names;
mod path;
mod slashes;
mod words;

pub use errno::Errno;
pub use judged::JudgedPath;
pub use name::Name;
pub use names::Names;
pub use path::{FilePath, LastName, Parts, PartsFault, PathFault, begins_with_slash, target_parts};

/// The most bytes that a name has: {NAME_MAX}.
pub const LONGEST_NAME: usize = 255;

/// The most bytes that a path has: {PATH_MAX} is 4,096, and counts the null byte at the end.
pub const LONGEST_PATH: usize = 4095;

/// A name of at most this many bytes takes no memory. The name itself holds them, with one byte for
/// their number and one that says that they are not on the heap. This makes 24 bytes.
pub const SHORT_NAME: usize = 22;

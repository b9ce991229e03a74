//! The bytes of a file.
//!
//! The rules are those of POSIX.1-2017: Base Definitions, 3.164 (File), and System Interfaces,
//! read, write, lseek and ftruncate. This project adds three rules. A file has at most 2^47 bytes.
//! Its bytes are in blocks of pages. A page of zeros only takes no bytes.
#![tactic(auto)]

mod block;
mod block_undo;
mod blocks;
mod body;
mod buffer;
mod page;
mod pages;
mod spread;
mod undo;

pub use body::Body;
pub use undo::BodyUndo;

/// The most bytes that a file can have, whatever a tree allows. It is 2^47, the number of addresses
/// of a process.
pub const LARGEST_SIZE: u64 = 140_737_488_355_328;

/// How many bytes a page has.
pub const PAGE_SIZE: usize = 4_096;

/// How many bytes a block has: those of 512 pages.
pub(crate) const BLOCK_SIZE: usize = 2_097_152;

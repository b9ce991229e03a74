//! The copy of a tree of directories: the requests to a source that describes one and to a target
//! that makes one, and the walk from the source to the target.
#![tactic(auto)]

mod copy_fault;
mod copying;
mod file;
mod firsts;
mod found;
mod limits;
mod linking;
mod name;
mod source;
mod target;
mod walk;

pub use copy_fault::{CopyFault, CopyStop};
pub use copying::copy;
pub use file::{PIECE, read_piece};
pub use found::{
    CopyPath, FileFacts, FileId, FolderEntry, Found, FoundFile, FoundFolder, Given, Leading,
    Listing, MetLink, Opened, ROOT,
};
pub use limits::CopyLimits;
pub use name::name_of;
pub use source::Source;
pub use target::Target;

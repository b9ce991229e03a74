// The reports of a source.
ghost use Rattle.std.specs.Prelude.{◌≡◌};
ghost use Rattle.ft_copy.specs.Told.{same_file};

use ft_base::Sequence;
use ft_cells::{Attributes, Timestamp};
use ft_path::Name;

/// The number by which a source knows its root.
pub const ROOT: u64 = 1;

/// The identity of a file, a directory or a symbolic link: its device, and its number there.
#[derive(Clone, Copy, Debug, PartialEq, Eq, Hash)]
pub struct FileId {
    pub device: u64,
    pub number: u64,
}

impl FileId {
    /// Returns whether both are the identity of one file.
    pub(crate) fn is(self, other: FileId) -> bool
        ensures { result ≡ same_file self other }
    {
        self.device == other.device && self.number == other.number
    }
}

/// The facts about a file or a symbolic link that are known before it is read.
#[derive(Clone, Copy, Debug, PartialEq, Eq)]
pub struct FileFacts {
    pub id: FileId,
    /// The greatest number of names that it can have, including names elsewhere.
    pub links: u64,
    /// The number of its bytes; for a symbolic link, of its target.
    pub size: u64,
}

/// The attributes and the time of a file: all that it has besides its bytes and its names.
#[derive(Clone, Copy, Debug, PartialEq, Eq)]
pub struct Given {
    pub attributes: Attributes,
    /// The time of its bytes, if there is one.
    pub time: Option<Timestamp>,
}

/// A file that was found.
#[derive(Clone, Copy, Debug, PartialEq, Eq)]
pub struct FoundFile {
    pub facts: FileFacts,
    pub given: Given,
}

/// A directory that was found.
#[derive(Clone, Copy, Debug, PartialEq, Eq)]
pub struct FoundFolder {
    pub id: FileId,
    pub attributes: Attributes,
}

/// The thing that was found at a place.
#[derive(Clone, Copy, Debug, PartialEq, Eq)]
pub enum Found {
    /// A directory.
    Folder(FoundFolder),
    /// A file.
    File(FoundFile),
    /// A symbolic link, which is not followed.
    Symlink(FileFacts),
    /// Something that a tree cannot have: a device, a FIFO or a socket.
    Special,
}

/// The names in a directory, and the identity of the directory that was read for them.
#[derive(Debug, PartialEq, Eq, Drop)]
pub struct Listing {
    pub id: FileId,
    pub names: Vec<FolderEntry>,
}

/// A file that was opened, and its identity.
#[derive(Drop)]
pub struct Opened<F> {
    pub id: FileId,
    pub file: F,
}

/// The target of a symbolic link, and the identity of the link that was read for it.
#[derive(Debug, PartialEq, Eq, Drop)]
pub struct Leading {
    pub id: FileId,
    pub to: Sequence<u8>,
}

/// A name in a directory, and the number by which the source knows what the name leads to. A source
/// that knows things only by their paths may give any number.
#[derive(Debug, PartialEq, Eq, PartialOrd, Ord, Drop)]
pub struct FolderEntry {
    pub name: Name,
    pub node: u64,
}

/// A place: the path from the root, as `/a/b`, and the number by which the source knows what is
/// there.
#[derive(Debug, PartialEq, Eq, Drop)]
pub struct CopyPath {
    pub path: Sequence<u8>,
    pub node: u64,
}

/// A symbolic link that was met, and is made after all else.
#[derive(Debug, PartialEq, Eq, Drop)]
pub struct MetLink {
    pub place: CopyPath,
    pub facts: FileFacts,
}

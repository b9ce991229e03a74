// The rows of a tree: its content, line by line.
use crate::attributes::{Attributes, Timestamp};
use crate::entry::Entry;
use crate::node::Node;
use crate::open_file::AccessMode;
use ft_base::Sequence;

/// One line of the content of a tree. The format is this project's own.
#[derive(Debug, PartialEq, Eq, Drop)]
pub enum TreeRow {
    /// A directory that exists: the root, or a directory with a parent.
    Dir {
        number: u64,
    },
    /// An entry of a directory, and what the entry leads to.
    Edge {
        entry: Entry,
        node: Node,
    },
    /// The size and the bytes of a file that exists, which an entry or a description names. The
    /// bytes of a symbolic link are its target.
    File {
        number: u64,
        size: u64,
        bytes: Sequence<u8>,
    },
    /// The mode and the owners of a directory or file that exists, if they are not its defaults.
    Attributes {
        number: u64,
        attributes: Attributes,
    },
    /// The time of the bytes of a file that exists, if the file has one.
    Time {
        file: u64,
        time: Timestamp,
    },
    /// A descriptor that is open, and its open file description.
    Fd {
        fd: u64,
        file: u64,
        access: AccessMode,
        append: bool,
        offset: u64,
    },
}

// The rows of a report of what a tree holds.
use ft_base::Sequence;
use ft_cells::{Attributes, Form, Timestamp};

/// One row of a report of what a tree holds.
#[derive(Debug, PartialEq, Eq, Drop)]
pub enum Row {
    /// A directory.
    Folder {
        node: u64,
    },
    /// A name in a directory, which may be any bytes, and what it leads to.
    Edge {
        folder: u64,
        name: Sequence<u8>,
        node: u64,
    },
    /// A file of a form, regular or a symbolic link, and its bytes: those of a link are where it
    /// leads.
    File {
        node: u64,
        form: Form,
        bytes: Sequence<u8>,
    },
    /// The mode and the owners of a directory or file, if they are not the default ones.
    Attributes {
        node: u64,
        attributes: Attributes,
    },
    /// The time of the bytes of a file.
    Time {
        node: u64,
        time: Timestamp,
    },
    /// A descriptor that is open.
    Descriptor,
}

use crate::entry::Entry;

/// The kind of what a number names. The kind of a number never changes.
#[derive(Clone, Copy, Debug, PartialEq, Eq)]
pub enum Kind {
    /// A directory.
    Dir,
    /// A regular file.
    File,
    /// A symbolic link.
    Link,
}

/// The form of a file that is not a directory (POSIX.1-2017, Base Definitions, 3, File).
#[derive(Clone, Copy, Debug, PartialEq, Eq)]
pub enum Form {
    /// A regular file.
    Regular,
    /// A symbolic link. Its bytes are its target, and never change.
    Link,
}

/// The target of an entry: a number and its kind.
#[derive(Clone, Copy, Debug, PartialEq, Eq)]
pub enum Node {
    /// The directory with this number.
    Dir(u64),
    /// The file with this form and number.
    File(Form, u64),
}

impl Node {
    ghost use Rattle.std.specs.Prelude.{◌≡◌};
    ghost use Rattle.ft_cells.specs.Nodes.{kind_of_node, number_of};

    /// Returns whether the node is a directory, a regular file or a symbolic link.
    pub fn kind(self) -> Kind
        ensures { result ≡ kind_of_node self }
    {
        match self {
            Node::Dir(_) => Kind::Dir,
            Node::File(Form::Regular, _) => Kind::File,
            Node::File(Form::Link, _) => Kind::Link,
        }
    }

    /// Returns the number of the node.
    pub fn number(self) -> u64
        ensures { result ≡ number_of self }
    {
        match self {
            Node::Dir(number) | Node::File(_, number) => number,
        }
    }
}

/// The end of a walk along a path (POSIX.1-2017, Base Definitions, 4.13 Pathname Resolution).
#[derive(Debug, Drop)]
pub enum PathEnd {
    /// The walk ends at a last name that is neither `.` nor `..`, in a directory. The name leads to
    /// `node`, or it is not an entry there. `slash` is whether a slash follows the name.
    Named {
        entry: Entry,
        node: Option<Node>,
        slash: bool,
    },
    /// The walk ends at the directory with this number, which has no entry of its own in the path.
    /// This is the root, if the path has no components, or where a last `.` or `..` leads.
    Itself(u64),
}

/// The result of resolving a path (POSIX.1-2017, Base Definitions, 4.13 Pathname Resolution).
#[derive(Clone, Copy, Debug, PartialEq, Eq)]
pub enum Found {
    /// The place of a plain last name in the directory `dir`, and the number that is in this place,
    /// if there is one.
    Place { dir: u64, number: Option<u64> },
    /// An existing directory that has no entry of its own in the path: the root, or a directory
    /// that a last `.` or `..` names.
    Whole { number: u64 },
}

// The meaning of a line of a script.
use ft_core::Request;

/// The meaning of a line.
#[derive(Debug, PartialEq, Eq, Drop)]
pub enum ScriptLine {
    /// Nothing: the line is empty or a comment.
    Silent,
    /// It is not a valid request.
    Bad,
    /// A request.
    Request(Request),
    /// A report of the present state.
    Query(Query),
}

/// A report of the present state.
#[derive(Clone, Copy, Debug, PartialEq, Eq)]
pub enum Query {
    /// The rows of the tree.
    Tree,
    /// The locks and their owners, of all but attributes.
    Locks,
    /// The locks of attributes and their owners.
    Attributes,
    /// The waits-for edges.
    Waits,
}

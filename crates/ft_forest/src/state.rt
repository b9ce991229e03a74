/// The state of a transaction.
#[derive(Clone, Copy, Debug, PartialEq, Eq)]
pub enum State {
    /// It has not ended.
    Live,
    /// It has committed. It stays committed if one above it is aborted later.
    Committed,
    /// It, or one above it, was aborted while it was live.
    Aborted,
}

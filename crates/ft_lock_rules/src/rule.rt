/// The rule by which a lock blocks a call.
#[derive(Clone, Copy, Debug, PartialEq, Eq)]
pub enum Rule {
    /// A conflicting lock blocks a call if its owner is neither the asker nor an ancestor of the
    /// asker. An ancestor that holds a lock is treated as one that retains it. This is a rule of
    /// this project.
    Profile,
    /// A conflicting lock that an ancestor of the asker holds blocks the call as well. Only the
    /// asker may hold a conflicting lock, and all who retain one must be its ancestors (Moss 1981,
    /// the locking rules).
    Moss,
}

// A slot of an index.

/// A place for a key with its hash.
#[derive(Clone, Copy)]
pub(crate) struct Slot {
    /// The key plus 1, or 0 if the slot is free.
    pub(crate) mark: u32,
    pub(crate) hash: u32,
}

/// A slot without a key.
pub(crate) const FREE: Slot = Slot { mark: 0, hash: 0 };

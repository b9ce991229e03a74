//! Laws of the core behind the lock of a `Shared`, to be cited.

pub use crate::guarded::Guarded;

//! Nested transactions: how they are nested, and the state of each.
#![tactic(auto)]

mod fault;
mod forest;
mod limits;
mod record;
mod records;
mod state;
mod txn;

pub use fault::ForestFault;
pub use forest::Forest;
pub use limits::ForestLimits;
pub use state::State;
pub use txn::TxnId;

/// How many transactions there may be since the base if nobody sets another limit.
pub const DEFAULT_TRANSACTIONS: u64 = 100_000;

/// How deep a transaction may be if nobody sets another limit.
pub const DEFAULT_DEPTH: u64 = 64;

/// The greatest limit of transactions since the base: 2^62. (The limit of depth may be any number.)
pub const MOST_TRANSACTIONS: u64 = 4_611_686_018_427_387_904;

/// The last number that a transaction may have.
pub const LAST_NUMBER: u64 = 9_223_372_036_854_775_807;

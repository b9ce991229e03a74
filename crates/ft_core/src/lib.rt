//! The manager of nested transactions over a tree: it grants calls, keeps their history, undoes
//! calls, and takes an aborted subtree's calls away.
#![tactic(auto)]

mod asking;
mod clearing;
mod conflicts;
mod ending;
mod fairness;
mod fault;
mod journal;
pub mod laws;
mod limits;
mod manager;
mod memo;
mod parts;
mod past;
mod reports;
mod request;
mod running;
mod sweeping;

pub use fairness::in_front;
pub use fault::Fault;
pub use ft_base::Memory;
pub use ft_calls::{Call, FileInfo, Mode, OpenFlags, Reply, Whence};
pub use ft_forest::{
    DEFAULT_DEPTH, DEFAULT_TRANSACTIONS, LAST_NUMBER, MOST_TRANSACTIONS, State, TxnId,
};
pub use ft_lock_rules::Rule;
pub use ft_path::{Errno, FilePath, Name};
pub use ft_tree::{AccessMode, Kind, Timestamp};
pub use limits::Limits;
pub use manager::Core;
pub use reports::{LiveChild, Pending};
pub use request::{Answer, Event, FullAbort, FullOutcome, Outcome, Request};

/// How many calls may be granted since the base if nobody sets another limit.
pub const DEFAULT_CALLS: u64 = 1_000_000;

/// The greatest limit of granted calls: 2^62.
pub const MOST_CALLS: u64 = 4_611_686_018_427_387_904;

/// The greatest limit of depth.
pub const MOST_DEPTH: u64 = 4_096;

/// The greatest limit of links: 2^32.
pub const MOST_LINKS: u64 = 4_294_967_296;

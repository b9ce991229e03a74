//! Views of the calls that have committed.
//!
//! A view is a tree with a list of calls, and the tree is the replay of the list. Readers look at
//! the view that was published last, and never wait.
#![tactic(auto)]

mod answering;
mod clearing;
mod publish_log;
mod reader;
mod replaying;
mod view;

pub use publish_log::{Prefix, PublishLog, ViewsBrand};
pub use reader::{Reader, Receipt, ViewFault, ViewHandle};
pub use replaying::replay;
pub use view::{Published, View, ViewRule, ViewStep, ViewWriter};

/// The least of the numbers with which a reader asks: 2^63. They are above each stamp, so they
/// number nothing in a view.
pub const READING: u64 = 1 << 63;

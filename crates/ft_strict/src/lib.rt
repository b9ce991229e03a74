//! One line of a strict script, which must do what it requests.
#![tactic(auto)]

mod line;
mod replying;
mod well;

pub use replying::{StrictReply, strict_reply_to};
pub use well::try_execute;

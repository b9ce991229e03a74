//! A tree of directories as a script of one transaction.
#![tactic(auto)]

mod counting;
mod loading;
mod script;
mod spelling;

pub use counting::needs_of;
pub use loading::load;
pub use spelling::{Form, Spelling};

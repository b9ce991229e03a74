//! The tree of a report, as a source: from replies to the tree that they describe last.
#![tactic(auto)]

mod index;
mod reading;
mod reported;
mod row;
mod saving;

pub use reported::Reported;
pub use saving::{SaveFault, SavedTree, read_tree, save};

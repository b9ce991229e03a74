//! Lists of values by their owners, linked in one slab.
#![tactic(auto)]

mod node;
mod owned_lists;
mod values;

pub use owned_lists::OwnedLists;
pub use values::Values;

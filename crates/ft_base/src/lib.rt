//! The common parts of all crates above this one: the out-of-memory error, a list that clauses see
//! as a list, a short list, and a hashed map from numbers that clauses see as a finite map.
#![tactic(auto)]

mod memory;
mod sequence;
mod short_list;
mod table;

pub use memory::Memory;
pub use sequence::Sequence;
pub use short_list::ShortList;
pub use table::Table;

/// A `Table` gives its room back when it is cleared, if it has fewer keys than its room divided by
/// this number.
const SPARSE: usize = 8;

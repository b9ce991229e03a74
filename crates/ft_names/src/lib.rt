//! Names in scripts: a line may give a name to what it is answered, and later lines may have the
//! name in place of that number.
#![tactic(auto)]

pub mod laws;
mod meaning;
mod naming;
mod numbering;
mod replying;

pub use meaning::{LineMeaning, NamedLine, named_line, split_name, without_return};
pub use naming::Names;
pub use numbering::{is_descriptor_word, is_name, split_first};
pub use replying::reply_into;

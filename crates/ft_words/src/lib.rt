//! Words: how numbers, paths, data, flags and calls are spelled in a line of words, and the text of
//! calls, of what they reply and of what a tree holds.
#![tactic(auto)]

mod arguments;
mod call_text;
mod calls;
mod coded;
mod coding;
mod flags;
mod lanes;
mod lines;
mod modes;
mod numbers;
mod parse_error;
mod split;
mod text;
mod tree_text;
mod verbs;
mod words;

pub use call_text::CallText;
pub use calls::{parse_call, parse_descriptor_call};
pub use coded::parse_path;
pub use lines::Lines;
pub use modes::{ModeText, OwnerText, parse_mode, parse_owner};
pub use numbers::{parse_i64, parse_u32, parse_u64};
pub use parse_error::ParseError;
pub use split::split_once;
pub use text::{CodedArgument, PercentCoded, ReplyText};
pub use tree_text::TreeText;
pub use words::Words;

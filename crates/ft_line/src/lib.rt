//! One line of a script: its request, carried out on a core, and the text of its reply.
#![tactic(auto)]

mod line;
mod lock_text;
mod meaning;
mod putting;
mod replying;
mod reporting;
mod text;
mod wait_text;
mod well;

pub use line::{Query, ScriptLine};
pub use lock_text::{AttributeLocksText, LocksText};
pub use meaning::{parse_line, parse_words};
pub use putting::put_answer;
pub use replying::{execute, reply_into, reply_to};
pub use reporting::{report_of, whole_report_of};
pub use text::{AnswerText, fault_name};
pub use wait_text::WaitsText;
pub use well::is_well;

//! The exchange of a caller and a core, one request at a time: the request as a value, or as a line
//! of a script, and then the answer, part by part, or as text.
#![tactic(auto)]

mod copying;
mod last_answer;
mod session;
mod turns;

pub use copying::copy_into;
pub use last_answer::LastAnswer;
pub use session::{LineFault, Session};

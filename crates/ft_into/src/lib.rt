//! A tree of directories, made in a directory that exists. The two are compared first. Then exactly
//! the steps that the comparison has found are carried out.
#![tactic(auto)]

mod carrying;
mod comparing;
mod comparison;
mod differences;
mod gone;
mod kept;
mod maker;
mod names;
mod reading;
mod step;
mod steps;
mod wishes;

pub use carrying::carry_out;
pub use differences::{Differences, compare};
pub use maker::Maker;
pub use step::{Act, Step, Thing};
pub use wishes::Wishes;

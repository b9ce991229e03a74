//! Tests of the crates that play scripts and run jobs, and of the command line, in one crate: a
//! crate with tests is proved a second time with them.
#![tactic(auto)]

#[cfg(test)]
mod of_aborted_jobs;
#[cfg(test)]
mod of_command;
#[cfg(test)]
mod of_dot;
#[cfg(test)]
mod of_jobs;
#[cfg(test)]
mod of_outcome;
#[cfg(test)]
mod of_plan;
#[cfg(test)]
mod of_progress;
#[cfg(test)]
mod of_script;
#[cfg(test)]
mod of_transfers;

/// The tests are all that there is.
fn main() {}

//! Tests of the crates below the core, in one crate: a crate with tests is proved a second time
//! with them. The program's case files test all that they call.
#![tactic(auto)]

#[cfg(test)]
mod of_base;
#[cfg(test)]
mod of_body;
#[cfg(test)]
mod of_forest;
#[cfg(test)]
mod of_locks;
#[cfg(test)]
mod of_logs;
#[cfg(test)]
mod of_path;
#[cfg(test)]
mod of_tree;
#[cfg(test)]
mod of_undo;

/// The tests are all that there is.
fn main() {}

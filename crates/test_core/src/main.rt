//! Tests of the core, of what shares it, and of the views that readers have of what has committed,
//! in one crate: a crate with tests is proved a second time with them.
#![tactic(auto)]

#[cfg(test)]
mod of_core;
#[cfg(test)]
mod of_serial;
#[cfg(test)]
mod of_shared;
#[cfg(test)]
mod of_views;
#[cfg(test)]
mod of_waiters;
#[cfg(test)]
mod of_waits;

/// The tests are all that there is.
fn main() {}

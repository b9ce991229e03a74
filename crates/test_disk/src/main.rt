//! Tests of directories as scripts and of reports as directories, over fakes in memory of what is
//! read and of what is made.
#![tactic(auto)]

#[cfg(test)]
mod fakes;
#[cfg(test)]
mod of_into;
#[cfg(test)]
mod of_load;
#[cfg(test)]
mod of_save;
#[cfg(test)]
mod of_shown;

/// The tests are all that there is.
fn main() {}

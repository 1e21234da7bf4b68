//! Tests of the plain store of files, what a report says of it, and of hosts and sinks.
//!
//! Promises nothing of its own: a module has the tests of the crate that its name begins with.
//! `steps` has the step that several make.
#![tactic(auto)]

#[cfg(test)]
mod file_summary_tests;
#[cfg(test)]
mod one_files_tests;
#[cfg(test)]
mod outside_tests;
#[cfg(test)]
mod std_outside_tests;
#[cfg(test)]
mod steps;

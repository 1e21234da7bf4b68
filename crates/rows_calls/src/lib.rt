//! Tests of a node, and of the local calls and those on signals of both kernels.
//!
//! Promises nothing of its own: a module has the tests of the crate that its name begins with.
//! `one_guest` has the node that several start from.
#![tactic(auto)]

#[cfg(test)]
mod kernel_tables_tests;
#[cfg(test)]
mod lwk_calls_signal_tests;
#[cfg(test)]
mod lwk_calls_tests;
#[cfg(test)]
mod lwk_run_tests;
#[cfg(test)]
mod lwk_views_tests;
#[cfg(test)]
mod one_calls_tests;
#[cfg(test)]
mod one_guest;

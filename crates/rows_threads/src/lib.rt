//! Tests of sleepers, threads and signals.
//!
//! Promises nothing of its own: a module has the tests of the crate that its name begins with.
#![tactic(auto)]

#[cfg(test)]
mod futex_queues_tests;
#[cfg(test)]
mod lwk_signals_tests;
#[cfg(test)]
mod lwk_threads_tests;

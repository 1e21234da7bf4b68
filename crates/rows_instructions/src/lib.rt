//! Tests of the words of instructions, and of instructions over a plain paged memory.
//!
//! Promises nothing of its own: a module has the tests of the crate that its name begins with.
#![tactic(auto)]

#[cfg(test)]
mod paged_memory_tests;
#[cfg(test)]
mod rv_am_tests;
#[cfg(test)]
mod rv_code_tests;

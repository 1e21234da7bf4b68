//! Tests of spaces: of both kernels, without a page and with a guest, and worked rows of memory over both page tables.
//!
//! Promises nothing of its own: a module that ends in `_tests` has the tests of the crate that its name begins with.
//! `rows` has frames that run out, a write that ends at an absent page, and a right that is added. They cross the
//! frames, the tables, a process's space and the decisions of the memory calls, so they stand above them all.
#![tactic(auto)]

#[cfg(test)]
mod checks;
#[cfg(test)]
mod lwk_boot_tests;
#[cfg(test)]
mod lwk_changes_tests;
#[cfg(test)]
mod lwk_space_tests;
#[cfg(test)]
mod one_changes_tests;
#[cfg(test)]
mod one_memory_tests;
#[cfg(test)]
mod rows;

//! Tests of the small words: identifiers, pieces and numbers, sets of named bits, rows by key, numbers in groups.
//!
//! Promises nothing of its own: a module has the tests of the crate that its name begins with.
#![tactic(auto)]

#[cfg(test)]
mod key_rows_tests;
#[cfg(test)]
mod mck_flags_tests;
#[cfg(test)]
mod mck_word_tests;
#[cfg(test)]
mod number_groups_tests;

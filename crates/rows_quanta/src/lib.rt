//! Tests of quanta on page images.
//!
//! Promises nothing of its own.
#![tactic(auto)]

#[cfg(test)]
mod lent;
#[cfg(test)]
mod quanta_tests;

//! Worked rows through the program's call: jobs and images in memory, what is written and kept, and faults of the outside.
//!
//! Promises nothing of its own: the tests compare whole texts and statuses with those of the rows.
#![tactic(auto)]

#[cfg(test)]
mod forks;
#[cfg(test)]
mod guests;
#[cfg(test)]
mod mcexec_tests;
#[cfg(test)]
mod outside_faults;
#[cfg(test)]
mod runs;
#[cfg(test)]
mod threads;
#[cfg(test)]
mod walks;

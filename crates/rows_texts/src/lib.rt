//! Tests of texts: assembler and its listing, jobs, reports, traces, checks and statuses.
//!
//! Promises nothing of its own: a module has the tests of the crate that its name begins with.
//! `small_files` has the image that several read. The tables of jobs and of assembler texts are read by the program rows_broken_lines,
//! those of images by rows_images.
#![tactic(auto)]

#[cfg(test)]
mod guest_asm_tests;
#[cfg(test)]
mod job_text_tests;
#[cfg(test)]
mod mck_report_tests;
#[cfg(test)]
mod small_files;

//! Tests of frames, page tables, areas, and what memory calls decide.
//!
//! Promises nothing of its own: a module has the tests of the crate that its name begins with.
#![tactic(auto)]

#[cfg(test)]
mod frame_mem_tests;
#[cfg(test)]
mod frame_pool_tests;
#[cfg(test)]
mod page_map_tests;
#[cfg(test)]
mod sv_table_tests;
#[cfg(test)]
mod vm_areas_tests;
#[cfg(test)]
mod vm_calls_tests;

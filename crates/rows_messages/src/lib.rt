//! Tests of messages, requests, rounds, pins and the mirror, of the numbers, phases and acts of calls, and of a proxy
//! with its workers.
//!
//! Promises nothing of its own: a module has the tests of the crate that its name begins with.
#![tactic(auto)]

#[cfg(test)]
mod call_phases_tests;
#[cfg(test)]
mod call_progress_tests;
#[cfg(test)]
mod clear_rounds_tests;
#[cfg(test)]
mod ikc_ring_tests;
#[cfg(test)]
mod mirror_tables_tests;
#[cfg(test)]
mod page_pins_tests;
#[cfg(test)]
mod proxy_worker_tests;
#[cfg(test)]
mod request_book_tests;
#[cfg(test)]
mod system_calls_tests;

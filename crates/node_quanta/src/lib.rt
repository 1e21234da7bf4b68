//! What a threaded run asks of the two kernels beyond `Machine`: quanta that were computed outside their lock.
//!
//! Promises: `RunsQuanta` tells a thread's registers and a page of a process, as they are now, and makes quanta happen:
//! one Run for each, exactly where the thread may run on the core, the limit allows them all, and the registers and the
//! pages are as the quanta saw them. Else nothing changes, and `Stale` is the first of these that fails. The words
//! stand in specs/Happening.
#![tactic(auto)]

mod asking;
mod stale;

pub use asking::RunsQuanta;
pub use stale::Stale;

//! The crew: threads over one node behind one lock.
//!
//! Promises: whatever the threads did, the journal that comes back is legal from the state of the machine that was handed in, and leads to
//! the one of the machine that is handed back; where the run is `Over`, no event may happen there. A thread serves a core, or workers; it
//! makes what its actors offer, and sleeps where they offer nothing. A `Gate` is passed at stated places, where a test may hold a thread.
#![tactic(auto)]

mod bell;
mod crew;
mod desk;
mod gates;
mod last_step;
mod seats;
mod serving;
mod sleepers;
mod turns;

pub use crew::{Ran, run_machine};
pub use gates::{Gate, HoldGate, OpenGate, Place};
pub use last_step::CrewEnd;

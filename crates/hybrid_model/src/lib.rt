//! The two kernels of a node: their state, their events, the one-kernel state that they show, and what holds of each state.
//!
//! This crate has definitions (this project's own, after the idea of a lightweight kernel beside Linux with a proxy for each process)
//! and the plain types that they speak of. docs/DEFINITIONS.md leads through them.
#![tactic(auto)]

pub mod events;

ghost use Rattle.std.specs.Prelude.{◌≡◌, ◌+◌, ◌≤◌};

pub use events::{Ending, Event};

/// How many messages a ring takes, for a proxy of so many workers.
pub fn ring_capacity(workers: u32) -> u32
    requires { workers ≤ 4 }
    ensures { result ≡ 49 + workers }
{
    49 + workers
}

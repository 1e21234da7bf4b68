//! Quanta of a thread, computed outside a lock, as a run of the lightweight kernel.
//!
//! Promises: `run_quanta` is the event Run with all instructions of the quanta (hybrid_model's specs/Run), where the
//! thread's registers and the pages of its process are as the quanta saw them; else nothing changes, and the answer is
//! the first thing that differs. What comes of them stands in specs/Coming.
#![tactic(auto)]

mod running;

pub use running::run_quanta;

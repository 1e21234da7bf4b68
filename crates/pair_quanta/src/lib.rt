//! Quanta of a thread, computed outside a lock, as a run of the two kernels.
//!
//! Promises: `run_quanta` is the event Run with all instructions of the quanta (hybrid_model's specs/Events, `after`),
//! exactly where the thread may run on the core, the limit allows so many, and the registers and the pages are as the
//! quanta saw them; else the parts show the same, and the answer is the first reason against them (node_quanta's
//! specs/Happening). Process and thread are found once. `regs` and `page_image` tell what quanta are computed from.
#![tactic(auto)]

mod lending;
mod running;

pub use lending::{page_image, regs};
pub use running::run_quanta;

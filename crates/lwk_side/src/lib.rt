//! The lightweight kernel's events, on one process with what all share.
//!
//! Promises: each event has a file of its name and is what hybrid_model's file of that name says, on the state that
//! the kernel, what it keeps of the process and the channel show (specs/Shown, `here_of`), whatever the parts are that
//! it isn't handed. What takes memory has its room made before.
#![tactic(auto)]

mod answer;
mod begin_vm;
mod change_room;
mod changes;
mod deliver;
mod intake;
mod intake_ack;
mod intake_fault;
mod intake_reply;
mod interrupt;
mod kernel;
mod reap;
mod run;
mod script;
mod task;
mod trap;
mod trap_clone;
mod trap_delegated;
mod trap_fork;
mod trap_local;
mod trap_memory;
mod wait;

pub use answer::{answer_to, may_answer};
pub use intake_reply::caller_of;
pub use kernel::{Last, Lwk};
pub use task::{Caller, Noted, Task};

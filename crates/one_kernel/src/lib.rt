//! The one-kernel machine of a node, which audits the two kernels.
//!
//! Promises: `boot` shows the definitions' state of a job and its images at the boot; `may` is their test of a step;
//! `make_room` changes no state; `go` leaves the state after the step, for each step that may happen in a state that
//! two kernels show, where its room was made; `execute` is so many instructions one after another; `summary` is what a
//! report says of the state. A step can't fail. The definitions stand in kernel_model
//! (specs/OneKernel and Steps); what the parts show in specs/Parts, the states that two kernels show in node_machine
//! (specs/Reached), and the room for each step in specs/StepRooms. An audit drives it as a `SingleKernel`
//! (node_machine).
#![tactic(auto)]

mod booting;
mod call_steps;
mod calls;
mod changing;
mod file_steps;
mod going;
mod machine;
mod may;
mod node_steps;
mod parts;
mod rooms;
mod running;
mod summary;
mod trapping;
mod traps;
mod view_steps;
mod vm_steps;

pub use calls::{Call, Standing};
pub use parts::{One, Own};

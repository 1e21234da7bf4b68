//! What the commands ask of the machines: of the two kernels of a node, and of the one-kernel machine that audits them.
//!
//! Promises: `Offers` is what a walk asks of the two kernels: what each actor offers in their state; `offer` is the definition's offer of
//! an actor (run_model, Walks). `Machine` is all that a walk or a replay asks: the boot, room for an event, the event, the step that
//! it stands for, and how the run stands. `SingleKernel` is what an audit asks of the one-kernel machine. The states that the two
//! kernels reach, and those that they show, stand in specs/Reached, the steps of an event in specs/Stepping, and why a boot fails in
//! specs/Booting.
#![tactic(auto)]

mod boot_error;
mod machine;
mod offers;
mod single;

pub use boot_error::BootError;
pub use machine::Machine;
pub use offers::{Offers, offer};
pub use single::SingleKernel;

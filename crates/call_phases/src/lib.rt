//! The phases and the act of a call on files.
//!
//! Promises: `phases_of` and `act_of` are the words of the same names in kernel_model's specs/CallPhases, for every
//! call and all arguments, and the moves of `Phases` those of its list of phases. Nothing here takes memory. The lists
//! that the stages stand for are in specs/Stages.
#![tactic(auto)]

pub mod arguments;
pub mod calls;
pub mod phases;
mod vectors;

pub use arguments::act_of;
pub use calls::phases_of;
pub use kernel_model::Range;
pub use phases::{Kind, Phases, Stages};

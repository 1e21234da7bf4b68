//! A guest's memory at the boot: its image, its stack and the trampoline, at the lowest free frames.
//!
//! Promises: `load_guest` makes the space of a guest, whose pages are those of `guest_memory` (kernel_model's specs/Layout) in rising
//! order, each at the lowest free frame (`copied_pages` of hybrid_model's specs/Spaces); memory is the one thing that it can lack, and
//! then no frame has changed. `needed_frames`, `heap_base` and `guest_regs` are the definitions' words of these names. specs/Guests says
//! what the arguments are.
#![tactic(auto)]

mod load;
mod order;
mod room;
mod sizes;
mod stack;

pub use load::load_guest;
pub use sizes::{heap_base, needed_frames, segment_range};
pub use stack::{guest_regs, stack_top};

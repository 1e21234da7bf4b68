//! The two kernels of a node.
//!
//! Promises: the parts show a state of the definitions (specs/Shown, `pair_of`); each event is the definition's event
//! on it, where it may happen in a state that the two kernels reach (specs/Ready). What takes memory has its room made
//! before.
#![tactic(auto)]

mod ack_clear;
mod act;
mod answer;
mod assign;
mod begin_vm;
mod boot_files;
mod boot_guests;
mod boot_script;
mod booting;
mod copy;
mod deliver;
mod fetch;
mod finish;
mod fork;
mod fork_room;
mod intake;
mod interrupt;
mod kernel_may;
mod kernel_room;
mod linux_may;
mod linux_room;
mod miss;
mod park;
mod parts;
mod pin;
mod reap;
mod run;
mod script;
mod there;
mod trap;
mod unpark;
mod unpin;
mod wait;

pub use parts::{Parts, Side};

//! The lightweight kernel's tables: processes, threads, sleepers and the unsent lines of the script.
//!
//! Promises: the tables show a node of kernel_model (specs/Shown, `node_of`), whatever the files are, which other parts hold; each call
//! is the word of kernel_model's Nodes, Signals, Traps, LocalCalls, CloneCalls or Steps on that node. A number that names nothing
//! changes nothing. No call but those that reserve room takes memory or fails. Processes and threads are found by halving and
//! changed in place, and the instructions of all processes are kept, not summed. `call_named` and `arguments_of` tell the call that
//! registers name.
#![tactic(auto)]

mod ends;
mod forks;
mod handlers;
mod making;
mod masks;
mod may;
mod named;
mod passes;
pub mod process_rows;
pub mod script_lines;
mod signals;
pub mod tables;
mod thread_rows;
mod threads;
mod waits;

pub use named::{arguments_of, call_named};
pub use process_rows::{Process, Processes};
pub use script_lines::ScriptLine;
pub use tables::KernelTables;

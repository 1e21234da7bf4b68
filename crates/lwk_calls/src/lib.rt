//! The local calls of a thread, on the tables of its node, its process's space and the frames.
//!
//! Promises: each call is the word of its name in kernel_model's specs (LocalCalls, SignalCalls, CloneCalls, Calls),
//! and `deliver` and `return_from_handler` those of its specs/Signals, as `Did` of lwk_views says it: the node, the
//! answer and the stores are the word's. No call takes memory or fails: clone and futex ask for room for one thread or
//! one sleeper, the others lessen no room. What coherence gives the caller (the thread lives, it sleeps nowhere, fewer
//! than sixteen sleep at an address) stands as a condition where it is needed. Of a fork `begins_child` is the
//! caller's part, and `tells_child` what is stored in the child's memory; the copy of the memory and the sharing of
//! the files are made elsewhere.
#![tactic(auto)]

mod actions;
mod answering;
mod cloning;
mod delivers;
mod endings;
mod forking;
mod futexes;
mod masks;
mod numbers;
mod own;
mod pointers;
mod sends;
mod waiting;

pub use actions::sigaction;
pub use cloning::clone;
pub use delivers::{deliver, return_from_handler};
pub use endings::{exits, exits_group};
pub use forking::{are_fork_flags, begins_child, fork_refusal, tells_child};
pub use futexes::futex;
pub use masks::{sigpending, sigprocmask};
pub use own::{answers_zero, getpid, getppid, gettid, sets_clear_address, sets_robust_list};
pub use sends::{kill, tgkill};
pub use waiting::{wait4, waited};

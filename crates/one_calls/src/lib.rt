//! The local calls of a thread of the one-kernel machine, on the tables of its node and the plain memory of its
//! process.
//!
//! Promises: each call is the word of its name in kernel_model's specs (LocalCalls, SignalCalls, CloneCalls, Calls),
//! `deliver` and `return_from_handler` those of its specs/Signals, and `waited` that of Traps, as `Did` of specs/Views
//! says it: the node is the word's, and the memory is the one before with the word's stores in it. `trap` is the
//! definition's whole step, where the trap is a stop that is no call, a call that isn't known, a local call, or a
//! clone that is no fork (specs/LocalTraps); `fork` is the whole step where it is a fork, with the child's memory and
//! number, or its refusal (specs/Here). What is left are delegated calls and those on memory. No call takes memory or
//! fails: clone, fork and futex ask for room for one thread, one process or one sleeper, and fork for one page for
//! each of the parent's. What the machine's states give the caller (the thread lives, it sleeps nowhere, fewer than
//! sixteen sleep at an address) stands as a condition where it is needed (specs/Resting). The child's row and the
//! sharing of the files are made elsewhere. Nothing here is shared with the lightweight kernel's calls.
#![tactic(auto)]

mod actions;
mod bits;
mod calls;
mod cloning;
mod delivers;
mod endings;
mod forking;
mod forks;
mod futexes;
mod masks;
mod numbers;
mod own;
mod pointers;
mod raising;
mod sends;
mod traps;
mod waiting;

pub use actions::sigaction;
pub use calls::{calls_clone, calls_locally, local_call, refuses_call};
pub use cloning::clone;
pub use delivers::{deliver, return_from_handler};
pub use endings::{exits, exits_group};
pub use forking::{are_fork_flags, begins_child, fork_refusal, tells_child};
pub use forks::fork;
pub use futexes::futex;
pub use masks::{sigpending, sigprocmask};
pub use own::{answers_zero, getpid, getppid, gettid, sets_clear_address, sets_robust_list};
pub use raising::raises;
pub use sends::{kill, tgkill};
pub use traps::{calls_fork, names_fork, trap, traps_locally};
pub use waiting::{wait4, waited};

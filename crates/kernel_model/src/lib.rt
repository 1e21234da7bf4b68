//! The kernel of one node without proxies: its state, its calls, its signals and its steps.
#![tactic(auto)]

pub mod ranges;
pub mod steps;

use isa_model::Stop;
use mck_flags::{Rights, SigSet};
use mck_word::{End, PageRange};
pub use ranges::Range;
pub use steps::Step;

/// How far a process's life is.
#[derive(Clone, Copy, PartialEq, Eq, Debug)]
pub enum Life {
    Living,
    Dying(End),
    Ended(End),
}

/// A change of a process's memory.
#[derive(Clone, Copy, PartialEq, Eq, Debug)]
pub enum Change {
    Map { range: PageRange, rights: Rights },
    Unmap(PageRange),
    Protect { range: PageRange, rights: Rights },
    Brk(u64),
}

/// What a thread does. One that is gone is not in the table of threads.
#[derive(Clone, Copy, PartialEq, Eq, Debug)]
pub enum Does {
    Ready,
    Stopped(Stop),
    Called,
    InVm(Change),
    Asleep(u64),
    InWait { pid: i32, status: u64 },
}

/// What a process does at a signal: the address of a handler, or 0 for the default and 1 for ignoring it.
#[derive(Clone, Copy, PartialEq, Eq, Debug)]
pub struct Action {
    pub handler: u64,
    pub flags: u64,
    pub mask: SigSet,
}

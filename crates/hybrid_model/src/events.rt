// The events of the two kernels.
use mck_word::{Pid, Req, Tid};

/// An event: of the lightweight kernel (the first ten), or of the Linux side. A worker, a ring and a line of the script are named by
/// their index from 0.
#[derive(Clone, Copy, PartialEq, Eq, Debug)]
pub enum Event {
    /// The thread executes so many instructions at most on the core.
    Run(u32, Tid, u32),
    Trap(Tid),
    Deliver(Tid),
    Intake(Pid),
    Answer(Pid, u32),
    BeginVm(Tid),
    Interrupt(Tid),
    Wait(Tid),
    Reap(Pid),
    Script(u32),
    /// A message is taken from the ring of that number.
    Fetch(Pid, u32),
    Assign(Pid, u32),
    Miss(Pid, u32),
    Pin(Pid, u32),
    Copy(Pid, u32),
    Unpin(Pid, u32),
    Act(Pid, u32),
    Park(Pid, u32),
    Unpark(Pid, Req),
    Finish(Pid, u32),
    AckClear(Pid),
}

/// How a run stands: over in one of three ways, or not over.
#[derive(Clone, Copy, PartialEq, Eq, Debug)]
pub enum Ending {
    Done,
    Limit,
    Stalled,
    Unfinished,
}

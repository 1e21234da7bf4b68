// The steps of the one-kernel machine.
use mck_word::{Pid, Tid};

/// A step of the one-kernel machine: of a thread, of a line of the script by its index from 0, or of a process.
#[derive(Clone, Copy, PartialEq, Eq, Debug)]
pub enum Step {
    Instr(Tid),
    Trap(Tid),
    Deliver(Tid),
    VmFinish(Tid),
    Piece(Tid),
    PieceFault(Tid),
    FileStep(Tid),
    Block(Tid),
    Wake(Tid),
    Return(Tid),
    Mark(Tid),
    Interrupted(Tid),
    Wait(Tid),
    Script(u32),
    End(Pid),
}

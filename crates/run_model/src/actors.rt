// Who acts in a walk.
use mck_word::Pid;

/// An actor of a walk: a core, a process's side of the lightweight kernel, its Linux side, one of its proxy's workers, or the script.
#[derive(Clone, Copy, PartialEq, Eq, Debug)]
pub enum Actor {
    Core(u32),
    Kernel(Pid),
    Linux(Pid),
    Worker(Pid, u32),
    Script,
}

// The lines of the script.
ghost use Rattle.std.specs.Prelude.{◌≤◌};

use mck_word::Pid;

/// An unsent line of the script: its index among the signal lines, its line in the job, and the signal that it sends once the
/// process has executed so many instructions.
#[derive(Clone, Copy, Debug)]
pub struct ScriptLine {
    pub index: u32,
    pub line: u32,
    pub process: Pid,
    pub signal: u32,
    pub after: u64,
    pub ghost is_signal: { (1 ≤ signal) × (signal ≤ 64) },
}

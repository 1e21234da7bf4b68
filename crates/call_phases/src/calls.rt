// The phases that a call on files begins with.
ghost use Rattle.std.specs.Prelude.{◌≡◌, ◌≤◌};
ghost use Rattle.call_phases.specs.StreamBytes.{most_left};
ghost use Rattle.kernel_model.specs.CallPhases.{most_moved, phases_of};

use crate::arguments::int;
use crate::phases::{Phases, Stages};
use system_calls::FileCall;

pub const MOST_MOVED: u64 = 65_536;

const MOST_PATH: u64 = 4_096;

/// The phases of a call with these arguments.
pub fn phases_of(call: FileCall, arguments: &[u64; 6]) -> Phases
    ensures is { result ≡ phases_of call arguments.now }
    ensures few { most_left result ≤ most_moved }
{
    match call {
        FileCall::Openat | FileCall::Mkdirat | FileCall::Unlinkat => Phases::with_range(
            Stages::GatherAct,
            arguments[1],
            MOST_PATH,
        ),
        FileCall::Close | FileCall::Lseek | FileCall::Ioctl => Phases::without_ranges(Stages::Act),
        FileCall::Pipe2 => Phases::with_range(Stages::ActScatter, arguments[0], 8),
        FileCall::Fstat => Phases::with_range(Stages::ActScatter, arguments[1], 128),
        FileCall::Getdents64 => Phases::with_range(
            Stages::ActScatter,
            arguments[1],
            arguments[2].min(MOST_MOVED),
        ),
        FileCall::Readv | FileCall::Writev => Phases::with_range(
            Stages::ActGatherStream,
            arguments[1],
            16 * int(arguments[2]).max(0) as u64,
        ),
        FileCall::Read | FileCall::Write | FileCall::Pread64 | FileCall::Pwrite64 =>
            Phases::with_range(
                Stages::ActStream,
                arguments[1],
                arguments[2].min(MOST_MOVED),
            ),
    }
}

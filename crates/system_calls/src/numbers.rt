// The numbers of the calls.
ghost use Rattle.std.specs.Prelude.{◌≡◌};
ghost use Rattle.system_calls.specs.Numbers as numbers;

use crate::{FileCall, LocalCall, MemoryCall, SystemCall};

/// The call of that number: None where there is no call here.
#[tactic(auto, unfolding(crate::specs::Numbers::system_call))]
pub fn system_call(number: u64) -> Option<SystemCall>
    ensures { result ≡ numbers.system_call number }
{
    let call = match number {
        29 => SystemCall::File(FileCall::Ioctl),
        34 => SystemCall::File(FileCall::Mkdirat),
        35 => SystemCall::File(FileCall::Unlinkat),
        56 => SystemCall::File(FileCall::Openat),
        57 => SystemCall::File(FileCall::Close),
        59 => SystemCall::File(FileCall::Pipe2),
        61 => SystemCall::File(FileCall::Getdents64),
        62 => SystemCall::File(FileCall::Lseek),
        63 => SystemCall::File(FileCall::Read),
        64 => SystemCall::File(FileCall::Write),
        65 => SystemCall::File(FileCall::Readv),
        66 => SystemCall::File(FileCall::Writev),
        67 => SystemCall::File(FileCall::Pread64),
        68 => SystemCall::File(FileCall::Pwrite64),
        80 => SystemCall::File(FileCall::Fstat),
        93 => SystemCall::Local(LocalCall::Exit),
        94 => SystemCall::Local(LocalCall::ExitGroup),
        96 => SystemCall::Local(LocalCall::SetTidAddress),
        98 => SystemCall::Local(LocalCall::Futex),
        99 => SystemCall::Local(LocalCall::SetRobustList),
        124 => SystemCall::Local(LocalCall::SchedYield),
        129 => SystemCall::Local(LocalCall::Kill),
        131 => SystemCall::Local(LocalCall::Tgkill),
        134 => SystemCall::Local(LocalCall::RtSigaction),
        135 => SystemCall::Local(LocalCall::RtSigprocmask),
        136 => SystemCall::Local(LocalCall::RtSigpending),
        139 => SystemCall::Local(LocalCall::RtSigreturn),
        172 => SystemCall::Local(LocalCall::Getpid),
        173 => SystemCall::Local(LocalCall::Getppid),
        178 => SystemCall::Local(LocalCall::Gettid),
        214 => SystemCall::Memory(MemoryCall::Brk),
        215 => SystemCall::Memory(MemoryCall::Munmap),
        220 => SystemCall::Clone,
        222 => SystemCall::Memory(MemoryCall::Mmap),
        226 => SystemCall::Memory(MemoryCall::Mprotect),
        260 => SystemCall::Local(LocalCall::Wait4),
        _ => return None,
    };
    Some(call)
}

//! The system calls by name: the one table of their numbers, and the errors that the kernels answer.
//!
//! Promises: `system_call` is the table of specs/Numbers, for every number, and a number that isn't there has no call; the questions
//! to a file call are those of specs/FileCalls. Sources: Linux's generic call numbers, and the errors of man-pages errno(3).
#![tactic(auto)]

pub mod errors;
pub mod file_calls;
pub mod numbers;

pub use file_calls::FileCall;
pub use numbers::system_call;

/// A call that the lightweight kernel serves on its threads, signals and processes.
#[derive(Clone, Copy, PartialEq, Eq, Debug)]
pub enum LocalCall {
    Exit,
    ExitGroup,
    SetTidAddress,
    Futex,
    SetRobustList,
    SchedYield,
    Kill,
    Tgkill,
    RtSigaction,
    RtSigprocmask,
    RtSigpending,
    RtSigreturn,
    Getpid,
    Getppid,
    Gettid,
    Wait4,
}

/// A call that changes the caller's memory, which the lightweight kernel serves.
#[derive(Clone, Copy, PartialEq, Eq, Debug)]
pub enum MemoryCall {
    Mmap,
    Munmap,
    Mprotect,
    Brk,
}

/// A system call, by who serves it. A clone stands by itself: it begins a thread or a process.
#[derive(Clone, Copy, PartialEq, Eq, Debug)]
pub enum SystemCall {
    Clone,
    Local(LocalCall),
    Memory(MemoryCall),
    File(FileCall),
}

// The calls of the numbers, against Linux's generic table.
use system_calls::{FileCall, LocalCall, MemoryCall, SystemCall, system_call};

const CALLS: [(u64, SystemCall); 36] = [
    (29, SystemCall::File(FileCall::Ioctl)),
    (34, SystemCall::File(FileCall::Mkdirat)),
    (35, SystemCall::File(FileCall::Unlinkat)),
    (56, SystemCall::File(FileCall::Openat)),
    (57, SystemCall::File(FileCall::Close)),
    (59, SystemCall::File(FileCall::Pipe2)),
    (61, SystemCall::File(FileCall::Getdents64)),
    (62, SystemCall::File(FileCall::Lseek)),
    (63, SystemCall::File(FileCall::Read)),
    (64, SystemCall::File(FileCall::Write)),
    (65, SystemCall::File(FileCall::Readv)),
    (66, SystemCall::File(FileCall::Writev)),
    (67, SystemCall::File(FileCall::Pread64)),
    (68, SystemCall::File(FileCall::Pwrite64)),
    (80, SystemCall::File(FileCall::Fstat)),
    (93, SystemCall::Local(LocalCall::Exit)),
    (94, SystemCall::Local(LocalCall::ExitGroup)),
    (96, SystemCall::Local(LocalCall::SetTidAddress)),
    (98, SystemCall::Local(LocalCall::Futex)),
    (99, SystemCall::Local(LocalCall::SetRobustList)),
    (124, SystemCall::Local(LocalCall::SchedYield)),
    (129, SystemCall::Local(LocalCall::Kill)),
    (131, SystemCall::Local(LocalCall::Tgkill)),
    (134, SystemCall::Local(LocalCall::RtSigaction)),
    (135, SystemCall::Local(LocalCall::RtSigprocmask)),
    (136, SystemCall::Local(LocalCall::RtSigpending)),
    (139, SystemCall::Local(LocalCall::RtSigreturn)),
    (172, SystemCall::Local(LocalCall::Getpid)),
    (173, SystemCall::Local(LocalCall::Getppid)),
    (178, SystemCall::Local(LocalCall::Gettid)),
    (214, SystemCall::Memory(MemoryCall::Brk)),
    (215, SystemCall::Memory(MemoryCall::Munmap)),
    (220, SystemCall::Clone),
    (222, SystemCall::Memory(MemoryCall::Mmap)),
    (226, SystemCall::Memory(MemoryCall::Mprotect)),
    (260, SystemCall::Local(LocalCall::Wait4)),
];

#[test]
fn calls_of_numbers(rt: HostRuntime) {
    for (number, call) in &CALLS {
        assert_eq!(rt; system_call(*number), Some(*call));
    }
}

#[test]
fn no_other_number_has_a_call(rt: HostRuntime) {
    for number in 0..300 {
        let has_call = CALLS.iter().any(|row| row.0 == number);
        assert_eq!(rt; system_call(number).is_some(), has_call);
    }
    assert!(rt; system_call(u64::MAX).is_none());
}

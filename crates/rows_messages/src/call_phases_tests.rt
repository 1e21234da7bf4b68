// Phases of calls, their acts, and streams over vectors.
use call_phases::{Kind, Phases, Range, act_of, phases_of};
use file_model::FileOp;
use system_calls::FileCall;

const ARGUMENTS: [u64; 6] = [0xffff_ff9c, 0x1000, 0x1_0000_0041, 7, 0, 0];

// Whether the call's phases are these and no more, and the first that is no act has that range.
fn begins(call: FileCall, kinds: &[Kind], range: Option<Range>) -> bool {
    let mut phases = phases_of(call, &ARGUMENTS);
    let mut first = None;
    for kind in kinds {
        if phases.kind() != Some(*kind) {
            return false;
        }
        if first.is_none() {
            first = phases.first_range();
        }
        phases.pass();
    }
    phases.kind().is_none() && first == range
}

fn range(address: u64, len: u64) -> Option<Range> {
    Some(Range { address, len })
}

#[test]
fn phases_without_streams(rt: HostRuntime) {
    let path = range(0x1000, 4_096);
    let reply = [Kind::Act, Kind::Scatter];
    assert!(rt; begins(FileCall::Openat, &[Kind::Gather, Kind::Act], path));
    assert!(rt; begins(FileCall::Mkdirat, &[Kind::Gather, Kind::Act], path));
    assert!(rt; begins(FileCall::Unlinkat, &[Kind::Gather, Kind::Act], path));
    assert!(rt; begins(FileCall::Close, &[Kind::Act], None));
    assert!(rt; begins(FileCall::Lseek, &[Kind::Act], None));
    assert!(rt; begins(FileCall::Ioctl, &[Kind::Act], None));
    assert!(rt; begins(FileCall::Pipe2, &reply, range(0xffff_ff9c, 8)));
    assert!(rt; begins(FileCall::Fstat, &reply, range(0x1000, 128)));
    assert!(rt; begins(FileCall::Getdents64, &reply, range(0x1000, 65_536)));
}

#[test]
fn phases_with_streams(rt: HostRuntime) {
    let vectors = [Kind::Act, Kind::Gather, Kind::Stream];
    let stream = [Kind::Act, Kind::Stream];
    assert!(rt; begins(FileCall::Readv, &vectors, range(0x1000, 16 * 0x41)));
    assert!(rt; begins(FileCall::Writev, &vectors, range(0x1000, 16 * 0x41)));
    assert!(rt; begins(FileCall::Read, &stream, range(0x1000, 65_536)));
    assert!(rt; begins(FileCall::Write, &stream, range(0x1000, 65_536)));
    assert!(rt; begins(FileCall::Pread64, &stream, range(0x1000, 65_536)));
    assert!(rt; begins(FileCall::Pwrite64, &stream, range(0x1000, 65_536)));
}

#[test]
fn acts_of_trees(rt: HostRuntime) {
    let (dirfd, flags) = (-100, 0x41);
    assert_eq!(rt;
        act_of(FileCall::Openat, &ARGUMENTS),
        FileOp::Openat { dirfd, flags }
    );
    assert_eq!(rt;
        act_of(FileCall::Mkdirat, &ARGUMENTS),
        FileOp::Mkdirat { dirfd }
    );
    assert_eq!(rt;
        act_of(FileCall::Unlinkat, &ARGUMENTS),
        FileOp::Unlinkat { dirfd, flags }
    );
}

#[test]
fn acts_of_descriptors(rt: HostRuntime) {
    let (fd, offset, whence, most) = (-100, 0x1000, 0x41, 0x1_0000_0041);
    assert_eq!(rt; act_of(FileCall::Close, &ARGUMENTS), FileOp::Close { fd });
    assert_eq!(rt;
        act_of(FileCall::Lseek, &ARGUMENTS),
        FileOp::Lseek { fd, offset, whence }
    );
    assert_eq!(rt; act_of(FileCall::Ioctl, &ARGUMENTS), FileOp::Ioctl { fd });
    assert_eq!(rt;
        act_of(FileCall::Pipe2, &ARGUMENTS),
        FileOp::Pipe2 { flags: 0x1000 }
    );
    assert_eq!(rt; act_of(FileCall::Fstat, &ARGUMENTS), FileOp::Fstat { fd });
    assert_eq!(rt;
        act_of(FileCall::Getdents64, &ARGUMENTS),
        FileOp::Getdents { fd, most }
    );
}

#[test]
fn acts_of_streams(rt: HostRuntime) {
    let fd = -100;
    let read = |at, count| FileOp::Read { fd, at, count };
    let write = |at, count| FileOp::Write { fd, at, count };
    assert_eq!(rt; act_of(FileCall::Read, &ARGUMENTS), read(None, 0));
    assert_eq!(rt; act_of(FileCall::Readv, &ARGUMENTS), read(None, 0x41));
    assert_eq!(rt; act_of(FileCall::Pread64, &ARGUMENTS), read(Some(7), 0));
    assert_eq!(rt; act_of(FileCall::Write, &ARGUMENTS), write(None, 0));
    assert_eq!(rt; act_of(FileCall::Writev, &ARGUMENTS), write(None, 0x41));
    assert_eq!(rt; act_of(FileCall::Pwrite64, &ARGUMENTS), write(Some(7), 0));
}

#[test]
fn streams_over_vectors(rt: HostRuntime) {
    let mut bytes = [0; 32];
    bytes[0] = 1;
    bytes[1] = 0x10;
    bytes[8] = 5;
    let Some(mut phases) = Phases::over_vectors(&bytes) else {
        panic!(rt; "the lengths are small");
    };
    assert_eq!(rt;
        phases.first_range(),
        Some(Range {
            address: 0x1001,
            len: 5
        })
    );
    phases.advance(2);
    assert_eq!(rt;
        phases.first_range(),
        Some(Range {
            address: 0x1003,
            len: 3
        })
    );
    bytes[15] = 0x80;
    assert!(rt; Phases::over_vectors(&bytes).is_none());
}

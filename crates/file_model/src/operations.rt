// The operations on files.
use mck_word::Bytes;

/// An operation on files: an act of a call, a piece of a stream, or the giving back of a description.
///
/// Flags are the low 32 bits of their argument. `at` is the offset of pread64 and pwrite64. In `Read` and `Write`, the acts of the
/// reading and writing calls, `count` is the number of vectors, or 0 for a call without vectors. In `Get` and `Put`, the pieces of
/// their streams, `moved` are the bytes that the call has moved before, and `len` is the length of the piece, in bytes.
#[derive(Clone, Copy, PartialEq, Eq, Debug)]
pub enum FileOp {
    Openat {
        dirfd: i32,
        flags: u32,
    },
    Mkdirat {
        dirfd: i32,
    },
    Unlinkat {
        dirfd: i32,
        flags: u32,
    },
    Close {
        fd: i32,
    },
    Lseek {
        fd: i32,
        offset: i64,
        whence: i32,
    },
    Ioctl {
        fd: i32,
    },
    Pipe2 {
        flags: u32,
    },
    Fstat {
        fd: i32,
    },
    Getdents {
        fd: i32,
        most: u64,
    },
    Read {
        fd: i32,
        at: Option<i64>,
        count: i32,
    },
    Write {
        fd: i32,
        at: Option<i64>,
        count: i32,
    },
    Get {
        desc: u32,
        at: Option<u64>,
        moved: u32,
        len: u32,
    },
    Put {
        desc: u32,
        at: Option<u64>,
        moved: u32,
        len: u32,
    },
    Leave(u32),
}

/// What an operation answers: a value or a negated errno, or that it has to wait.
#[derive(Clone, Copy, PartialEq, Eq, Debug)]
pub enum FileAns {
    Done(i64),
    NotReady,
}

/// How a piece stands: it can move at least one byte now, it has to wait, or no piece can move and the step ends the call.
#[derive(Clone, Copy, PartialEq, Eq, Debug)]
pub enum Readiness {
    Ready,
    NotReady,
    FileStep,
}

/// A path of the tree with its bytes, or of a directory.
#[derive(Drop)]
pub struct PathRow {
    pub path: Bytes,
    pub directory: bool,
    pub bytes: Bytes,
}

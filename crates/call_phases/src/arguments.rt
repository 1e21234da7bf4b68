// The act of a call on files, from its arguments.
ghost use Rattle.std.specs.Prelude.{◌≡◌, ◌%◌, ◌^◌, ◌<◌};
ghost use Rattle.kernel_model.specs.CallPhases as call_phases;
ghost use Rattle.kernel_model.specs.CallPhases.{flags_at, int_at, own_offset, vector_count};
ghost use Rattle.mck_word.specs.Words.{int_argument, signed};

use file_model::FileOp;
use system_calls::FileCall;

/// The low 32 bits of an argument.
fn flags(argument: u64) -> u32
    ensures { result ≡ argument % 2 ^ 32 }
{
    (argument % (1 << 32)) as u32
}

/// An argument that is an int: its low 32 bits with their sign.
pub fn int(argument: u64) -> i32
    ensures { result ≡ int_argument argument }
{
    let low = argument % (1 << 32);
    if low < 1 << 31 {
        low as i32
    } else {
        (low as i64 - (1 << 32)) as i32
    }
}

/// An argument that is a long.
fn long(argument: u64) -> i64
    ensures { result ≡ signed 64 argument }
{
    argument.cast_signed()
}

/// The offset that a call has of its own.
fn own_offset(call: FileCall, arguments: &[u64; 6]) -> Option<i64>
    ensures { result ≡ own_offset call arguments.now }
{
    if call.has_offset() {
        Some(long(arguments[3]))
    } else {
        None
    }
}

/// The number of vectors of a call, or 0 for a call without vectors.
fn vector_count(call: FileCall, arguments: &[u64; 6]) -> i32
    ensures { result ≡ vector_count call arguments.now }
{
    if call.has_vectors() {
        int(arguments[2])
    } else {
        0
    }
}

/// The operation of a call that reads a stream.
fn read_act(call: FileCall, arguments: &[u64; 6]) -> FileOp
    ensures { result ≡ call_phases.read_act call arguments.now }
{
    FileOp::Read {
        fd: int(arguments[0]),
        at: own_offset(call, arguments),
        count: vector_count(call, arguments),
    }
}

/// The operation of a call that writes a stream.
fn write_act(call: FileCall, arguments: &[u64; 6]) -> FileOp
    ensures { result ≡ call_phases.write_act call arguments.now }
{
    FileOp::Write {
        fd: int(arguments[0]),
        at: own_offset(call, arguments),
        count: vector_count(call, arguments),
    }
}

/// The operation of a call's act.
pub fn act_of(call: FileCall, arguments: &[u64; 6]) -> FileOp
    ensures { result ≡ call_phases.act_of call arguments.now }
{
    let fd = int(arguments[0]);
    match call {
        FileCall::Openat => FileOp::Openat {
            dirfd: fd,
            flags: flags(arguments[2]),
        },
        FileCall::Mkdirat => FileOp::Mkdirat { dirfd: fd },
        FileCall::Unlinkat => FileOp::Unlinkat {
            dirfd: fd,
            flags: flags(arguments[2]),
        },
        FileCall::Close => FileOp::Close { fd },
        FileCall::Lseek => FileOp::Lseek {
            fd,
            offset: long(arguments[1]),
            whence: int(arguments[2]),
        },
        FileCall::Ioctl => FileOp::Ioctl { fd },
        FileCall::Pipe2 => FileOp::Pipe2 {
            flags: flags(arguments[1]),
        },
        FileCall::Fstat => FileOp::Fstat { fd },
        FileCall::Getdents64 => FileOp::Getdents {
            fd,
            most: arguments[2],
        },
        FileCall::Read | FileCall::Readv | FileCall::Pread64 => read_act(call, arguments),
        FileCall::Write | FileCall::Writev | FileCall::Pwrite64 => write_act(call, arguments),
    }
}

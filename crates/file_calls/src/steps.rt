// The file steps.
ghost use Rattle.std.specs.Prelude.{◌≡◌, length};
ghost use Rattle.file_calls.specs.FileSteps.{Allows, IsNumber, IsStep, answered, given_len};
ghost use Rattle.file_calls.specs.Pieces.{HasPutRoom, HasRoom};
ghost use Rattle.file_model.specs.FileSteps as steps;
ghost use Rattle.file_model.specs.Streams as streams;
ghost use Rattle.file_model.specs.Streams.{get_piece, put_piece};
ghost use Rattle.file_model.specs.declared.operations.FileOp.{FileOp as operation};
ghost use Rattle.file_model.specs.declared.operations.Readiness.{Readiness as readiness};

use crate::descriptors::{close, ioctl, lseek, read, write};
use crate::get::get;
use crate::given::{fstat, getdents, pipe2};
use crate::open::openat;
use crate::put::put;
use crate::store::FileStore;
use crate::streams::{read_ready, write_ready};
use crate::tree::{mkdirat, unlinkat};
use file_model::{FileAns, FileOp, Readiness};
use mck_word::Pid;

/// How the step of an operation stands: an act is always a file step.
pub fn ready<S: FileStore>(files: &S, op: &FileOp) -> Readiness
    ensures { result ≡ steps.ready (S.files files.now) op.now }
{
    match *op {
        FileOp::Get {
            desc,
            at,
            moved,
            ..
        } => read_ready(files, desc, at, moved),
        FileOp::Put {
            desc,
            at,
            moved,
            len,
        } => write_ready(files, desc, at, moved, len),
        _ => Readiness::FileStep,
    }
}

/// The step of a reading stream's piece.
fn get_step<S: FileStore>(
    files: &mut S,
    desc: u32,
    at: Option<u64>,
    moved: u32,
    into: &mut [u8],
) -> FileAns
    ensures { IsStep (get_piece (S.files files.old) desc at moved (length into.old)) (streams.read_ready (S.files files.old) desc at moved) result (given_len (operation.Get desc at moved (length into.old)) result) into.old into.new (S.files files.new) }
{
    let kind = read_ready(files, desc, at, moved);
    let value = get(files, desc, at, moved, into);
    answered(kind, value)
}

/// The step of a writing stream's piece.
fn put_step<S: FileStore>(
    files: &mut S,
    desc: u32,
    at: Option<u64>,
    moved: u32,
    len: u32,
    from: &[u8],
) -> FileAns
    requires whole { streams.write_ready (S.files files.old) desc at moved len ≡ readiness.Ready → length from.now ≡ len }
    requires room { HasPutRoom (S.can_write files.old) (S.files files.old) desc at moved len }
    ensures { IsStep (put_piece (S.files files.old) desc at moved len from.now) (streams.write_ready (S.files files.old) desc at moved len) result 0 from.now from.now (S.files files.new) }
{
    let kind = write_ready(files, desc, at, moved, len);
    let value = put(files, desc, at, moved, len, from);
    answered(kind, value)
}

/// The answer of a step, or that it has to wait.
fn answered(kind: Readiness, value: i64) -> FileAns
    ensures { result ≡ answered kind value }
{
    match kind {
        Readiness::NotReady => FileAns::NotReady,
        _ => FileAns::Done(value),
    }
}

/// Makes the step of an operation of a process.
///
/// `io` has the path of an act with one, or the bytes of a written piece; it gets the bytes that the operation gives out, at its front.
pub fn file_step<S: FileStore>(files: &mut S, pid: Pid, op: &FileOp, io: &mut [u8]) -> FileAns
    requires room { HasRoom (S.room files.old) (S.can_write files.old) (S.files files.old) op.now }
    requires allowed { Allows (S.files files.old) op.now io.old }
    ensures few { IsNumber op.now result }
    ensures step { IsStep (steps.file_step (S.files files.old) pid.0 op.now io.old) (steps.ready (S.files files.old) op.now) result (given_len op.now result) io.old io.new (S.files files.new) }
{
    let answer = match *op {
        FileOp::Openat { dirfd, flags } => openat(files, pid, dirfd, flags, io),
        FileOp::Mkdirat { dirfd } => mkdirat(files, pid, dirfd, io),
        FileOp::Unlinkat { dirfd, flags } => unlinkat(files, pid, dirfd, flags, io),
        FileOp::Close { fd } => close(files, pid, fd),
        FileOp::Lseek { fd, offset, whence } => lseek(files, pid, fd, offset, whence),
        FileOp::Ioctl { fd } => ioctl(files, pid, fd),
        FileOp::Pipe2 { flags } => pipe2(files, pid, flags, io),
        FileOp::Fstat { fd } => fstat(files, pid, fd, io),
        FileOp::Getdents { fd, most } => getdents(files, pid, fd, most, io),
        FileOp::Read { fd, at, count } => read(files, pid, fd, at, count),
        FileOp::Write { fd, at, count } => write(files, pid, fd, at, count),
        FileOp::Get {
            desc,
            at,
            moved,
            ..
        } => return get_step(files, desc, at, moved, io),
        FileOp::Put {
            desc,
            at,
            moved,
            len,
        } => return put_step(files, desc, at, moved, len, io),
        FileOp::Leave(desc) => {
            files.leave(desc);
            0
        }
    };
    FileAns::Done(answer)
}

// The pieces of streams, and the file step that ends one.
ghost use Rattle.std.specs.Prelude.{◌≡◌, ◌≤◌, ◌<◌, ◌+◌, ◌^◌, [], ℕ, MatchOption, Some, drop, length, slice_get, take};
ghost use Rattle.call_phases.specs.Stages.{kind_of};
ghost use Rattle.call_phases.specs.declared.phases.Kind.{Kind as kind};
ghost use Rattle.call_progress.specs.Kept.{after, moved};
ghost use Rattle.call_progress.specs.Streams.{EndsStream, HasMoved, IsStream, len_asked};
ghost use Rattle.file_calls.specs.Pieces.{HasRoom};
ghost use Rattle.file_model.specs.FileSteps as steps;
ghost use Rattle.file_model.specs.Operations.{done};
ghost use Rattle.file_model.specs.declared.operations.Readiness.{Readiness as readiness};
ghost use Rattle.kernel_model.specs.Progress.{nat_of, next_piece, ranges_left, settle, stream_end, stream_operation, streamed, streamed_on};
ghost use Rattle.mck_word.specs.Lists.{spliced};

use crate::progress::Progress;
use file_calls::get::get;
use file_calls::put::put;
use file_calls::steps::file_step;
use file_calls::store::FileStore;
use file_model::{FileAns, FileOp};
use mck_word::{Pid, Piece};

/// Makes the file step of a piece without its bytes.
fn end_value<S: FileStore>(files: &mut S, op: &FileOp) -> i64
    requires stream { IsStream op.now }
    requires ends { EndsStream (S.files files.old) op.now }
    requires room { HasRoom (S.room files.old) (S.can_write files.old) (S.files files.old) op.now }
    ensures { (pid : ℕ) → done result (S.files files.new) ≡ steps.file_step (S.files files.old) pid op.now [] }
{
    match *op {
        FileOp::Get {
            desc,
            at,
            moved,
            ..
        } => get(files, desc, at, moved, &mut []),
        FileOp::Put {
            desc,
            at,
            moved,
            len,
        } => put(files, desc, at, moved, len, &[]),
        _ => 0,
    }
}

/// Makes the step of a piece that is ready between a file and the bytes, and answers how many were moved.
fn step_piece<S: FileStore>(files: &mut S, pid: Pid, op: &FileOp, bytes: &mut [u8]) -> u32
    requires stream { IsStream op.now }
    requires whole { len_asked op.now ≡ length bytes.old }
    requires few { length bytes.old ≤ 4096 }
    requires ready { steps.ready (S.files files.old) op.now ≡ readiness.Ready }
    requires room { HasRoom (S.room files.old) (S.can_write files.old) (S.files files.old) op.now }
    ensures { HasMoved (steps.file_step (S.files files.old) pid.0 op.now bytes.old) result bytes.old bytes.new (S.files files.new) }
{
    match file_step(files, pid, op, bytes) {
        FileAns::Done(value) => value as u32,
        FileAns::NotReady => 0,
    }
}

/// Makes the step of a piece that is ready between a file and the bytes of its page, and answers how many were moved.
fn step_within<S: FileStore>(
    files: &mut S,
    pid: Pid,
    op: &FileOp,
    page: &mut [u8],
    piece: Piece,
) -> u32
    requires stream { IsStream op.now }
    requires whole { len_asked op.now ≡ piece.len }
    requires page { length page.old ≡ 4096 }
    requires within { piece.off + piece.len ≤ 4096 }
    requires ready { steps.ready (S.files files.old) op.now ≡ readiness.Ready }
    requires room { HasRoom (S.room files.old) (S.can_write files.old) (S.files files.old) op.now }
    ensures moves { result ≡ nat_of (steps.file_step (S.files files.old) pid.0 op.now (take piece.len (drop piece.off page.old))).answer }
    ensures fits { result ≤ piece.len }
    ensures page { page.new ≡ spliced page.old piece.off (steps.file_step (S.files files.old) pid.0 op.now (take piece.len (drop piece.off page.old))).out }
    ensures files { S.files files.new ≡ (steps.file_step (S.files files.old) pid.0 op.now (take piece.len (drop piece.off page.old))).files }
{
    let (_, rest) = page.split_at_mut(piece.off as usize);
    let (there, _) = rest.split_at_mut(piece.len as usize);
    step_piece(files, pid, op, there)
}

impl Progress {
    /// Goes on behind `n` bytes of the stream.
    fn pass_moved<S: FileStore>(&mut self, files: &mut S, n: u32) -> Option<i64>
        requires kind { kind_of self.old.progress.phases ≡ Some kind.Stream }
        requires fits { MatchOption (slice_get (ranges_left self.old.progress) 0) (n ≡ 0) (λ r. (n ≤ r.len) × (r.address + n < 2 ^ 64)) }
        ensures { after self.new.progress result (S.files files.new) ≡ settle (streamed_on self.old.progress (ranges_left self.old.progress) n) (S.files files.old) }
    {
        self.phases.advance(u64::from(n));
        self.moved += n;
        self.settle(files)
    }

    /// Moves the next piece of the stream between its page and the file.
    pub(crate) fn stream<S: FileStore>(
        &mut self,
        files: &mut S,
        pid: Pid,
        page: &mut [u8],
    ) -> Option<i64>
        requires kind { kind_of self.old.progress.phases ≡ Some kind.Stream }
        requires ready { steps.ready (S.files files.old) (stream_operation self.old.progress) ≡ readiness.Ready }
        requires page { length page.old ≡ 4096 }
        requires low { (next_piece self.old.progress).page < 2 ^ 51 }
        requires room { HasRoom (S.room files.old) (S.can_write files.old) (S.files files.old) (stream_operation self.old.progress) }
        ensures { moved page.new (after self.new.progress result (S.files files.new)) ≡ streamed self.old.progress (ranges_left self.old.progress) (S.files files.old) pid.0 page.old }
    {
        let op = self.stream_operation();
        let piece = self.next_piece();
        let n = step_within(files, pid, &op, page, piece);
        self.pass_moved(files, n)
    }

    /// Ends the call where its stream can move nothing more: with the bytes moved, or with the error where none were.
    pub(crate) fn end_stream<S: FileStore>(&mut self, files: &mut S) -> Option<i64>
        requires ends { EndsStream (S.files files.old) (stream_operation self.old.progress) }
        requires room { HasRoom (S.room files.old) (S.can_write files.old) (S.files files.old) (stream_operation self.old.progress) }
        ensures { (pid : ℕ) → after self.new.progress result (S.files files.new) ≡ stream_end self.old.progress (steps.file_step (S.files files.old) pid (stream_operation self.old.progress) []) }
    {
        let op = self.stream_operation();
        let value = end_value(files, &op);
        let answer = if self.moved == 0 {
            value
        } else {
            i64::from(self.moved)
        };
        self.end(files, answer)
    }
}

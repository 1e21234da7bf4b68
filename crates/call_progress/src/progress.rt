// The progress of a call.
ghost use Rattle.std.specs.Prelude.{◌≡◌, ◌≤◌};
ghost use Rattle.call_phases.specs.StreamBytes.{most_left};
ghost use Rattle.kernel_model.specs.CallPhases.{most_moved, phases_of};
ghost use Rattle.kernel_model.specs.Progress as calls;
ghost use Rattle.kernel_model.specs.Progress.{given_back, interrupted_answer, needed_access, offset_argument, starting, stream_operation};
ghost use Rattle.kernel_model.specs.Pages.{first_piece};

use call_phases::{Kind, Phases, Range, phases_of};
use file_calls::steps::ready;
use file_calls::store::FileStore;
use file_model::{FileOp, Readiness};
use mck_word::{Access, Piece};
use std::alloc::Global;
use std::marker::Model;
use system_calls::FileCall;
use system_calls::errors::{EFAULT, EINTR};

/// How far a call has come: its phases left, the bytes gathered or still to be scattered, the bytes that its stream
/// moved, what its act answered, and the description that it holds.
#[derive(Drop)]
pub struct Progress {
    pub(crate) call: FileCall,
    pub(crate) arguments: [u64; 6],
    pub(crate) phases: Phases,
    pub(crate) buffer: Vec<u8>,
    pub(crate) from: usize,
    pub(crate) out: Vec<u8>,
    pub(crate) moved: u32,
    pub(crate) answer: i64,
    pub(crate) found: Option<u32>,
}

impl Model for Progress {
    ghost use Rattle.std.specs.Prelude.{◌-◌, drop, vec_len};
    ghost use Rattle.std.specs.Vec.{vec_capacity};
    ghost use Rattle.call_progress.specs.Kept.{IsWithin, Kept};

    ghost Value = { Kept };

    ghost view = { λ p. record {
      progress = record { call = p.call; arguments = p.arguments; phases = p.phases; buffer = drop p.from p.buffer.items; moved = p.moved; answer = p.answer; found = p.found };
      spare = vec_capacity p.buffer - vec_len p.buffer;
      out = p.out.items;
    } };

    ghost invariant = { λ p. IsWithin p.from (vec_len p.buffer) p.moved p.phases };
}

/// The first piece of a range.
fn piece_of(range: Range) -> Piece
    ensures { result ≡ first_piece range.address range.len }
{
    let off = range.address % 4096;
    Piece {
        page: range.address / 4096,
        off: off as u32,
        len: range.len.min(4096 - off) as u32,
    }
}

impl Progress {
    /// The beginning of a call, with all its phases. Can't fail.
    pub fn of_call(alloc: Global, call: FileCall, arguments: &[u64; 6]) -> Progress
        ensures { result.progress ≡ starting call arguments.now (phases_of call arguments.now) }
    {
        Progress::starting(alloc, call, arguments, phases_of(call, arguments))
    }

    /// The beginning of a call, with all its phases, whose streams have no more bytes than a call may move: so
    /// `phases_of` says of a call's phases. Can't fail.
    pub fn starting(alloc: Global, call: FileCall, arguments: &[u64; 6], phases: Phases) -> Progress
        requires { most_left phases ≤ most_moved }
        ensures { result.progress ≡ starting call arguments.now phases }
    {
        Progress {
            call,
            arguments: *arguments,
            phases,
            buffer: Vec::new(alloc),
            from: 0,
            out: Vec::new(alloc),
            moved: 0,
            answer: 0,
            found: None,
        }
    }

    /// The bytes that the stream of the call has moved.
    pub fn moved(&self) -> u32
        ensures { result ≡ self.now.progress.moved }
    {
        self.moved
    }

    /// The description that the call holds.
    pub fn found(&self) -> Option<u32>
        ensures { result ≡ self.now.progress.found }
    {
        self.found
    }

    /// Whether a phase over memory is under way with bytes left.
    pub fn has_piece(&self) -> bool
        ensures { result ≡ calls.has_piece self.now.progress }
    {
        self.phases.first_range().is_some()
    }

    /// The next piece of the phase under way.
    pub fn next_piece(&self) -> Piece
        ensures { result ≡ calls.next_piece self.now.progress }
    {
        piece_of(
            self.phases
                .first_range()
                .unwrap_or(Range { address: 0, len: 0 }),
        )
    }

    /// The right that the next piece needs in the process's memory.
    pub fn needed_access(&self) -> Access
        ensures { result ≡ needed_access self.now.progress }
    {
        match self.phases.kind() {
            Some(Kind::Scatter) => Access::Write,
            Some(Kind::Stream) if self.call.is_read() => Access::Write,
            _ => Access::Read,
        }
    }

    /// The offset of the call's own.
    fn own_offset(&self) -> Option<u64>
        ensures { result ≡ offset_argument self.now.progress }
    {
        if self.call.has_offset() {
            Some(self.arguments[3])
        } else {
            None
        }
    }

    /// The operation of the stream's next piece.
    pub fn stream_operation(&self) -> FileOp
        ensures { result ≡ stream_operation self.now.progress }
    {
        let desc = self.found.unwrap_or(0);
        let at = self.own_offset();
        let moved = self.moved;
        let len = self.next_piece().len;
        if self.call.is_read() {
            FileOp::Get {
                desc,
                at,
                moved,
                len,
            }
        } else {
            FileOp::Put {
                desc,
                at,
                moved,
                len,
            }
        }
    }

    /// Whether the next step of the call can move a byte, has to wait, or is a file step.
    pub fn next_kind<S: FileStore>(&self, files: &S) -> Readiness
        ensures { result ≡ calls.next_kind (S.files files.now) self.now.progress }
    {
        match self.phases.kind() {
            Some(Kind::Act) | None => Readiness::FileStep,
            _ if !self.has_piece() => Readiness::FileStep,
            Some(Kind::Stream) => ready(files, &self.stream_operation()),
            Some(Kind::Gather | Kind::Scatter) => Readiness::Ready,
        }
    }

    /// The answer of a call that is interrupted.
    pub fn interrupted_answer(&self) -> i64
        ensures { result ≡ interrupted_answer self.now.progress }
    {
        if self.moved == 0 {
            EINTR
        } else {
            i64::from(self.moved)
        }
    }

    /// The answer of a call that meets a page that is absent or lacks the right.
    pub fn fault_answer(&self) -> i64
        ensures { result ≡ calls.fault_answer self.now.progress }
    {
        if self.moved == 0 {
            EFAULT
        } else {
            i64::from(self.moved)
        }
    }

    /// Gives the call's description back.
    pub fn give_back<S: FileStore>(&self, files: &mut S)
        ensures { S.files files.new ≡ given_back self.now.progress (S.files files.old) }
    {
        if let Some(d) = self.found {
            files.leave(d);
        }
    }
}

// The room that a call's steps need, made before.
ghost use Rattle.std.specs.Prelude.{◌≡◌, ◌≤◌, ℕ, List, OnOk, length};
ghost use Rattle.call_progress.specs.Kept.{HasOut};
ghost use Rattle.call_progress.specs.Streams.{HasRoomForPiece, HasRoomForStep};
ghost use Rattle.file_calls.specs.Pieces.{HasRoom};
ghost use Rattle.kernel_model.specs.CallPhases.{act_of};
ghost use Rattle.kernel_model.specs.Progress.{next_piece};

use crate::progress::Progress;
use call_phases::Kind;
use file_calls::store::FileStore;
use file_model::FileOp;
use mck_word::NoMemory;

/// How many bytes an act can give out.
fn out_len(op: &FileOp) -> usize
    ensures { (out : List ℕ) → length out ≡ result → HasOut op.now out }
{
    match *op {
        FileOp::Pipe2 { .. } => 8,
        FileOp::Fstat { .. } => 128,
        FileOp::Getdents { most, .. } => most.min(65_536) as usize,
        _ => 0,
    }
}

impl Progress {
    /// Makes the buffer for what an act gives out.
    fn make_out(&mut self, op: &FileOp) -> Result<(), NoMemory>
        ensures same { self.new.progress ≡ self.old.progress }
        ensures out { OnOk result (HasOut op.now self.new.out) }
    {
        self.out.resize(out_len(op), 0)?;
        Ok(())
    }

    /// Makes the room that the act needs.
    fn make_room_for_act<S: FileStore>(&mut self, files: &mut S) -> Result<(), NoMemory>
        ensures same { self.new.progress ≡ self.old.progress }
        ensures files { S.files files.new ≡ S.files files.old }
        ensures room { OnOk result (HasRoom (S.room files.new) (S.can_write files.new) (S.files files.new) (act_of self.new.progress.call self.new.progress.arguments)) }
        ensures out { OnOk result (HasOut (act_of self.new.progress.call self.new.progress.arguments) self.new.out) }
    {
        let op = call_phases::act_of(self.call, &self.arguments);
        files.make_room(&op)?;
        self.make_out(&op)
    }

    /// Makes the room that the next step needs, where it is a file step. The progress and the contents of the files
    /// stay, also where memory lacks.
    pub fn make_room_for_step<S: FileStore>(&mut self, files: &mut S) -> Result<(), NoMemory>
        ensures same { self.new.progress ≡ self.old.progress }
        ensures files { S.files files.new ≡ S.files files.old }
        ensures room { OnOk result (HasRoomForStep (S.room files.new) (S.can_write files.new) (S.files files.new) self.new) }
    {
        match self.phases.kind() {
            Some(Kind::Act) | None => self.make_room_for_act(files),
            Some(Kind::Stream) => files.make_room(&self.stream_operation()),
            Some(Kind::Gather | Kind::Scatter) => Ok(()),
        }
    }

    /// Makes the room that the next piece needs. The progress and the contents of the files stay, also where memory
    /// lacks.
    pub fn make_room_for_piece<S: FileStore>(&mut self, files: &mut S) -> Result<(), NoMemory>
        ensures same { self.new.progress ≡ self.old.progress }
        ensures files { S.files files.new ≡ S.files files.old }
        ensures room { OnOk result (HasRoomForPiece (S.room files.new) (S.can_write files.new) (S.files files.new) self.new) }
    {
        match self.phases.kind() {
            Some(Kind::Gather) => self.make_room_in_buffer(),
            Some(Kind::Stream) => files.make_room(&self.stream_operation()),
            Some(Kind::Act | Kind::Scatter) | None => Ok(()),
        }
    }

    /// Makes room for the next piece in the buffer.
    fn make_room_in_buffer(&mut self) -> Result<(), NoMemory>
        ensures same { self.new.progress ≡ self.old.progress }
        ensures room { OnOk result ((next_piece self.new.progress).len ≤ self.new.spare) }
    {
        let len = self.next_piece().len;
        self.buffer.reserve(len as usize)?;
        Ok(())
    }
}

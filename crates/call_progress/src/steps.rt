// The steps of a call: its pieces and its file steps.
ghost use Rattle.std.specs.Prelude.{◌≡◌, ◌<◌, ◌^◌, length};
ghost use Rattle.call_progress.specs.Kept.{after, moved};
ghost use Rattle.call_progress.specs.Streams.{HasRoomForPiece, HasRoomForStep};
ghost use Rattle.file_calls.specs.FileSteps.{FewCalls};
ghost use Rattle.file_model.specs.declared.operations.Readiness.{Readiness as readiness};
ghost use Rattle.kernel_model.specs.Progress as calls;
ghost use Rattle.kernel_model.specs.Progress.{next_kind, next_piece};

use crate::progress::Progress;
use call_phases::Kind;
use file_calls::store::FileStore;
use mck_word::Pid;

impl Progress {
    /// Moves the next piece, which is ready, between the 4,096 bytes of its page and the buffer or a file; answers the
    /// call's answer where it has ended. The page's number is that of an address of 63 bits: a page that is present
    /// has a smaller one.
    pub fn move_piece<S: FileStore>(
        &mut self,
        files: &mut S,
        pid: Pid,
        page: &mut [u8],
    ) -> Option<i64>
        requires kind { next_kind (S.files files.old) self.old.progress ≡ readiness.Ready }
        requires page { length page.old ≡ 4096 }
        requires low { (next_piece self.old.progress).page < 2 ^ 51 }
        requires room { HasRoomForPiece (S.room files.old) (S.can_write files.old) (S.files files.old) self.old }
        ensures { moved page.new (after self.new.progress result (S.files files.new)) ≡ calls.move_piece self.old.progress (S.files files.old) pid.0 page.old }
    {
        match self.phases.kind() {
            Some(Kind::Gather) => self.gather(files, page),
            Some(Kind::Scatter) => self.scatter(files, page),
            Some(Kind::Stream) => self.stream(files, pid, page),
            Some(Kind::Act) | None => None,
        }
    }

    /// Makes the next step of the call, which is a file step; answers the call's answer where it has ended.
    ///
    /// A description counts the calls that hold it in 32 bits, and one more has to fit. A thread has at most one call
    /// under way, so that is so wherever there are fewer than 2^32 - 1 threads.
    pub fn take_file_step<S: FileStore>(&mut self, files: &mut S, pid: Pid) -> Option<i64>
        requires kind { next_kind (S.files files.old) self.old.progress ≡ readiness.FileStep }
        requires room { HasRoomForStep (S.room files.old) (S.can_write files.old) (S.files files.old) self.old }
        requires few { FewCalls (S.files files.old) }
        ensures { after self.new.progress result (S.files files.new) ≡ calls.take_file_step self.old.progress (S.files files.old) pid.0 }
    {
        match self.phases.kind() {
            Some(Kind::Act) | None => self.act(files, pid),
            Some(Kind::Stream) => self.end_stream(files),
            Some(Kind::Gather | Kind::Scatter) => self.settle(files),
        }
    }
}

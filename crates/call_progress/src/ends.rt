// How the phases of a call go on, and how it ends.
ghost use Rattle.std.specs.Prelude.{◌≡◌};
ghost use Rattle.call_progress.specs.Kept.{after};
ghost use Rattle.kernel_model.specs.Progress.{answer_of, ends, settle};

use crate::progress::Progress;
use file_calls::store::FileStore;

impl Progress {
    /// The answer of a call whose phases are over.
    fn answer(&self) -> i64
        ensures { result ≡ answer_of self.now.progress }
    {
        if self.call.is_read() || self.call.is_write() {
            i64::from(self.moved)
        } else {
            self.answer
        }
    }

    /// Ends the call with an answer.
    pub(crate) fn end<S: FileStore>(&mut self, files: &mut S, answer: i64) -> Option<i64>
        ensures same { self.new ≡ self.old }
        ensures after { after self.new.progress result (S.files files.new) ≡ ends answer self.old.progress (S.files files.old) }
    {
        self.give_back(files);
        Some(answer)
    }

    /// Passes over phases without an act or a byte left, and ends the call where none is left.
    pub(crate) fn settle<S: FileStore>(&mut self, files: &mut S) -> Option<i64>
        ensures { after self.new.progress result (S.files files.new) ≡ settle self.old.progress (S.files files.old) }
    {
        self.phases.settle();
        if self.phases.kind().is_some() {
            return None;
        }
        let answer = self.answer();
        self.end(files, answer)
    }
}

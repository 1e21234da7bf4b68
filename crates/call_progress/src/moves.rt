// The pieces that go into a page, and the piece of each phase.
ghost use Rattle.std.specs.Prelude.{◌≡◌, ◌≤◌, ◌<◌, ◌+◌, ◌^◌, IfSome, Some, drop, length, slice_get, take};
ghost use Rattle.call_phases.specs.Stages.{kind_of, moved_past};
ghost use Rattle.call_phases.specs.declared.phases.Kind.{Kind as kind};
ghost use Rattle.call_progress.specs.Kept.{after, moved};
ghost use Rattle.kernel_model.specs.Progress.{next_piece, ranges_left, scattered, settle};
ghost use Rattle.mck_word.specs.Lists.{spliced};

use crate::pieces::put_at;
use crate::progress::Progress;
use file_calls::store::FileStore;
use mck_word::Piece;

impl Progress {
    /// Puts the front of the buffer into a page.
    fn put_front(&self, page: &mut [u8], piece: Piece)
        requires { piece.off + piece.len ≤ length page.old }
        ensures { page.new ≡ spliced page.old piece.off (take piece.len self.now.progress.buffer) }
    {
        let (_, left) = self.buffer.split_at(self.from);
        let len = left.len().min(piece.len as usize);
        put_at(page, piece.off, left.split_at(len).0);
    }

    /// Goes on behind the front of the buffer.
    fn pass_front<S: FileStore>(&mut self, files: &mut S, n: u32) -> Option<i64>
        requires { IfSome (slice_get (ranges_left self.old.progress) 0) (λ r. r.address + n < 2 ^ 64) }
        ensures { after self.new.progress result (S.files files.new) ≡ settle (record self.old.progress { buffer = drop n self.old.progress.buffer; phases = moved_past n self.old.progress.phases }) (S.files files.old) }
    {
        let left = self.buffer.len() - self.from;
        self.from += left.min(n as usize);
        self.phases.advance(u64::from(n));
        self.settle(files)
    }

    /// Scatters the next piece into its page.
    pub(crate) fn scatter<S: FileStore>(&mut self, files: &mut S, page: &mut [u8]) -> Option<i64>
        requires kind { kind_of self.old.progress.phases ≡ Some kind.Scatter }
        requires page { length page.old ≡ 4096 }
        requires low { (next_piece self.old.progress).page < 2 ^ 51 }
        ensures { moved page.new (after self.new.progress result (S.files files.new)) ≡ scattered self.old.progress (ranges_left self.old.progress) (S.files files.old) page.old }
    {
        let piece = self.next_piece();
        self.put_front(page, piece);
        self.pass_front(files, piece.len)
    }
}

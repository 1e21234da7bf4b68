// The pieces of a call, between the bytes of a page and its buffer or a file.
ghost use Rattle.std.specs.Prelude.{◌≡◌, ◌≤◌, ◌<◌, ◌+◌, ◌-◌, ◌^◌, ◌++◌, IfSome, Some, [], length, slice_get, take, drop, vec_len};
ghost use Rattle.call_phases.specs.Stages.{kind_of};
ghost use Rattle.call_phases.specs.StreamBytes.{most_left};
ghost use Rattle.call_phases.specs.declared.phases.Kind.{Kind as kind};
ghost use Rattle.std.specs.Vec.{vec_capacity};
ghost use Rattle.call_progress.specs.Kept.{after};
ghost use Rattle.kernel_model.specs.CallPhases.{most_moved};
ghost use Rattle.kernel_model.specs.Progress.{advanced, gather_path, gather_vectors, gathered, next_piece, ranges_left, settle, stays};
ghost use Rattle.mck_word.specs.Lists.{before_zero, spliced, tail};

use crate::progress::Progress;
use call_phases::Phases;
use file_calls::store::FileStore;
use system_calls::errors::{EINVAL, ENAMETOOLONG};

/// Adds bytes for which there is room.
fn append(v: &mut Vec<u8>, bytes: &[u8])
    requires { vec_len v.old + length bytes.now ≤ vec_capacity v.old }
    ensures { v.new.items ≡ v.old.items ++ bytes.now }
{
    let _ = v.extend_from_slice(bytes);
}

/// Puts bytes into a page at an offset.
pub(crate) fn put_at(page: &mut [u8], offset: u32, bytes: &[u8])
    requires { offset + length bytes.now ≤ length page.old }
    ensures { page.new ≡ spliced page.old offset bytes.now }
{
    let (_, rest) = page.split_at_mut(offset as usize);
    let (there, _) = rest.split_at_mut(bytes.len());
    there.copy_from_slice(bytes);
}

/// How many bytes stand before the first zero byte.
fn zero_at(bytes: &[u8]) -> usize
    ensures within { result ≤ length bytes.now }
    ensures at { before_zero bytes.now ≡ take result bytes.now }
{
    let mut i = 0;
    while i < bytes.len() && bytes[i] != 0 {
        i += 1;
    }
    i
}

impl Progress {
    /// Goes on with a path of that length.
    #[tactic(auto, using(crate::proofs::Buffers::cuts))]
    fn take_path<S: FileStore>(&mut self, files: &mut S, len: usize) -> Option<i64>
        requires { len ≤ length self.old.progress.buffer }
        ensures { after self.new.progress result (S.files files.new) ≡ settle (record self.old.progress { buffer = take len self.old.progress.buffer; phases = tail self.old.progress.phases }) (S.files files.old) }
    {
        self.buffer.truncate(self.from + len);
        self.phases.pass();
        self.settle(files)
    }

    /// Goes on with a stream over vectors.
    fn take_vectors<S: FileStore>(&mut self, files: &mut S, phases: Phases) -> Option<i64>
        requires { self.old.progress.moved + most_left phases ≤ most_moved }
        ensures { after self.new.progress result (S.files files.new) ≡ settle (record self.old.progress { buffer = []; phases = phases }) (S.files files.old) }
    {
        self.phases = phases;
        self.buffer.clear();
        self.from = 0;
        self.settle(files)
    }

    /// Goes on after a piece of a path of `n` bytes: a path ends at its first zero byte.
    fn gather_path<S: FileStore>(&mut self, files: &mut S, n: u64) -> Option<i64>
        requires kind { kind_of self.old.progress.phases ≡ Some kind.Gather }
        requires fits { IfSome (slice_get (ranges_left self.old.progress) 0) (λ r. r.address + n < 2 ^ 64) }
        ensures { after self.new.progress result (S.files files.new) ≡ gather_path self.old.progress (advanced n (ranges_left self.old.progress)) (S.files files.old) }
    {
        let (_, bytes) = self.buffer.split_at(self.from);
        let len = zero_at(bytes);
        if len < bytes.len() {
            return self.take_path(files, len);
        }
        if self.phases.is_last(n) {
            return self.end(files, ENAMETOOLONG);
        }
        self.phases.advance(n);
        None
    }

    /// Goes on after a piece of the vectors of `n` bytes.
    #[tactic(auto, using(crate::proofs::PhaseCases::gathering))]
    fn gather_vectors<S: FileStore>(&mut self, files: &mut S, n: u64) -> Option<i64>
        requires kind { kind_of self.old.progress.phases ≡ Some kind.Gather }
        requires fits { IfSome (slice_get (ranges_left self.old.progress) 0) (λ r. r.address + n < 2 ^ 64) }
        ensures { after self.new.progress result (S.files files.new) ≡ gather_vectors self.old.progress (advanced n (ranges_left self.old.progress)) (S.files files.old) }
    {
        if !self.phases.is_last(n) {
            self.phases.advance(n);
            return None;
        }
        match Phases::over_vectors(self.buffer.split_at(self.from).1) {
            None => self.end(files, EINVAL),
            Some(phases) => self.take_vectors(files, phases),
        }
    }

    /// Gathers the next piece from the bytes of its page.
    pub(crate) fn gather<S: FileStore>(&mut self, files: &mut S, page: &[u8]) -> Option<i64>
        requires kind { kind_of self.old.progress.phases ≡ Some kind.Gather }
        requires page { length page.now ≡ 4096 }
        requires low { (next_piece self.old.progress).page < 2 ^ 51 }
        requires room { (next_piece self.old.progress).len ≤ self.old.spare }
        ensures { stays page.now (after self.new.progress result (S.files files.new)) ≡ gathered self.old.progress (ranges_left self.old.progress) (S.files files.old) page.now }
    {
        let piece = self.next_piece();
        let (_, rest) = page.split_at(piece.off as usize);
        append(&mut self.buffer, rest.split_at(piece.len as usize).0);
        if self.call.has_path() {
            self.gather_path(files, u64::from(piece.len))
        } else {
            self.gather_vectors(files, u64::from(piece.len))
        }
    }
}

// Copy: a worker moves a piece between its call and the pinned page.
ghost use Rattle.call_progress.specs.Kept.{after};
ghost use Rattle.call_progress.specs.Streams.{HasRoomForPiece};
ghost use Rattle.file_model.specs.declared.operations.Readiness.{Readiness as readiness};
ghost use Rattle.hybrid_model.specs.Copy.{copied, is_uncopied, may_copy, moved_by};
ghost use Rattle.hybrid_model.specs.Sides as sides;
ghost use Rattle.hybrid_model.specs.Workers.{stepped_book, stepped_service};
ghost use Rattle.kernel_model.specs.Progress.{move_piece, next_kind, next_piece};
ghost use Rattle.mck_word.specs.Maps.{at};
ghost use Rattle.proxy_worker.specs.Fits.{HasCopyRoom};
ghost use Rattle.proxy_worker.specs.Shown.{linux_of, shown_service};
ghost use Rattle.std.specs.Prelude.{◌<◌, ◌^◌, ◌≡◌, OnOk, length, true};

use crate::proxy::Proxy;
use crate::services::Service;
use crate::standing::is_ready;
use crate::steps::step_book;
use file_calls::store::FileStore;
use mck_word::{NoMemory, Pid};
use request_book::Book;

impl Proxy {
    /// Whether the worker's pin is one whose bytes were not moved yet.
    fn has_uncopied(&self, worker: u32) -> bool
        ensures { result ≡ is_uncopied (at (linux_of self.now).pins worker) }
    {
        match self.pins.of(worker) {
            Some(pin) => !pin.copied,
            None => false,
        }
    }

    /// Whether the worker may move the bytes of its next piece.
    pub fn may_copy<S: FileStore>(&self, worker: u32, book: &Book, files: &S) -> bool
        ensures { result ≡ may_copy (linux_of self.now) book.now.requests (S.files files.now) worker }
    {
        self.has_uncopied(worker)
            && self.holds(worker, book)
            && is_ready(self.kind_for(worker, files))
    }

    /// Makes the room that the next piece of the worker's request needs. The proxy shows the same, and the files have
    /// the same contents, also where memory lacks.
    pub fn make_room_for_copy<S: FileStore>(
        &mut self,
        worker: u32,
        files: &mut S,
    ) -> Result<(), NoMemory>
        ensures same { linux_of self.new ≡ linux_of self.old }
        ensures files { S.files files.new ≡ S.files files.old }
        ensures room { OnOk result (HasCopyRoom (S.room files.new) (S.can_write files.new) (S.files files.new) self.new worker) }
    {
        let q = self.serves(worker);
        if !self.has_service(q) {
            return Ok(());
        }
        self.services
            .row_mut(q.0)
            .progress
            .make_room_for_piece(files)
    }

    /// The worker moves the next piece of its request's call between its call and the 4,096 bytes of the pinned page.
    pub fn copy<S: FileStore>(
        &mut self,
        worker: u32,
        files: &mut S,
        pid: Pid,
        page: &mut [u8],
        book: &mut Book,
    )
        requires may { may_copy (linux_of self.old) book.old.requests (S.files files.old) worker ≡ true }
        requires page { length page.old ≡ 4096 }
        requires low { (next_piece (sides.served (linux_of self.old) worker).progress).page < 2 ^ 51 }
        requires room { HasCopyRoom (S.room files.old) (S.can_write files.old) (S.files files.old) self.old worker }
        ensures page { page.new ≡ (moved_by pid.0 (linux_of self.old) (S.files files.old) worker page.old).page }
        ensures linux { linux_of self.new ≡ copied (linux_of self.old) worker (moved_by pid.0 (linux_of self.old) (S.files files.old) worker page.old).after }
        ensures book { book.new.requests ≡ stepped_book (linux_of self.old) book.old.requests worker (moved_by pid.0 (linux_of self.old) (S.files files.old) worker page.old).after }
        ensures files { S.files files.new ≡ (moved_by pid.0 (linux_of self.old) (S.files files.old) worker page.old).after.files }
    {
        let q = self.serves(worker);
        let ended = self.services.row_mut(q.0).copy(files, pid, page);
        step_book(book, q, ended);
        self.pins.copied(worker);
    }
}

impl Service {
    /// Moves the call's next piece, which is ready; answers the call's answer where it has ended.
    fn copy<S: FileStore>(&mut self, files: &mut S, pid: Pid, page: &mut [u8]) -> Option<i64>
        requires kind { next_kind (S.files files.old) self.old.progress.progress ≡ readiness.Ready }
        requires page { length page.old ≡ 4096 }
        requires low { (next_piece self.old.progress.progress).page < 2 ^ 51 }
        requires room { HasRoomForPiece (S.room files.old) (S.can_write files.old) (S.files files.old) self.old.progress }
        ensures page { page.new ≡ (move_piece self.old.progress.progress (S.files files.old) pid.0 page.old).page }
        ensures ended { result ≡ (move_piece self.old.progress.progress (S.files files.old) pid.0 page.old).after.ended }
        ensures files { S.files files.new ≡ (move_piece self.old.progress.progress (S.files files.old) pid.0 page.old).after.files }
        ensures service { shown_service self.new ≡ stepped_service (shown_service self.old) (move_piece self.old.progress.progress (S.files files.old) pid.0 page.old).after }
    {
        let ended = self.progress.move_piece(files, pid, page);
        self.keep_answer(ended);
        ended
    }
}

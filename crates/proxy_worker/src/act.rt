// Act: a worker makes the file step of its call.
ghost use Rattle.call_progress.specs.Streams.{HasRoomForStep};
ghost use Rattle.file_calls.specs.FileSteps.{FewCalls};
ghost use Rattle.file_model.specs.declared.operations.Readiness.{Readiness as readiness};
ghost use Rattle.hybrid_model.specs.Act.{acted, may_act};
ghost use Rattle.hybrid_model.specs.Sides as sides;
ghost use Rattle.hybrid_model.specs.Workers.{is_free_to_act, stepped, stepped_book, stepped_service};
ghost use Rattle.kernel_model.specs.Progress.{next_kind, take_file_step};
ghost use Rattle.proxy_worker.specs.Fits.{HasActRoom, HasService};
ghost use Rattle.proxy_worker.specs.Shown.{linux_of, shown_service};
ghost use Rattle.std.specs.Prelude.{◌≡◌, OnOk, true};

use crate::proxy::Proxy;
use crate::services::Service;
use crate::standing::is_file_step;
use crate::steps::step_book;
use file_calls::store::FileStore;
use mck_word::{NoMemory, Pid};
use request_book::Book;

impl Proxy {
    /// Whether the worker may make the file step of its request.
    pub fn may_act<S: FileStore>(&self, worker: u32, book: &Book, files: &S) -> bool
        ensures { result ≡ may_act (linux_of self.now) book.now.requests (S.files files.now) worker }
    {
        self.is_free_to_act(worker, book) && is_file_step(self.kind_for(worker, files))
    }

    /// Makes the room that the file step of the worker's request needs. The proxy shows the same, and the files have
    /// the same contents, also where memory lacks.
    pub fn make_room_for_act<S: FileStore>(
        &mut self,
        worker: u32,
        files: &mut S,
    ) -> Result<(), NoMemory>
        ensures same { linux_of self.new ≡ linux_of self.old }
        ensures files { S.files files.new ≡ S.files files.old }
        ensures room { OnOk result (HasActRoom (S.room files.new) (S.can_write files.new) (S.files files.new) self.new worker) }
    {
        let q = self.serves(worker);
        if !self.has_service(q) {
            return Ok(());
        }
        self.services
            .row_mut(q.0)
            .progress
            .make_room_for_step(files)
    }

    /// The worker makes the file step of its request's call.
    pub fn act<S: FileStore>(&mut self, worker: u32, files: &mut S, pid: Pid, book: &mut Book)
        requires may { may_act (linux_of self.old) book.old.requests (S.files files.old) worker ≡ true }
        requires service { HasService self.old (sides.serves (linux_of self.old) worker) }
        requires room { HasActRoom (S.room files.old) (S.can_write files.old) (S.files files.old) self.old worker }
        requires few { FewCalls (S.files files.old) }
        ensures linux { linux_of self.new ≡ stepped (linux_of self.old) worker (acted pid.0 (linux_of self.old) (S.files files.old) worker) }
        ensures book { book.new.requests ≡ stepped_book (linux_of self.old) book.old.requests worker (acted pid.0 (linux_of self.old) (S.files files.old) worker) }
        ensures files { S.files files.new ≡ (acted pid.0 (linux_of self.old) (S.files files.old) worker).files }
    {
        let q = self.serves(worker);
        let ended = self.services.row_mut(q.0).act(files, pid);
        step_book(book, q, ended);
    }
}

impl Service {
    /// Makes the file step of the call; answers the call's answer where it has ended.
    fn act<S: FileStore>(&mut self, files: &mut S, pid: Pid) -> Option<i64>
        requires kind { next_kind (S.files files.old) self.old.progress.progress ≡ readiness.FileStep }
        requires room { HasRoomForStep (S.room files.old) (S.can_write files.old) (S.files files.old) self.old.progress }
        requires few { FewCalls (S.files files.old) }
        ensures ended { result ≡ (take_file_step self.old.progress.progress (S.files files.old) pid.0).ended }
        ensures files { S.files files.new ≡ (take_file_step self.old.progress.progress (S.files files.old) pid.0).files }
        ensures service { shown_service self.new ≡ stepped_service (shown_service self.old) (take_file_step self.old.progress.progress (S.files files.old) pid.0) }
    {
        let ended = self.progress.take_file_step(files, pid);
        self.keep_answer(ended);
        ended
    }
}

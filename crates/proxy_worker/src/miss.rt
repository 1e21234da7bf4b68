// Miss: a worker finds no row for its next piece, and faults.
ghost use Rattle.hybrid_model.specs.Miss.{fault_of, may_miss};
ghost use Rattle.hybrid_model.specs.Sides as sides;
ghost use Rattle.hybrid_model.specs.Workers.{holds, is_free_to_act};
ghost use Rattle.proxy_worker.specs.Shown.{linux_of};
ghost use Rattle.request_book.specs.declared.ReqState.{ReqState as states};
ghost use Rattle.std.specs.Prelude.{◌≡◌, true};

use crate::proxy::Proxy;
use crate::standing::is_ready;
use file_calls::store::FileStore;
use ikc_ring::Msg;
use request_book::Book;

impl Proxy {
    /// Whether the worker may fault: the mirror lacks the page of its next piece, or the right.
    pub fn may_miss<S: FileStore>(&self, worker: u32, book: &Book, files: &S) -> bool
        ensures { result ≡ may_miss (linux_of self.now) book.now.requests (S.files files.now) worker }
    {
        self.is_free_to_act(worker, book)
            && is_ready(self.kind_for(worker, files))
            && self.row_for(worker).is_none()
    }

    /// The worker's request awaits the row of its next page. Answers the fault to post.
    pub fn miss(&self, worker: u32, book: &mut Book) -> Msg
        requires { holds (linux_of self.now) book.old.requests worker ≡ true }
        ensures message { result ≡ fault_of (linux_of self.now) worker }
        ensures book { book.new.requests ≡ sides.with_state book.old.requests (sides.serves (linux_of self.now) worker) states.Faulted }
    {
        book.faulted(self.serves(worker));
        Msg::Fault {
            worker,
            page: self.page_asked(worker),
            access: self.access_asked(worker),
        }
    }
}

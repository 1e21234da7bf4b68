// What a step of a call leaves in its service and in the book.
ghost use Rattle.hybrid_model.specs.Sides.{state_of};
ghost use Rattle.hybrid_model.specs.Sides as sides;
ghost use Rattle.hybrid_model.specs.Workers.{answer_if, state_if};
ghost use Rattle.kernel_model.specs.Progress.{given_back};
ghost use Rattle.proxy_worker.specs.Shown.{linux_of};
ghost use Rattle.request_book.specs.declared.ReqState.{ReqState as states};
ghost use Rattle.std.specs.Prelude.{◌≡◌, Some};

use crate::proxy::Proxy;
use crate::services::Service;
use file_calls::store::FileStore;
use mck_word::Req;
use request_book::Book;

/// The request, which is held, has ended or goes on.
pub(crate) fn step_book(book: &mut Book, q: Req, ended: Option<i64>)
    requires { state_of book.old.requests q.0 ≡ states.Held }
    ensures { book.new.requests ≡ sides.with_state book.old.requests q.0 (state_if ended) }
{
    if ended.is_some() {
        book.ended(q);
    }
}

impl Service {
    /// Keeps the answer of the call, where it has ended.
    pub(crate) fn keep_answer(&mut self, ended: Option<i64>)
        ensures { self.new ≡ record self.old { answer = answer_if ended self.old.answer } }
    {
        if let Some(answer) = ended {
            self.answer = answer;
        }
    }
}

impl Proxy {
    /// Gives back the description that the call of the worker's request holds.
    pub fn give_back<S: FileStore>(&self, worker: u32, files: &mut S)
        ensures { S.files files.new ≡ given_back (sides.served (linux_of self.now) worker).progress (S.files files.old) }
    {
        if let Some(d) = self.found(self.serves(worker)) {
            files.leave(d);
        }
    }
}

// Finish: a worker replies to its request, which has ended.
ghost use Rattle.hybrid_model.specs.Finish.{finish, may_finish, reply_of};
ghost use Rattle.proxy_worker.specs.Shown.{linux_of};
ghost use Rattle.std.specs.Prelude.{◌≡◌, true};

use crate::proxy::Proxy;
use crate::standing::is_ended;
use ikc_ring::Msg;
use request_book::Book;

impl Proxy {
    /// Whether the worker may reply: its request has ended, and it has no pin.
    pub fn may_finish(&self, worker: u32, book: &Book) -> bool
        ensures { result ≡ may_finish (linux_of self.now) book.now.requests worker }
    {
        !self.is_idle(worker)
            && is_ended(book.standing(self.serves(worker)))
            && !self.has_pin(worker)
    }

    /// The worker replies to its request, which leaves the book. Answers the reply to post.
    #[tactic(auto, unfolding(hybrid_model::specs::Finish::finish))]
    pub fn finish(&mut self, worker: u32, book: &mut Book) -> Msg
        requires { may_finish (linux_of self.old) book.old.requests worker ≡ true }
        ensures message { result ≡ reply_of (linux_of self.old) worker }
        ensures linux { linux_of self.new ≡ (finish (linux_of self.old) book.old.requests worker).0 }
        ensures book { book.new.requests ≡ (finish (linux_of self.old) book.old.requests worker).1 }
    {
        let q = self.serves(worker);
        let code = self.answer_of(q);
        book.replied(q);
        self.drop_service(q);
        self.workers.leave(worker);
        Msg::Reply { q, code }
    }
}

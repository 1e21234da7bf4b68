// Assign: an idle worker takes the oldest of the requests that wait.
ghost use Rattle.hybrid_model.specs.Assign.{assign, may_assign};
ghost use Rattle.hybrid_model.specs.Spaces.{first_number};
ghost use Rattle.page_pins.specs.Pins.{most_workers};
ghost use Rattle.proxy_worker.specs.Fits.{HasService};
ghost use Rattle.proxy_worker.specs.Shown.{linux_of};
ghost use Rattle.std.specs.Prelude.{◌<◌, ◌≡◌, true};

use crate::proxy::Proxy;
use request_book::Book;

impl Proxy {
    /// Whether the idle worker may take the oldest of the requests that wait.
    pub fn may_assign(&self, worker: u32, book: &Book) -> bool
        ensures { result ≡ may_assign (linux_of self.now) book.now.requests worker }
    {
        self.is_idle(worker) && book.oldest().is_some()
    }

    /// The worker, which is idle, takes the oldest of the requests that wait.
    #[tactic(auto, unfolding(hybrid_model::specs::Assign::assign))]
    pub fn assign(&mut self, worker: u32, book: &mut Book)
        requires may { may_assign (linux_of self.old) book.old.requests worker ≡ true }
        requires worker { worker < most_workers }
        requires service { HasService self.old (first_number book.old.requests.waiting) }
        ensures linux { linux_of self.new ≡ (assign (linux_of self.old) book.old.requests worker).0 }
        ensures book { book.new.requests ≡ (assign (linux_of self.old) book.old.requests worker).1 }
    {
        let Some(q) = book.oldest() else {
            return;
        };
        book.assigned(q);
        self.set_worker(q, worker);
        self.workers.take(worker, q.0);
    }
}

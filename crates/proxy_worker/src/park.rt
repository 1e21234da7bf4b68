// Park: a request whose step isn't ready is put aside, or ends where it was interrupted.
ghost use Rattle.hybrid_model.specs.Park.{files_after_park, may_park, park, park_blocks, park_stops};
ghost use Rattle.hybrid_model.specs.Sides as sides;
ghost use Rattle.hybrid_model.specs.Workers.{holds, is_free_to_act};
ghost use Rattle.kernel_model.specs.Progress.{given_back};
ghost use Rattle.proxy_worker.specs.Fits.{HasService};
ghost use Rattle.proxy_worker.specs.Shown.{linux_of};
ghost use Rattle.std.specs.Prelude.{◌≡◌, true};

use crate::proxy::Proxy;
use crate::standing::is_not_ready;
use file_calls::store::FileStore;
use request_book::Book;

impl Proxy {
    /// Whether the worker may put its request aside, which has to wait.
    pub fn may_park<S: FileStore>(&self, worker: u32, book: &Book, files: &S) -> bool
        ensures { result ≡ may_park (linux_of self.now) book.now.requests (S.files files.now) worker }
    {
        self.is_free_to_act(worker, book) && is_not_ready(self.kind_for(worker, files))
    }

    /// The request of the worker, whose Interrupt was fetched, ends with the bytes moved, or with -EINTR.
    #[tactic(auto, unfolding(hybrid_model::specs::Park::park_stops))]
    fn stop<S: FileStore>(&mut self, worker: u32, files: &mut S, book: &mut Book)
        requires held { holds (linux_of self.old) book.old.requests worker ≡ true }
        requires service { HasService self.old (sides.serves (linux_of self.old) worker) }
        ensures linux { linux_of self.new ≡ (park_stops (linux_of self.old) book.old.requests worker).0 }
        ensures book { book.new.requests ≡ (park_stops (linux_of self.old) book.old.requests worker).1 }
        ensures files { S.files files.new ≡ given_back (sides.served (linux_of self.old) worker).progress (S.files files.old) }
    {
        let q = self.serves(worker);
        self.give_back(worker, files);
        book.ended(q);
        let answer = self.interrupted_answer(q);
        self.set_answer(q, answer);
    }

    /// The request of the worker is put aside, and the worker is idle.
    #[tactic(auto, unfolding(hybrid_model::specs::Park::park_blocks))]
    fn block(&mut self, worker: u32, book: &mut Book)
        requires { holds (linux_of self.old) book.old.requests worker ≡ true }
        ensures linux { linux_of self.new ≡ (park_blocks (linux_of self.old) book.old.requests worker).0 }
        ensures book { book.new.requests ≡ (park_blocks (linux_of self.old) book.old.requests worker).1 }
    {
        book.parked(self.serves(worker));
        self.workers.leave(worker);
    }

    /// The worker's request, which has to wait, is put aside; or it ends, where its Interrupt was fetched.
    pub fn park<S: FileStore>(&mut self, worker: u32, files: &mut S, book: &mut Book)
        requires { holds (linux_of self.old) book.old.requests worker ≡ true }
        ensures linux { linux_of self.new ≡ (park (linux_of self.old) book.old.requests worker).0 }
        ensures book { book.new.requests ≡ (park (linux_of self.old) book.old.requests worker).1 }
        ensures files { S.files files.new ≡ files_after_park (linux_of self.old) (S.files files.old) worker }
    {
        if self.is_interrupted(self.serves(worker)) {
            return self.stop(worker, files, book);
        }
        self.block(worker, book);
    }
}

// Unpin: a worker lets its frame go.
ghost use Rattle.hybrid_model.specs.Unpin.{is_copied, may_unpin, unpin};
ghost use Rattle.hybrid_model.specs.Workers.{has_pin};
ghost use Rattle.mck_word.specs.Maps.{at};
ghost use Rattle.proxy_worker.specs.Shown.{linux_of};
ghost use Rattle.std.specs.Prelude.{◌≡◌, true};

use crate::proxy::Proxy;
use crate::standing::is_ready;
use file_calls::store::FileStore;
use request_book::Book;

impl Proxy {
    /// Whether the worker's pin is one whose bytes were moved.
    fn has_copied(&self, worker: u32) -> bool
        ensures { result ≡ is_copied (at (linux_of self.now).pins worker) }
    {
        match self.pins.of(worker) {
            Some(pin) => pin.copied,
            None => false,
        }
    }

    /// Whether the worker may drop its pin: its bytes were moved, or can't be moved now.
    pub fn may_unpin<S: FileStore>(&self, worker: u32, book: &Book, files: &S) -> bool
        ensures { result ≡ may_unpin (linux_of self.now) book.now.requests (S.files files.now) worker }
    {
        self.has_pin(worker)
            && (self.has_copied(worker)
                || !(self.holds(worker, book) && is_ready(self.kind_for(worker, files))))
    }

    /// The worker drops its pin.
    #[tactic(auto, unfolding(hybrid_model::specs::Unpin::unpin))]
    pub fn unpin(&mut self, worker: u32)
        requires { has_pin (linux_of self.old) worker ≡ true }
        ensures { linux_of self.new ≡ unpin (linux_of self.old) worker }
    {
        self.pins.unpin(worker);
    }
}

// Pin: a worker pins the frame of its next piece.
ghost use Rattle.hybrid_model.specs.Pin.{may_pin, pin};
ghost use Rattle.hybrid_model.specs.Workers.{has_pin, is_free_to_act};
ghost use Rattle.page_pins.specs.Pins.{most_workers};
ghost use Rattle.proxy_worker.specs.Shown.{linux_of};
ghost use Rattle.std.specs.Prelude.{◌<◌, ◌≡◌, false};

use crate::proxy::Proxy;
use crate::standing::is_ready;
use file_calls::store::FileStore;
use request_book::Book;

impl Proxy {
    /// Whether the worker may pin the frame of its next piece.
    pub fn may_pin<S: FileStore>(&self, worker: u32, book: &Book, files: &S) -> bool
        ensures { result ≡ may_pin (linux_of self.now) book.now.requests (S.files files.now) worker }
    {
        self.is_free_to_act(worker, book)
            && is_ready(self.kind_for(worker, files))
            && self.row_for(worker).is_some()
    }

    /// The worker, which has no pin, pins the frame of its next page.
    #[tactic(auto, unfolding(hybrid_model::specs::Pin::pin))]
    pub fn pin(&mut self, worker: u32)
        requires worker { worker < most_workers }
        requires free { has_pin (linux_of self.old) worker ≡ false }
        ensures { linux_of self.new ≡ pin (linux_of self.old) worker }
    {
        if let Some((frame, rights)) = self.row_for(worker) {
            let page = self.page_asked(worker);
            self.pins.pin(worker, page, frame, rights);
        }
    }
}

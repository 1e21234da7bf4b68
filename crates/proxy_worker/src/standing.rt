// How a request and a worker stand.
ghost use Rattle.hybrid_model.specs.Workers.{has_pin, holds, is_ended_request, is_free_to_act, is_held, is_idle, is_parked};
ghost use Rattle.kernel_model.specs.Progress as calls;
ghost use Rattle.proxy_worker.specs.Shown.{linux_of};
ghost use Rattle.std.specs.Prelude.{◌≡◌};

use crate::proxy::Proxy;
use file_model::Readiness;
use request_book::{Book, ReqState};

pub(crate) fn is_held(state: ReqState) -> bool
    ensures { result ≡ is_held state }
{
    matches!(state, ReqState::Held)
}

pub(crate) fn is_parked(state: ReqState) -> bool
    ensures { result ≡ is_parked state }
{
    matches!(state, ReqState::Parked)
}

pub(crate) fn is_ended(state: ReqState) -> bool
    ensures { result ≡ is_ended_request state }
{
    matches!(state, ReqState::Ended)
}

pub(crate) fn is_ready(kind: Readiness) -> bool
    ensures { result ≡ calls.is_ready kind }
{
    matches!(kind, Readiness::Ready)
}

pub(crate) fn is_not_ready(kind: Readiness) -> bool
    ensures { result ≡ calls.is_not_ready kind }
{
    matches!(kind, Readiness::NotReady)
}

pub(crate) fn is_file_step(kind: Readiness) -> bool
    ensures { result ≡ calls.is_file_step kind }
{
    matches!(kind, Readiness::FileStep)
}

impl Proxy {
    /// Whether the worker serves no request.
    pub fn is_idle(&self, worker: u32) -> bool
        ensures { result ≡ is_idle (linux_of self.now) worker }
    {
        self.workers.of(worker).is_none()
    }

    /// Whether the worker serves a request that is held.
    pub fn holds(&self, worker: u32, book: &Book) -> bool
        ensures { result ≡ holds (linux_of self.now) book.now.requests worker }
    {
        !self.is_idle(worker) && is_held(book.standing(self.serves(worker)))
    }

    /// Whether the worker has a pin.
    pub fn has_pin(&self, worker: u32) -> bool
        ensures { result ≡ has_pin (linux_of self.now) worker }
    {
        self.pins.of(worker).is_some()
    }

    /// Whether the worker holds a request and has no pin.
    pub(crate) fn is_free_to_act(&self, worker: u32, book: &Book) -> bool
        ensures { result ≡ is_free_to_act (linux_of self.now) book.now.requests worker }
    {
        self.holds(worker, book) && !self.has_pin(worker)
    }
}

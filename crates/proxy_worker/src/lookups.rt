// What a proxy answers of its workers and requests.
ghost use Rattle.hybrid_model.specs.Sides.{no_service, service_of};
ghost use Rattle.hybrid_model.specs.Sides as sides;
ghost use Rattle.hybrid_model.specs.Turns.{end_of_target, pipe_end};
ghost use Rattle.hybrid_model.specs.Workers.{kind_for, row_for};
ghost use Rattle.kernel_model.specs.Progress.{needed_access};
ghost use Rattle.kernel_model.specs.Progress as calls;
ghost use Rattle.mck_word.specs.Maps.{at};
ghost use Rattle.proxy_worker.specs.Fits.{HasService};
ghost use Rattle.proxy_worker.specs.Shown.{linux_of, shown_service};
ghost use Rattle.std.specs.Option.{option_copied};
ghost use Rattle.std.specs.Prelude.{◌≡◌, ◌↔◌, IsTrue, MatchOption, option_map};

use crate::proxy::Proxy;
use crate::services::Service;
use call_progress::Progress;
use file_calls::store::FileStore;
use file_model::{Readiness, Target};
use mck_flags::Rights;
use mck_word::{Access, Frame, Piece, Req};
use system_calls::errors::{EFAULT, EINTR};

impl Proxy {
    /// The request that the worker serves: None exactly where it serves none.
    pub fn request(&self, worker: u32) -> Option<Req>
        ensures { option_map (λ q. q.0) result ≡ at (linux_of self.now).workers worker }
    {
        match self.workers.of(worker) {
            Some(q) => Some(Req(q)),
            None => None,
        }
    }

    /// The request that the worker serves, or 0.
    pub fn serves(&self, worker: u32) -> Req
        ensures { result.0 ≡ sides.serves (linux_of self.now) worker }
    {
        Req(self.workers.of(worker).unwrap_or(0))
    }

    /// The service of a request: None exactly where it has none.
    pub(crate) fn service(&self, q: Req) -> Option<&Service>
        ensures { MatchOption (option_copied result) (service_of (linux_of self.now).services q.0 ≡ no_service) (λ k. service_of (linux_of self.now).services q.0 ≡ shown_service k) }
    {
        self.services.get(q.0)
    }

    /// Whether the request has a service: it was fetched, and is not replied.
    pub fn has_service(&self, q: Req) -> bool
        ensures { IsTrue result ↔ HasService self.now q.0 }
    {
        self.services.get(q.0).is_some()
    }

    /// The progress of a request's call: None exactly where the request has no service.
    pub fn progress(&self, q: Req) -> Option<&Progress>
        ensures { option_map (λ k. k.progress) (option_copied result) ≡ option_map (λ s. s.progress) (at (linux_of self.now).services q.0) }
    {
        match self.services.get(q.0) {
            Some(service) => Some(&service.progress),
            None => None,
        }
    }

    /// Whether the Interrupt of a request was fetched.
    pub fn is_interrupted(&self, q: Req) -> bool
        ensures { result ≡ (service_of (linux_of self.now).services q.0).interrupted }
    {
        match self.service(q) {
            Some(service) => service.interrupted,
            None => false,
        }
    }

    /// The description that a request's call holds.
    pub fn found(&self, q: Req) -> Option<u32>
        ensures { result ≡ (service_of (linux_of self.now).services q.0).progress.found }
    {
        match self.service(q) {
            Some(service) => service.progress.found(),
            None => None,
        }
    }

    /// The answer of a request, or 0.
    pub(crate) fn answer_of(&self, q: Req) -> i64
        ensures { result ≡ (service_of (linux_of self.now).services q.0).answer }
    {
        match self.service(q) {
            Some(service) => service.answer,
            None => 0,
        }
    }

    /// The answer of a request's call where it meets a page that is absent or lacks the right.
    pub(crate) fn fault_answer(&self, q: Req) -> i64
        ensures { result ≡ calls.fault_answer (service_of (linux_of self.now).services q.0).progress }
    {
        match self.service(q) {
            Some(service) => service.progress.fault_answer(),
            None => EFAULT,
        }
    }

    /// The answer of a request's call where it is interrupted.
    pub(crate) fn interrupted_answer(&self, q: Req) -> i64
        ensures { result ≡ calls.interrupted_answer (service_of (linux_of self.now).services q.0).progress }
    {
        match self.service(q) {
            Some(service) => service.progress.interrupted_answer(),
            None => EINTR,
        }
    }

    /// Whether the next step of a request's call can move a byte, has to wait, or is a file step.
    pub fn next_kind<S: FileStore>(&self, q: Req, files: &S) -> Readiness
        ensures { result ≡ calls.next_kind (S.files files.now) (service_of (linux_of self.now).services q.0).progress }
    {
        match self.service(q) {
            Some(service) => service.progress.next_kind(files),
            None => Readiness::FileStep,
        }
    }

    /// The next piece of a request's call.
    pub fn next_piece(&self, q: Req) -> Piece
        ensures { result ≡ calls.next_piece (service_of (linux_of self.now).services q.0).progress }
    {
        match self.service(q) {
            Some(service) => service.progress.next_piece(),
            None => Piece {
                page: 0,
                off: 0,
                len: 0,
            },
        }
    }

    /// The right that the next piece of a request's call needs.
    pub fn access_of(&self, q: Req) -> Access
        ensures { result ≡ needed_access (service_of (linux_of self.now).services q.0).progress }
    {
        match self.service(q) {
            Some(service) => service.progress.needed_access(),
            None => Access::Read,
        }
    }

    /// The page of the next piece of the worker's request.
    pub fn page_asked(&self, worker: u32) -> u64
        ensures { result ≡ (calls.next_piece (sides.served (linux_of self.now) worker).progress).page }
    {
        self.next_piece(self.serves(worker)).page
    }

    /// The right that the next piece of the worker's request needs.
    pub fn access_asked(&self, worker: u32) -> Access
        ensures { result ≡ needed_access (sides.served (linux_of self.now) worker).progress }
    {
        self.access_of(self.serves(worker))
    }

    /// Whether the next step of the worker's request can move a byte, has to wait, or is a file step.
    pub fn kind_for<S: FileStore>(&self, worker: u32, files: &S) -> Readiness
        ensures { result ≡ kind_for (linux_of self.now) (S.files files.now) worker }
    {
        self.next_kind(self.serves(worker), files)
    }

    /// The mirror's row for the next piece of the worker's request: None where the page has none or it lacks the
    /// right.
    pub fn row_for(&self, worker: u32) -> Option<(Frame, Rights)>
        ensures { result ≡ row_for (linux_of self.now) worker }
    {
        self.mirror
            .look(self.page_asked(worker), self.access_asked(worker))
    }

    /// The end of a pipe on which the stream of a request's call is.
    pub fn pipe_end<S: FileStore>(&self, q: Req, files: &S) -> Option<u64>
        ensures { result ≡ pipe_end (S.files files.now) (service_of (linux_of self.now).services q.0).progress }
    {
        match self.found(q) {
            Some(d) => end_of(files.description(d).target),
            None => None,
        }
    }
}

/// The number of a pipe's end.
fn end_of(target: Target) -> Option<u64>
    ensures { result ≡ end_of_target target }
{
    match target {
        Target::ReadEnd(n) => Some(2 * u64::from(n)),
        Target::WriteEnd(n) => Some(2 * u64::from(n) + 1),
        Target::OfNode(_) | Target::OfConsole(_) => None,
    }
}

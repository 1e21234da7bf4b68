// What a proxy keeps of each request that was fetched.
ghost use Rattle.std.specs.Prelude.{◌≡◌, true};
ghost use Rattle.hybrid_model.specs.Sides.{service_of, with_service};
ghost use Rattle.mck_word.specs.Maps.{cut};
ghost use Rattle.proxy_worker.specs.Fits.{HasService};
ghost use Rattle.proxy_worker.specs.Shown.{linux_of};

use crate::proxy::Proxy;
use call_progress::Progress;
use mck_word::Req;

/// How far a fetched request is: its call's progress, whether its Interrupt was fetched, the worker that took it last,
/// and its answer once it has ended.
#[derive(Drop)]
pub struct Service {
    pub progress: Progress,
    pub interrupted: bool,
    pub worker: u32,
    pub answer: i64,
}

impl Proxy {
    /// Gives the service of a request another answer.
    pub(crate) fn set_answer(&mut self, q: Req, answer: i64)
        requires { HasService self.old q.0 }
        ensures { linux_of self.new ≡ with_service (linux_of self.old) q.0 (record (service_of (linux_of self.old).services q.0) { answer = answer }) }
    {
        self.services.row_mut(q.0).answer = answer;
    }

    /// Notes that the Interrupt of a request was fetched.
    pub(crate) fn set_interrupted(&mut self, q: Req)
        requires { HasService self.old q.0 }
        ensures { linux_of self.new ≡ with_service (linux_of self.old) q.0 (record (service_of (linux_of self.old).services q.0) { interrupted = true }) }
    {
        self.services.row_mut(q.0).interrupted = true;
    }

    /// Notes the worker that took a request.
    pub(crate) fn set_worker(&mut self, q: Req, worker: u32)
        requires { HasService self.old q.0 }
        ensures { linux_of self.new ≡ with_service (linux_of self.old) q.0 (record (service_of (linux_of self.old).services q.0) { worker = worker }) }
    {
        self.services.row_mut(q.0).worker = worker;
    }

    /// The service of a request leaves, where it has one.
    pub(crate) fn drop_service(&mut self, q: Req)
        ensures { linux_of self.new ≡ record (linux_of self.old) { services = cut (linux_of self.old).services q.0 } }
    {
        if self.services.get(q.0).is_some() {
            let _ = self.services.remove(q.0);
        }
    }
}

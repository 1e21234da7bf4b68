// The messages that a proxy takes from the rings.
ghost use Rattle.clear_rounds.specs.Round.{phase_of};
ghost use Rattle.clear_rounds.specs.declared.Phase.{Phase as phase};
ghost use Rattle.hybrid_model.specs.Fetch.{fetch_answer, fetch_clear, fetch_empty, fetch_interrupt, fetch_message, fetch_request, fetch_row, fetched_as};
ghost use Rattle.hybrid_model.specs.Sides.{state_of};
ghost use Rattle.hybrid_model.specs.Sides as sides;
ghost use Rattle.hybrid_model.specs.Workers.{is_ended_or_replied};
ghost use Rattle.proxy_worker.specs.Fits.{AnswerFits, FetchFits, HasService};
ghost use Rattle.proxy_worker.specs.Shown.{HasMirrorRoom, HasServiceRoom, linux_of};
ghost use Rattle.request_book.specs.declared.ReqState.{ReqState as states};
ghost use Rattle.std.specs.Prelude.{◌≡◌, ◌<◌, ◌-◌, ◌^◌, Option, false};

use crate::proxy::Proxy;
use crate::services::Service;
use call_progress::Progress;
use clear_rounds::Round;
use ikc_ring::{CallRequest, Msg};
use mck_flags::Rights;
use mck_word::{Frame, PageRange, Req};
use request_book::{Book, ReqState};
use std::alloc::Global;

/// Whether nothing is to be done any more for a request in the state.
fn is_over(state: ReqState) -> bool
    ensures { result ≡ is_ended_or_replied state }
{
    matches!(state, ReqState::Ended | ReqState::Replied)
}

impl Proxy {
    /// A call is served from here on, and waits for a worker.
    fn fetch_request(&mut self, alloc: Global, call: &CallRequest, book: &mut Book)
        requires posted { state_of book.old.requests call.now.q.0 ≡ states.Posted }
        requires room { HasServiceRoom self.old }
        ensures { (round : Option sides.Round) → fetched_as (linux_of self.new) book.new.requests round ≡ fetch_request call.now (linux_of self.old) book.old.requests round }
    {
        let progress = Progress::of_call(alloc, call.call, &call.args);
        self.services.put(
            call.q.0,
            Service {
                progress,
                interrupted: false,
                worker: 0,
                answer: 0,
            },
        );
        book.fetched(call.q);
    }

    /// A row for a worker: it is installed, unless a later Clear has overtaken it, and the worker goes on.
    #[tactic(auto, unfolding(hybrid_model::specs::Fetch::fetch_row))]
    fn fetch_row(
        &mut self,
        worker: u32,
        page: u64,
        number: u64,
        row: (Frame, Rights),
        book: &mut Book,
    )
        requires faulted { state_of book.old.requests (sides.serves (linux_of self.old) worker) ≡ states.Faulted }
        requires room { HasMirrorRoom self.old }
        ensures { (round : Option sides.Round) → fetched_as (linux_of self.new) book.new.requests round ≡ fetch_row worker page number row (linux_of self.old) book.old.requests round }
    {
        book.answered(self.serves(worker));
        if number >= self.cleared {
            self.mirror.install(page, row.0, row.1);
        }
    }

    /// Nothing for a worker: its call ends with the bytes moved, or with -EFAULT.
    #[tactic(auto, unfolding(hybrid_model::specs::Fetch::fetch_empty))]
    fn fetch_empty(&mut self, worker: u32, book: &mut Book)
        requires faulted { state_of book.old.requests (sides.serves (linux_of self.old) worker) ≡ states.Faulted }
        requires service { HasService self.old (sides.serves (linux_of self.old) worker) }
        ensures { (round : Option sides.Round) → fetched_as (linux_of self.new) book.new.requests round ≡ fetch_empty worker (linux_of self.old) book.old.requests round }
    {
        let q = self.serves(worker);
        book.ended(q);
        let answer = self.fault_answer(q);
        self.set_answer(q, answer);
    }

    /// A round closes the pages: their rows leave the mirror.
    #[tactic(auto, unfolding(hybrid_model::specs::Fetch::fetch_clear))]
    fn fetch_clear(&mut self, range: PageRange, round: &mut Round)
        requires posted { phase_of round.old ≡ Some phase.Posted }
        requires few { (linux_of self.old).cleared < 2 ^ 64 - 1 }
        ensures { (book : sides.Book) → fetched_as (linux_of self.new) book round.new ≡ fetch_clear range (linux_of self.old) book round.old }
    {
        self.mirror.drop_range(range);
        self.cleared += 1;
        round.taken();
    }

    /// The thread of a request has a signal, which counts until the request has ended.
    #[tactic(auto, unfolding(hybrid_model::specs::Fetch::fetch_interrupt))]
    fn fetch_interrupt(&mut self, q: Req, book: &Book)
        requires { is_ended_or_replied (state_of book.now.requests q.0) ≡ false → HasService self.old q.0 }
        ensures { (round : Option sides.Round) → fetched_as (linux_of self.new) book.now.requests round ≡ fetch_interrupt q.0 (linux_of self.old) book.now.requests round }
    {
        if !is_over(book.standing(q)) {
            self.set_interrupted(q);
        }
    }

    /// An answer for a worker.
    fn fetch_answer(
        &mut self,
        worker: u32,
        page: u64,
        number: u64,
        row: Option<(Frame, Rights)>,
        book: &mut Book,
    )
        requires { AnswerFits worker row self.old book.old.requests }
        ensures { (round : Option sides.Round) → fetched_as (linux_of self.new) book.new.requests round ≡ fetch_answer worker page number row (linux_of self.old) book.old.requests round }
    {
        match row {
            Some(row) => return self.fetch_row(worker, page, number, row, book),
            None => return self.fetch_empty(worker, book),
        }
    }

    /// Takes a message that came from a ring.
    pub fn fetch(&mut self, alloc: Global, m: &Msg, book: &mut Book, round: &mut Round)
        requires { FetchFits m.now self.old book.old.requests round.old }
        ensures { fetched_as (linux_of self.new) book.new.requests round.new ≡ fetch_message m.now (linux_of self.old) book.old.requests round.old }
    {
        match m {
            Msg::Request(call) => return self.fetch_request(alloc, call, book),
            Msg::Clear(range) => return self.fetch_clear(*range, round),
            Msg::Answer {
                worker,
                page,
                round,
                row,
            } => return self.fetch_answer(*worker, *page, *round, *row, book),
            Msg::Interrupt { q, .. } => return self.fetch_interrupt(*q, book),
            Msg::Reply { .. } | Msg::Ack | Msg::Fault { .. } => {}
        }
    }
}

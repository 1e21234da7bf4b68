// What the lightweight kernel offers for a process.
ghost use Rattle.hybrid_model.specs.Events.{process_of_event};
ghost use Rattle.mck_word.specs.Maps.{keys};
ghost use Rattle.pair_core.specs.Shown.{pair_of};
ghost use Rattle.pair_core.specs.There.{IsThere};
ghost use Rattle.pair_offers.specs.Seeking.{events_of_threads, is_thread_of, next_such, or_else, thread_number};
ghost use Rattle.run_model.specs.Walks.{first_that_may, is_above_last, kernel_offer, thread_numbers};
ghost use Rattle.std.specs.Prelude.{◌≡◌, ◌∷◌, ◌-◌, ◌<◌, ◌^◌, [], IfSome, find, option_map};

use crate::pair::Pair;
use file_calls::store::FileStore;
use hybrid_model::Event;
use mck_word::{Pid, Tid};
use page_map::PageTable;
use pair_core::Side;
use pair_offers::Numbered;

fn either(first: Option<Event>, other: Option<Event>) -> Option<Event>
    ensures { result ≡ or_else first other }
{
    match first {
        Some(event) => Some(event),
        None => other,
    }
}

impl<T: PageTable + Drop, F: FileStore> Pair<T, F> {
    /// The lowest thread of the process from there on.
    fn next_of_process(&self, p: Pid, from: Tid) -> Option<Tid>
        ensures value { option_map thread_number result ≡ next_such (is_thread_of (pair_of T.rows F.files self.now.parts) p.0) from.0 (keys (pair_of T.rows F.files self.now.parts).node.threads) }
        ensures below { IfSome result (λ t. t.0 < 2 ^ 32 - 1) }
    {
        self.members.next_of_process(p, from)
    }

    /// The lowest thread of the process above that one, or of all.
    fn thread_above(&self, p: Pid, last: Option<Tid>) -> Option<Tid>
        ensures { option_map thread_number result ≡ find (is_above_last (option_map thread_number last)) (thread_numbers (pair_of T.rows F.files self.now.parts) p.0) }
    {
        match last {
            Some(t) => self.next_of_process(p, Tid(t.0.saturating_add(1))),
            None => self.next_of_process(p, Tid(0)),
        }
    }

    /// What was found before, else the event, where it may happen in its process, whose side that is.
    fn or_if_it_may(&self, found: Option<Event>, side: &Side<T>, event: Event) -> Option<Event>
        requires { IsThere T.rows F.files self.now.parts (process_of_event (pair_of T.rows F.files self.now.parts).node event) side.now }
        ensures { result ≡ or_else found (first_that_may (pair_of T.rows F.files self.now.parts) (event ∷ [])) }
    {
        match found {
            Some(event) => Some(event),
            None => self.if_it_may(side, event),
        }
    }

    /// The first event of the process's threads, each of which is looked at once.
    fn first_of_threads(&self, side: &Side<T>, p: Pid) -> Option<Event>
        requires { IsThere T.rows F.files self.now.parts p.0 side.now }
        ensures { result ≡ first_that_may (pair_of T.rows F.files self.now.parts) (events_of_threads (pair_of T.rows F.files self.now.parts) p) }
    {
        let mut passed = None;
        let mut interrupt = None;
        let mut wait = None;
        while let Some(t) = self.thread_above(p, passed) {
            if let Some(event) = self.if_it_may(side, Event::BeginVm(t)) {
                return Some(event);
            }
            interrupt = self.or_if_it_may(interrupt, side, Event::Interrupt(t));
            wait = self.or_if_it_may(wait, side, Event::Wait(t));
            passed = Some(t);
        }
        either(interrupt, wait)
    }

    /// What the lightweight kernel offers for the process, whose side that is.
    pub(crate) fn offer_of_kernel(&self, side: &Side<T>, p: Pid) -> Option<Event>
        requires { IsThere T.rows F.files self.now.parts p.0 side.now }
        ensures { result ≡ kernel_offer (pair_of T.rows F.files self.now.parts) p.0 }
    {
        if let Some(event) = self.if_it_may(side, Event::Intake(p)) {
            return Some(event);
        }
        if let Some(event) = self.first_numbered(side, Numbered::Answers(p), self.parts.workers) {
            return Some(event);
        }
        if let Some(event) = self.first_of_threads(side, p) {
            return Some(event);
        }
        self.if_it_may(side, Event::Reap(p))
    }
}

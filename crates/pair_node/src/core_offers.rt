// What a core offers, and the script.
ghost use Rattle.kernel_model.specs.Nodes.{instructions_in_all, thread_of};
ghost use Rattle.mck_word.specs.Maps.{keys};
ghost use Rattle.pair_core.specs.Shown.{pair_of};
ghost use Rattle.pair_core.specs.There.{IsThere};
ghost use Rattle.pair_offers.specs.Seeking.{events_on_core, first_by, is_on_core, is_up_to, next_such, thread_number, threads_on};
ghost use Rattle.run_model.specs.Walks.{core_event, core_offer, first_that_may, is_above_last, run_of, script_offer};
ghost use Rattle.std.specs.Prelude.{◌≡◌, ◌-◌, ◌<◌, ◌^◌, IfSome, filter, find, option_map};

use crate::asked::{last, unsent};
use crate::pair::Pair;
use file_calls::store::FileStore;
use hybrid_model::Event;
use mck_word::Tid;
use page_map::PageTable;
use pair_core::Side;
use run_model::most_per_run;

fn is_up_to(end: Option<Tid>, t: Tid) -> bool
    ensures { result ≡ is_up_to (option_map thread_number end) t.0 }
{
    match end {
        Some(end) => t.0 <= end.0,
        None => true,
    }
}

impl<T: PageTable + Drop, F: FileStore> Pair<T, F> {
    /// How many instructions may still be executed in all.
    fn left_of_limit(&self) -> u64
        ensures { let node = (pair_of T.rows F.files self.now.parts).node in result ≡ node.limit - instructions_in_all node }
    {
        self.parts.lwk.node.left_of_limit()
    }

    fn run_on(&self, core: u32, t: Tid) -> Event
        ensures { result ≡ run_of (pair_of T.rows F.files self.now.parts) core t.0 }
    {
        let most = self.left_of_limit().min(u64::from(most_per_run()));
        Event::Run(core, t, most as u32)
    }

    /// The first of the events of a thread on its core, where that is the side of its process.
    fn event_there(&self, side: &Side<T>, core: u32, t: Tid) -> Option<Event>
        requires { IsThere T.rows F.files self.now.parts (thread_of (pair_of T.rows F.files self.now.parts).node t.0).process side.now }
        ensures { result ≡ first_that_may (pair_of T.rows F.files self.now.parts) (events_on_core (pair_of T.rows F.files self.now.parts) core t.0) }
    {
        if self.may_there(side, Event::Trap(t)) {
            return Some(Event::Trap(t));
        }
        if self.may_there(side, Event::Deliver(t)) {
            return Some(Event::Deliver(t));
        }
        self.if_it_may(side, self.run_on(core, t))
    }

    /// The first of the events of a thread on its core.
    fn event_on_core(&self, core: u32, t: Tid) -> Option<Event>
        ensures { result ≡ first_that_may (pair_of T.rows F.files self.now.parts) (events_on_core (pair_of T.rows F.files self.now.parts) core t.0) }
    {
        match self.side_there(self.parts.lwk.node.process_of_thread(t)) {
            Some(side) => self.event_there(side, core, t),
            None => None,
        }
    }

    /// The lowest thread of the core from there on.
    fn next_on_core(&self, core: u32, from: Tid) -> Option<Tid>
        ensures value { option_map thread_number result ≡ next_such (is_on_core (pair_of T.rows F.files self.now.parts) core) from.0 (keys (pair_of T.rows F.files self.now.parts).node.threads) }
        ensures below { IfSome result (λ t. t.0 < 2 ^ 32 - 1) }
    {
        self.members.next_on_core(core, from)
    }

    /// The lowest thread of the core above that one, or of all.
    fn on_core_above(&self, core: u32, last: Option<Tid>) -> Option<Tid>
        ensures { option_map thread_number result ≡ find (is_above_last (option_map thread_number last)) (threads_on (pair_of T.rows F.files self.now.parts) core) }
    {
        match last {
            Some(t) => self.next_on_core(core, Tid(t.0.saturating_add(1))),
            None => self.next_on_core(core, Tid(0)),
        }
    }

    /// The lowest thread of the core above `last`, where it is up to `end`.
    fn on_core_between(&self, core: u32, last: Option<Tid>, end: Option<Tid>) -> Option<Tid>
        ensures { option_map thread_number result ≡ find (is_above_last (option_map thread_number last)) (filter (is_up_to (option_map thread_number end)) (threads_on (pair_of T.rows F.files self.now.parts) core)) }
    {
        let Some(t) = self.on_core_above(core, last) else {
            return None
        };
        if is_up_to(end, t) { Some(t) } else { None }
    }

    /// The event of the lowest thread of the core above `last` and up to `end` that has one.
    fn first_between(&self, core: u32, last: Option<Tid>, end: Option<Tid>) -> Option<Event>
        ensures { result ≡ first_by (core_event (pair_of T.rows F.files self.now.parts) core) (filter (is_above_last (option_map thread_number last)) (filter (is_up_to (option_map thread_number end)) (keys (pair_of T.rows F.files self.now.parts).node.threads))) }
    {
        let mut passed = last;
        while let Some(t) = self.on_core_between(core, passed, end) {
            if let Some(event) = self.event_on_core(core, t) {
                return Some(event);
            }
            passed = Some(t);
        }
        None
    }

    /// What the core offers: of the next thread above its last one that has an event, else of the lowest up to the
    /// last one.
    pub(crate) fn offer_on_core(&self, core: u32) -> Option<Event>
        ensures { result ≡ core_offer (pair_of T.rows F.files self.now.parts) core }
    {
        let last = last(&self.parts, core);
        if let Some(event) = self.first_between(core, last, None) {
            return Some(event);
        }
        let Some(end) = last else { return None };
        self.first_between(core, None, Some(end))
    }

    /// What the script offers: its first unsent line that may be sent.
    pub(crate) fn offer_of_script(&self) -> Option<Event>
        ensures { result ≡ script_offer (pair_of T.rows F.files self.now.parts) }
    {
        let mut place = 0;
        while let Some(index) = unsent(&self.parts, place) {
            if self.may(&Event::Script(index)) {
                return Some(Event::Script(index));
            }
            place += 1;
        }
        None
    }
}

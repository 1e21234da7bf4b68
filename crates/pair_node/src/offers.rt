// What each actor offers.
ghost use Rattle.hybrid_model.specs.Events.{may, process_of_event};
ghost use Rattle.kernel_model.specs.Nodes.{is_there};
ghost use Rattle.mck_word.specs.Lists.{count_from};
ghost use Rattle.pair_core.specs.Shown.{pair_of};
ghost use Rattle.pair_core.specs.There.{IsThere};
ghost use Rattle.pair_offers.specs.Seeking.{event_of, process_of};
ghost use Rattle.run_model.specs.Walks.{first_that_may};
ghost use Rattle.std.specs.Prelude.{◌≡◌, ◌∷◌, [], MatchOption, false, map};

use crate::pair::Pair;
use file_calls::store::FileStore;
use hybrid_model::Event;
use mck_word::Pid;
use node_machine::Offers;
use page_map::PageTable;
use pair_core::Side;
use pair_offers::Numbered;

fn numbered_event(what: Numbered, number: u32) -> Event
    ensures { result ≡ event_of what number }
{
    match what {
        Numbered::Answers(p) => Event::Answer(p, number),
        Numbered::Fetches(p) => Event::Fetch(p, number),
        Numbered::Assigns(p) => Event::Assign(p, number),
    }
}

impl<T: PageTable + Drop, F: FileStore> Pair<T, F> {
    /// The side of the process: None exactly where the process isn't there.
    pub(crate) fn side_there(&self, p: Pid) -> Option<&Side<T>>
        ensures { MatchOption result (is_there (pair_of T.rows F.files self.now.parts).node p.0 ≡ false) (λ side. IsThere T.rows F.files self.now.parts p.0 side.now) }
    {
        self.parts.side_there(p)
    }

    /// Whether the event may happen in its process, whose side that is.
    pub(crate) fn may_there(&self, side: &Side<T>, event: Event) -> bool
        requires { IsThere T.rows F.files self.now.parts (process_of_event (pair_of T.rows F.files self.now.parts).node event) side.now }
        ensures { result ≡ may (pair_of T.rows F.files self.now.parts) event }
    {
        self.parts.may_there(side, event)
    }

    /// The event, where it may happen in its process, whose side that is.
    pub(crate) fn if_it_may(&self, side: &Side<T>, event: Event) -> Option<Event>
        requires { IsThere T.rows F.files self.now.parts (process_of_event (pair_of T.rows F.files self.now.parts).node event) side.now }
        ensures { result ≡ first_that_may (pair_of T.rows F.files self.now.parts) (event ∷ []) }
    {
        if self.may_there(side, event) {
            Some(event)
        } else {
            None
        }
    }

    /// The first of so many events of a process, whose side that is, that may happen.
    pub(crate) fn first_numbered(&self, side: &Side<T>, what: Numbered, count: u32) -> Option<Event>
        requires { IsThere T.rows F.files self.now.parts (process_of what) side.now }
        ensures { result ≡ first_that_may (pair_of T.rows F.files self.now.parts) (map (event_of what) (count_from 0 count)) }
    {
        let mut number = 0;
        while number < count {
            if let Some(event) = self.if_it_may(side, numbered_event(what, number)) {
                return Some(event);
            }
            number += 1;
        }
        None
    }
}

impl<T: PageTable + Drop, F: FileStore> Offers for Pair<T, F> {
    ghost pair = { λ x. pair_of T.rows F.files x.parts };

    fn cores(&self) -> u32 {
        self.parts.lwk.cores
    }

    fn workers(&self) -> u32 {
        self.parts.workers
    }

    fn processes(&self) -> &[Pid] {
        self.pids()
    }

    fn core_offer(&self, core: u32) -> Option<Event> {
        self.offer_on_core(core)
    }

    fn kernel_offer(&self, p: Pid) -> Option<Event> {
        match self.side_there(p) {
            Some(side) => self.offer_of_kernel(side, p),
            None => None,
        }
    }

    fn linux_offer(&self, p: Pid) -> Option<Event> {
        match self.side_there(p) {
            Some(side) => self.offer_of_linux(side, p),
            None => None,
        }
    }

    fn worker_offer(&self, p: Pid, w: u32) -> Option<Event> {
        match self.side_there(p) {
            Some(side) => self.offer_of_worker(side, p, w),
            None => None,
        }
    }

    fn script_offer(&self) -> Option<Event> {
        self.offer_of_script()
    }
}

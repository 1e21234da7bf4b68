// What the Linux side of a process offers, and what its workers do.
ghost use Rattle.hybrid_model.specs.Pairs.{side_of};
ghost use Rattle.hybrid_model.specs.declared.events.Event.TheVariants.{Unpark};
ghost use Rattle.key_rows.specs.Table.{key_from};
ghost use Rattle.mck_word.specs.Identifiers.{req};
ghost use Rattle.mck_word.specs.Maps.{keys};
ghost use Rattle.pair_core.specs.Shown.{pair_of};
ghost use Rattle.pair_core.specs.There.{IsThere};
ghost use Rattle.pair_offers.specs.Seeking.{request_number};
ghost use Rattle.pair_offers.specs.Stances.{left_events};
ghost use Rattle.pair_offers.specs.declared.stance.Stance.TheVariants.{Holding, Pinned};
ghost use Rattle.run_model.specs.Walks.{first_that_may, is_above_last, linux_offer, worker_offer};
ghost use Rattle.std.specs.Prelude.{◌≡◌, ◌-◌, ◌<◌, ◌^◌, IfSome, find, map, option_map};

use crate::asked::stance_at;
use crate::pair::Pair;
use file_calls::store::FileStore;
use hybrid_model::Event;
use mck_word::{Pid, Req};
use page_map::PageTable;
use pair_core::Side;
use pair_offers::{Numbered, Stance};

impl<T: PageTable + Drop, F: FileStore> Pair<T, F> {
    /// The lowest request of the process, whose side that is, from there on.
    fn next_request(&self, side: &Side<T>, p: Pid, from: Req) -> Option<Req>
        requires { IsThere T.rows F.files self.now.parts p.0 side.now }
        ensures value { option_map request_number result ≡ key_from (side_of (pair_of T.rows F.files self.now.parts) p.0).book.rows from.0 }
        ensures below { IfSome result (λ q. q.0 < 2 ^ 64 - 1) }
    {
        side.channel.book.next(from)
    }

    /// The lowest request of the process, whose side that is, above that one, or of all.
    fn request_above(&self, side: &Side<T>, p: Pid, last: Option<Req>) -> Option<Req>
        requires { IsThere T.rows F.files self.now.parts p.0 side.now }
        ensures { option_map request_number result ≡ find (is_above_last (option_map request_number last)) (keys (side_of (pair_of T.rows F.files self.now.parts) p.0).book.rows) }
    {
        match last {
            Some(q) => self.next_request(side, p, Req(q.0.saturating_add(1))),
            None => self.next_request(side, p, Req(0)),
        }
    }

    /// The first request of the process, whose side that is, that may be taken up again.
    fn first_unpark(&self, side: &Side<T>, p: Pid) -> Option<Event>
        requires { IsThere T.rows F.files self.now.parts p.0 side.now }
        ensures { result ≡ first_that_may (pair_of T.rows F.files self.now.parts) (map (λ q. Unpark p (req q)) (keys (side_of (pair_of T.rows F.files self.now.parts) p.0).book.rows)) }
    {
        let mut passed = None;
        while let Some(q) = self.request_above(side, p, passed) {
            if let Some(event) = self.if_it_may(side, Event::Unpark(p, q)) {
                return Some(event);
            }
            passed = Some(q);
        }
        None
    }

    /// What the Linux side of the process offers, whose side that is.
    pub(crate) fn offer_of_linux(&self, side: &Side<T>, p: Pid) -> Option<Event>
        requires { IsThere T.rows F.files self.now.parts p.0 side.now }
        ensures { result ≡ linux_offer (pair_of T.rows F.files self.now.parts) p.0 }
    {
        if let Some(event) = self.first_numbered(side, Numbered::Fetches(p), self.parts.lwk.rings) {
            return Some(event);
        }
        if let Some(event) = self.if_it_may(side, Event::AckClear(p)) {
            return Some(event);
        }
        if let Some(event) = self.first_numbered(side, Numbered::Assigns(p), self.parts.workers) {
            return Some(event);
        }
        self.first_unpark(side, p)
    }

    /// Of a worker with a pin.
    fn offer_of_pinned(&self, side: &Side<T>, p: Pid, w: u32) -> Option<Event>
        requires { IsThere T.rows F.files self.now.parts p.0 side.now }
        ensures { result ≡ first_that_may (pair_of T.rows F.files self.now.parts) (left_events Pinned p.0 w) }
    {
        if self.may_there(side, Event::Copy(p, w)) {
            return Some(Event::Copy(p, w));
        }
        self.if_it_may(side, Event::Unpin(p, w))
    }

    /// Of a worker that holds a request, and has no pin.
    fn offer_of_holding(&self, side: &Side<T>, p: Pid, w: u32) -> Option<Event>
        requires { IsThere T.rows F.files self.now.parts p.0 side.now }
        ensures { result ≡ first_that_may (pair_of T.rows F.files self.now.parts) (left_events Holding p.0 w) }
    {
        if self.may_there(side, Event::Miss(p, w)) {
            return Some(Event::Miss(p, w));
        }
        if self.may_there(side, Event::Pin(p, w)) {
            return Some(Event::Pin(p, w));
        }
        if self.may_there(side, Event::Act(p, w)) {
            return Some(Event::Act(p, w));
        }
        self.if_it_may(side, Event::Park(p, w))
    }

    /// What the worker of the process offers, whose side that is. Only the events that are left by how the worker
    /// stands are asked.
    pub(crate) fn offer_of_worker(&self, side: &Side<T>, p: Pid, w: u32) -> Option<Event>
        requires { IsThere T.rows F.files self.now.parts p.0 side.now }
        ensures { result ≡ worker_offer (pair_of T.rows F.files self.now.parts) p.0 w }
    {
        match stance_at(&side.proxy, &side.channel.book, w) {
            Stance::Pinned => self.offer_of_pinned(side, p, w),
            Stance::Holding => self.offer_of_holding(side, p, w),
            Stance::Other => self.if_it_may(side, Event::Finish(p, w)),
        }
    }
}

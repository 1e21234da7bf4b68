// When an event of the Linux side may happen.
ghost use Rattle.hybrid_laws.specs.EventKinds.{is_of_linux};
ghost use Rattle.hybrid_model.specs.Events.{may, may_here};
ghost use Rattle.hybrid_model.specs.Globals.{Coherent};
ghost use Rattle.hybrid_model.specs.Rings.{ring};
ghost use Rattle.kernel_model.specs.Nodes.{is_there};
ghost use Rattle.pair_core.specs.LinuxRoom.{linux_process};
ghost use Rattle.pair_core.specs.Shown.{here_in, pair_of};
ghost use Rattle.std.specs.Prelude.{◌&&◌, ◌==◌, ◌≡◌, length, not, option_map};

use crate::parts::{Parts, Side};
use file_calls::store::FileStore;
use hybrid_model::Event;
use ikc_channel::Rings;
use mck_word::Pid;
use page_map::PageTable;

/// Whether the ring has a message.
fn has_message(rings: &Rings, r: u32) -> bool
    ensures { result ≡ not (length (ring r rings.now.messages) == 0) }
{
    rings.head(r).is_some()
}

/// The process of an event of the Linux side: None exactly where the event is of the lightweight kernel.
fn process_of(event: Event) -> Option<Pid>
    ensures { option_map (λ p. p.0) result ≡ linux_process event }
{
    match event {
        Event::Fetch(p, _)
        | Event::Assign(p, _)
        | Event::Miss(p, _)
        | Event::Pin(p, _)
        | Event::Copy(p, _)
        | Event::Unpin(p, _)
        | Event::Act(p, _)
        | Event::Park(p, _)
        | Event::Unpark(p, _)
        | Event::Finish(p, _)
        | Event::AckClear(p) => Some(p),
        _ => None,
    }
}

#[tactic(auto, unfolding(kernel_tables::specs::Shown::node_of))]
impl<T: PageTable + Drop, F: FileStore> Parts<T, F> {
    /// Whether the event is of the Linux side and may happen in the process.
    pub(crate) fn may_on(&self, side: &Side<T>, event: Event) -> bool
        ensures { result ≡ (is_of_linux event && may_here event (here_in T.rows F.files self.now side.now)) }
    {
        let proxy = &side.proxy;
        let book = &side.channel.book;
        match event {
            Event::Fetch(_, r) => has_message(&side.channel.to_linux, r),
            Event::Assign(_, w) => w < self.workers && proxy.may_assign(w, book),
            Event::Miss(_, w) => w < self.workers && proxy.may_miss(w, book, &self.files),
            Event::Pin(_, w) => w < self.workers && proxy.may_pin(w, book, &self.files),
            Event::Copy(_, w) => w < self.workers && proxy.may_copy(w, book, &self.files),
            Event::Unpin(_, w) => w < self.workers && proxy.may_unpin(w, book, &self.files),
            Event::Act(_, w) => w < self.workers && proxy.may_act(w, book, &self.files),
            Event::Park(_, w) => w < self.workers && proxy.may_park(w, book, &self.files),
            Event::Unpark(p, q) => proxy.may_unpark(q, book, &self.files, p, &self.turns),
            Event::Finish(_, w) => w < self.workers && proxy.may_finish(w, book),
            Event::AckClear(_) => proxy.may_ack_clear(&side.channel.round),
            Event::Run(..)
            | Event::Trap(_)
            | Event::Deliver(_)
            | Event::Intake(_)
            | Event::Answer(..)
            | Event::BeginVm(_)
            | Event::Interrupt(_)
            | Event::Wait(_)
            | Event::Reap(_)
            | Event::Script(_) => false,
        }
    }

    /// Whether the event is of the Linux side and may happen.
    pub fn may_linux(&self, event: Event) -> bool
        requires { Coherent (pair_of T.rows F.files self.now) }
        ensures { result ≡ (is_of_linux event && may (pair_of T.rows F.files self.now) event) }
    {
        let Some(p) = process_of(event) else {
            return false;
        };
        match self.sides.get(p.0 as u64) {
            Some(side) => self.lwk.node.is_there(p) && self.may_on(side, event),
            None => false,
        }
    }
}

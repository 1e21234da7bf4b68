// Answer: the lightweight kernel answers a fault that it noted.
ghost use Rattle.hybrid_model.specs.Answer.{files_after_answer};
ghost use Rattle.hybrid_model.specs.Events.{after};
ghost use Rattle.hybrid_model.specs.Sides.{call_of, served, serves};
ghost use Rattle.hybrid_model.specs.declared.events.Event.TheVariants.{Answer};
ghost use Rattle.pair_core.specs.Kept.{Kept};
ghost use Rattle.pair_core.specs.Ready.{Ready};
ghost use Rattle.pair_core.specs.Shown.{pair_of};
ghost use Rattle.proxy_worker.specs.Shown.{linux_of};
ghost use Rattle.std.specs.Prelude.{◌≡◌};

use crate::parts::Parts;
use file_calls::store::FileStore;
use guest_laws::no_ring_is_full;
use ikc_channel::Channel;
use lwk_side::answer_to;
use mck_flags::Rights;
use mck_word::{Frame, Pid, Tid};
use page_map::PageTable;
use proxy_worker::Proxy;

/// The thread whose request the worker serves, or thread 0.
fn thread_served(channel: &Channel, proxy: &Proxy, w: u32) -> Tid
    ensures { result.0 ≡ (call_of channel.now.book.requests (serves (linux_of proxy.now) w)).tid.0 }
{
    match channel.book.call(proxy.serves(w)) {
        Some(call) => call.tid,
        None => Tid(0),
    }
}

/// Without a row the call of the worker gives its description back.
fn give_back_without<F: FileStore>(
    row: Option<(Frame, Rights)>,
    proxy: &Proxy,
    files: &mut F,
    w: u32,
)
    ensures { F.files files.new ≡ files_after_answer row (served (linux_of proxy.now) w).progress (F.files files.old) }
{
    match row {
        Some(_) => {}
        None => proxy.give_back(w, files),
    }
}

impl<T: PageTable + Drop, F: FileStore> Parts<T, F> {
    /// The noted fault of a worker is answered. An empty answer ends the call, which gives its description back.
    pub fn answer(&mut self, p: Pid, w: u32)
        requires ready { Ready (pair_of T.rows F.files self.old) (Answer p w) }
        requires kept { Kept self.old }
        ensures after { pair_of T.rows F.files self.new ≡ after (pair_of T.rows F.files self.old) (Answer p w) }
        ensures kept { Kept self.new }
    {
        no_ring_is_full();
        let side = self.sides.row_mut(p.0 as u64);
        let t = thread_served(&side.channel, &side.proxy, w);
        let row = answer_to(&side.task, &side.channel, w);
        self.lwk
            .give_answer(&mut side.task, &mut side.channel, w, t);
        give_back_without(row, &side.proxy, &mut self.files, w);
    }
}

// Fetch: the proxy takes the first message of a ring.
ghost use Rattle.hybrid_model.specs.Events.{after};
ghost use Rattle.hybrid_model.specs.declared.events.Event.TheVariants.{Fetch};
ghost use Rattle.pair_core.specs.Kept.{Kept};
ghost use Rattle.pair_core.specs.LinuxRoom.{HasFetchRoom, HasLinuxRoom};
ghost use Rattle.pair_core.specs.Ready.{Ready};
ghost use Rattle.pair_core.specs.Shown.{pair_of};
ghost use Rattle.proxy_worker.specs.Shown.{linux_of};
ghost use Rattle.std.specs.Option.{option_copied};
ghost use Rattle.std.specs.Prelude.{◌≡◌, OnOk};

use crate::parts::{Parts, Side};
use file_calls::store::FileStore;
use ikc_ring::Msg;
use mck_word::{NoMemory, Pid};
use page_map::PageTable;
use proxy_worker::Proxy;
use std::alloc::Global;

/// Makes the room that the first message of a ring needs.
fn make_message_room(m: Option<&Msg>, proxy: &mut Proxy) -> Result<(), NoMemory>
    ensures same { linux_of proxy.new ≡ linux_of proxy.old }
    ensures room { OnOk result (HasFetchRoom (option_copied m.entry) proxy.new) }
{
    match m {
        Some(Msg::Request(_)) => proxy.reserve_service(),
        Some(Msg::Answer { .. }) => proxy.reserve_mirror(),
        _ => Ok(()),
    }
}

/// How many rounds of the process began.
fn rounds_begun<T: PageTable>(side: &Side<T>) -> u64
    ensures { result ≡ side.now.task.begun }
{
    side.task.begun
}

impl<T: PageTable + Drop, F: FileStore> Parts<T, F> {
    /// Makes the room that the first message of a ring needs, where the process has a row.
    pub(crate) fn make_fetch_room(&mut self, p: Pid, r: u32) -> Result<(), NoMemory>
        ensures same { pair_of T.rows F.files self.new ≡ pair_of T.rows F.files self.old }
        ensures kept { Kept self.old → Kept self.new }
        ensures room { OnOk result (HasLinuxRoom F.room F.can_write F.files (Fetch p r) self.new) }
    {
        if self.sides.get(p.0 as u64).is_none() {
            return Ok(());
        }
        let side = self.sides.row_mut(p.0 as u64);
        make_message_room(side.channel.to_linux.head(r), &mut side.proxy)
    }

    /// The proxy takes the first message of a ring.
    pub fn fetch(&mut self, alloc: Global, p: Pid, r: u32)
        requires ready { Ready (pair_of T.rows F.files self.old) (Fetch p r) }
        requires kept { Kept self.old }
        requires room { HasLinuxRoom F.room F.can_write F.files (Fetch p r) self.old }
        ensures after { pair_of T.rows F.files self.new ≡ after (pair_of T.rows F.files self.old) (Fetch p r) }
        ensures kept { Kept self.new }
    {
        let side = self.sides.row_mut(p.0 as u64);
        // As many Clears as rounds began are below 2^64.
        let _begun = rounds_begun(side);
        let Some(m) = side.channel.to_linux.take(r) else {
            return;
        };
        side.proxy
            .fetch(alloc, &m, &mut side.channel.book, &mut side.channel.round);
    }
}

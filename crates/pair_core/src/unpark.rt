// Unpark: a parked request that can go on waits for a worker again.
ghost use Rattle.hybrid_model.specs.Events.{after};
ghost use Rattle.hybrid_model.specs.declared.events.Event.TheVariants.{Unpark};
ghost use Rattle.pair_core.specs.Kept.{Kept};
ghost use Rattle.pair_core.specs.LinuxRoom.{HasLinuxRoom};
ghost use Rattle.pair_core.specs.Ready.{Ready};
ghost use Rattle.pair_core.specs.Shown.{pair_of};
ghost use Rattle.proxy_worker.specs.Shown.{HasTurnRoom};
ghost use Rattle.std.specs.Prelude.{◌≡◌, OnOk};

use crate::parts::Parts;
use file_calls::store::FileStore;
use mck_word::{NoMemory, Pid, Req};
use page_map::PageTable;
use proxy_worker::Proxy;

impl<T: PageTable + Drop, F: FileStore> Parts<T, F> {
    /// Makes room for a turn.
    pub(crate) fn make_turn_room(&mut self) -> Result<(), NoMemory>
        ensures same { pair_of T.rows F.files self.new ≡ pair_of T.rows F.files self.old }
        ensures kept { Kept self.old → Kept self.new }
        ensures room { OnOk result (HasTurnRoom self.new.turns) }
    {
        self.turns.reserve()
    }

    /// A parked request waits for a worker again, and takes the turn where its step is ready.
    pub fn unpark(&mut self, p: Pid, q: Req)
        requires ready { Ready (pair_of T.rows F.files self.old) (Unpark p q) }
        requires kept { Kept self.old }
        requires room { HasLinuxRoom F.room F.can_write F.files (Unpark p q) self.old }
        ensures after { pair_of T.rows F.files self.new ≡ after (pair_of T.rows F.files self.old) (Unpark p q) }
        ensures kept { Kept self.new }
    {
        let side = self.sides.row_mut(p.0 as u64);
        side.proxy.take_turn(q, &self.files, p, &mut self.turns);
        Proxy::unpark(q, &mut side.channel.book);
    }
}

// Act: a worker makes the file step of its call.
ghost use Rattle.hybrid_model.specs.Events.{after};
ghost use Rattle.hybrid_model.specs.declared.events.Event.TheVariants.{Act};
ghost use Rattle.pair_core.specs.Kept.{Kept};
ghost use Rattle.pair_core.specs.LinuxRoom.{HasLinuxRoom};
ghost use Rattle.pair_core.specs.Ready.{Ready};
ghost use Rattle.pair_core.specs.Shown.{pair_of};
ghost use Rattle.std.specs.Prelude.{◌≡◌, OnOk};

use crate::parts::Parts;
use file_calls::store::FileStore;
use mck_word::{NoMemory, Pid};
use page_map::PageTable;

impl<T: PageTable + Drop, F: FileStore> Parts<T, F> {
    /// Makes the room that the file step of the worker's call needs, where the process has a row.
    pub(crate) fn make_act_room(&mut self, p: Pid, w: u32) -> Result<(), NoMemory>
        ensures same { pair_of T.rows F.files self.new ≡ pair_of T.rows F.files self.old }
        ensures kept { Kept self.old → Kept self.new }
        ensures room { OnOk result (HasLinuxRoom F.room F.can_write F.files (Act p w) self.new) }
    {
        if self.sides.get(p.0 as u64).is_none() {
            return Ok(());
        }
        let side = self.sides.row_mut(p.0 as u64);
        side.proxy.make_room_for_act(w, &mut self.files)
    }

    /// The worker makes the file step of its call.
    pub fn act(&mut self, p: Pid, w: u32)
        requires ready { Ready (pair_of T.rows F.files self.old) (Act p w) }
        requires kept { Kept self.old }
        requires room { HasLinuxRoom F.room F.can_write F.files (Act p w) self.old }
        ensures after { pair_of T.rows F.files self.new ≡ after (pair_of T.rows F.files self.old) (Act p w) }
        ensures kept { Kept self.new }
    {
        let side = self.sides.row_mut(p.0 as u64);
        side.proxy.give_up_turn(w, &self.files, p, &mut self.turns);
        side.proxy
            .act(w, &mut self.files, p, &mut side.channel.book);
    }
}

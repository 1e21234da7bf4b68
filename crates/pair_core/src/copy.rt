// Copy: a worker moves a piece between its call and the pinned frame.
ghost use Rattle.hybrid_model.specs.Events.{after};
ghost use Rattle.hybrid_model.specs.declared.events.Event.TheVariants.{Copy};
ghost use Rattle.pair_core.specs.Kept.{Kept};
ghost use Rattle.pair_core.specs.LinuxRoom.{HasLinuxRoom};
ghost use Rattle.pair_core.specs.Ready.{Ready};
ghost use Rattle.pair_core.specs.Shown.{pair_of};
ghost use Rattle.std.specs.Prelude.{◌≡◌, OnOk};

use crate::parts::Parts;
use file_calls::store::FileStore;
use mck_word::{NoMemory, Pid};
use page_map::PageTable;

impl<T: PageTable + Drop, F: FileStore> Parts<T, F> {
    /// Makes the room that the worker's next piece needs, where the process has a row.
    pub(crate) fn make_copy_room(&mut self, p: Pid, w: u32) -> Result<(), NoMemory>
        ensures same { pair_of T.rows F.files self.new ≡ pair_of T.rows F.files self.old }
        ensures kept { Kept self.old → Kept self.new }
        ensures room { OnOk result (HasLinuxRoom F.room F.can_write F.files (Copy p w) self.new) }
    {
        if self.sides.get(p.0 as u64).is_none() {
            return Ok(());
        }
        let side = self.sides.row_mut(p.0 as u64);
        side.proxy.make_room_for_copy(w, &mut self.files)
    }

    /// The worker moves its next piece between its call and the pinned frame.
    pub fn copy(&mut self, p: Pid, w: u32)
        requires ready { Ready (pair_of T.rows F.files self.old) (Copy p w) }
        requires kept { Kept self.old }
        requires room { HasLinuxRoom F.room F.can_write F.files (Copy p w) self.old }
        ensures after { pair_of T.rows F.files self.new ≡ after (pair_of T.rows F.files self.old) (Copy p w) }
        ensures kept { Kept self.new }
    {
        let side = self.sides.row_mut(p.0 as u64);
        let Some(pin) = side.proxy.pins().of(w) else {
            return;
        };
        // The table has the page, so its number is low.
        let _row = side.task.space.table().get(pin.page);
        side.proxy.give_up_turn(w, &self.files, p, &mut self.turns);
        let page = self.lwk.frames.page_mut(pin.frame);
        side.proxy
            .copy(w, &mut self.files, p, page, &mut side.channel.book);
    }
}

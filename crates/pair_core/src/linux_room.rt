// Room for the events of the Linux side.
ghost use Rattle.hybrid_model.specs.declared.events.Event.TheVariants.{Act, Copy, Fetch};
ghost use Rattle.pair_core.specs.Kept.{Kept};
ghost use Rattle.pair_core.specs.LinuxRoom.{HasLinuxRoom};
ghost use Rattle.pair_core.specs.Shown.{pair_of};
ghost use Rattle.std.specs.Prelude.{◌≡◌, OnOk};

use crate::parts::Parts;
use file_calls::store::FileStore;
use hybrid_model::Event;
use mck_word::NoMemory;
use page_map::PageTable;

impl<T: PageTable + Drop, F: FileStore> Parts<T, F> {
    /// Makes the room that the event of the Linux side needs. The parts show the same, also where memory lacks.
    pub fn make_linux_room(&mut self, event: Event) -> Result<(), NoMemory>
        ensures same { pair_of T.rows F.files self.new ≡ pair_of T.rows F.files self.old }
        ensures kept { Kept self.old → Kept self.new }
        ensures room { OnOk result (HasLinuxRoom F.room F.can_write F.files event self.new) }
    {
        match event {
            Event::Fetch(p, r) => self.make_fetch_room(p, r),
            Event::Copy(p, w) => self.make_copy_room(p, w),
            Event::Act(p, w) => self.make_act_room(p, w),
            Event::Unpark(..) => self.make_turn_room(),
            _ => Ok(()),
        }
    }
}

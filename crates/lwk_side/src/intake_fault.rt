// Intake of a fault: it is noted for its worker.
ghost use Rattle.hybrid_model.specs.Intake.{take_fault, take_reply};
ghost use Rattle.hybrid_model.specs.Rings.{rest_of};
ghost use Rattle.lwk_side.specs.Shown.{Rest, here_of};
ghost use Rattle.lwk_side.specs.Sound.{KeepsRings};
ghost use Rattle.std.specs.Prelude.{◌<◌, ◌≡◌};

use crate::kernel::Lwk;
use crate::task::Task;
use ikc_channel::Channel;
use mck_word::Access;
use page_map::PageTable;

#[tactic(auto, using(mck_word::specs::EachLaws::each_maps), unfolding(hybrid_model::specs::Intake::take_reply, hybrid_model::specs::Intake::take_fault))]
impl Lwk {
    /// The fault at the head of the ring is taken and noted for its worker.
    pub fn take_fault<T: PageTable>(
        &self,
        task: &mut Task<T>,
        channel: &mut Channel,
        w: u32,
        page: u64,
        access: Access,
    )
        requires { w < 4 }
        ensures event { (r : Rest) → here_of self.now (T.rows task.new.space.table) task.new channel.new r
            ≡ take_fault w page access (rest_of channel.old.to_lwk.items) (here_of self.now (T.rows task.old.space.table) task.old channel.old r) }
        ensures rings { KeepsRings channel.old channel.new }
    {
        task.noted.note(w, page, access);
        let _fault = channel.to_lwk.next();
    }
}

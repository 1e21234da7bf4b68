// Wait: a thread waits for a child no longer.
ghost use Rattle.hybrid_model.specs.OneProcess.{view_here, with_view};
ghost use Rattle.ikc_channel.specs.declared.Channel.{Channel as channels};
ghost use Rattle.kernel_model.specs.Traps.{waited};
ghost use Rattle.lwk_side.specs.Shown.{Rest, here_of};
ghost use Rattle.lwk_side.specs.Sound.{IsSound, KeepsFrames};
ghost use Rattle.std.specs.Prelude.{◌≡◌};

use crate::kernel::Lwk;
use crate::task::Task;
use mck_word::Tid;
use page_map::PageTable;

impl Lwk {
    /// The thread waits for a child no longer: the lowest selected child that is Ended is told, or the call is
    /// refused.
    pub fn wait<T: PageTable>(&mut self, task: &Task<T>, t: Tid)
        requires sound { IsSound self.old (T.rows task.now.space.table) }
        ensures event { (c : channels) (r : Rest) → here_of self.new (T.rows task.now.space.table) task.now c r
            ≡ (let h = here_of self.old (T.rows task.now.space.table) task.now c r in with_view (waited t.0 (view_here h)) h) }
        ensures frames { KeepsFrames self.old self.new }
    {
        lwk_calls::waited(&mut self.node, &task.space, &mut self.frames, t);
    }
}

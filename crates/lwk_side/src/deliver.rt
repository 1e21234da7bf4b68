// Deliver: a thread takes its next signal.
ghost use Rattle.hybrid_model.specs.Deliver.{after_deliver};
ghost use Rattle.lwk_side.specs.Shown.{Rest, here_of};
ghost use Rattle.lwk_side.specs.Sound.{IsSound, KeepsFrames};
ghost use Rattle.lwk_side.specs.Wired.{Wired};
ghost use Rattle.std.specs.Prelude.{◌≡◌};

use crate::kernel::Lwk;
use crate::task::Task;
use ikc_channel::Channel;
use mck_word::Tid;
use page_map::PageTable;

impl Lwk {
    /// The next signal of the thread is delivered: it begins the handler, or its process dies.
    pub fn deliver<T: PageTable>(&mut self, task: &Task<T>, channel: &Channel, t: Tid)
        requires sound { IsSound self.old (T.rows task.now.space.table) }
        requires wired { Wired self.old channel.now.to_linux }
        ensures event { (r : Rest) → here_of self.new (T.rows task.now.space.table) task.now channel.now r
            ≡ after_deliver t.0 (here_of self.old (T.rows task.now.space.table) task.now channel.now r) }
        ensures frames { KeepsFrames self.old self.new }
    {
        lwk_calls::deliver(&mut self.node, &task.space, &mut self.frames, t);
        self.ran_last(t);
    }
}

// Reap: a process ends, and gives its frames back.
ghost use Rattle.hybrid_model.specs.Reap.{may_reap, reap};
ghost use Rattle.ikc_channel.specs.declared.Channel.{Channel as channels};
ghost use Rattle.lwk_side.specs.Reaped.{reaped};
ghost use Rattle.lwk_side.specs.Shown.{Rest, here_of};
ghost use Rattle.lwk_side.specs.Sound.{IsSound, KeepsFrames};
ghost use Rattle.std.specs.Prelude.{◌≡◌};

use crate::kernel::Lwk;
use crate::task::Task;
use ikc_channel::Channel;
use mck_word::Pid;
use page_map::PageTable;
use std::alloc::Global;

#[tactic(auto, unfolding(hybrid_model::specs::Reap::reap))]
impl Lwk {
    /// Whether the process may be Ended: it dies, none of its threads has a call, no round is under way, and no
    /// message is in its rings.
    pub fn may_reap<T: PageTable>(&self, task: &Task<T>, channel: &Channel, p: Pid) -> bool
        ensures { (r : Rest) → result ≡ may_reap p.0 (here_of self.now (T.rows task.now.space.table) task.now channel.now r) }
    {
        self.node.may_end(p)
            && channel.round.now().is_none()
            && channel.to_linux.are_empty()
            && channel.to_lwk.head().is_none()
    }

    /// The process is Ended: its pages go, and their frames come free. Its mirror is to be emptied and its descriptors
    /// closed beside this.
    pub fn reap<T: PageTable>(&mut self, alloc: Global, task: &mut Task<T>, p: Pid)
        requires sound { IsSound self.old (T.rows task.old.space.table) }
        ensures event { (c : channels) (r : Rest) → here_of self.new (T.rows task.new.space.table) task.new c (reaped p.0 r)
            ≡ reap p.0 (here_of self.old (T.rows task.old.space.table) task.old c r) }
        ensures frames { KeepsFrames self.old self.new }
    {
        task.space.clear(alloc, &mut self.pool);
        self.node.process_ended(p);
    }
}

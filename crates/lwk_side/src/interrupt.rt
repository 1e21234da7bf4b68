// Interrupt: a thread is called back from its call, or its call is marked.
ghost use Rattle.hybrid_model.specs.Interrupt.{interrupt, is_calling, may_interrupt};
ghost use Rattle.lwk_side.specs.Marks.{marked};
ghost use Rattle.lwk_side.specs.Sound.{KeepsFrames, KeepsRings};
ghost use Rattle.lwk_side.specs.Shown.{Rest, here_of, shown_caller};
ghost use Rattle.lwk_side.specs.Wired.{HasPlace, Wired};
ghost use Rattle.mck_word.specs.Maps.{at, each};
ghost use Rattle.std.specs.Prelude.{◌≡◌, IsSome};

use crate::kernel::Lwk;
use crate::task::{Caller, Task};
use ikc_channel::Channel;
use ikc_ring::Msg;
use mck_word::Tid;
use page_map::PageTable;

#[tactic(auto, using(mck_word::specs::EachLaws::each_maps), unfolding(hybrid_model::specs::Interrupt::post_interrupt))]
impl Lwk {
    /// Whether the thread may be interrupted: its call isn't marked, and a signal is deliverable or its process dies;
    /// or a signal is deliverable while it sleeps or waits.
    pub fn may_interrupt<T: PageTable>(&self, task: &Task<T>, channel: &Channel, t: Tid) -> bool
        ensures { (r : Rest) → result ≡ may_interrupt t.0 (here_of self.now (T.rows task.now.space.table) task.now channel.now r) }
    {
        match task.callers.get(t.0 as u64) {
            Some(caller) => !caller.marked && self.node.may_be_marked(t),
            None => self.node.may_be_called_back(t),
        }
    }

    /// The call of a thread is marked, and its Interrupt posted.
    fn mark<T: PageTable>(
        &mut self,
        task: &mut Task<T>,
        channel: &mut Channel,
        t: Tid,
        caller: Caller,
    )
        requires wired { Wired self.old channel.old.to_linux }
        requires place { HasPlace self.old channel.old.to_linux t.0 }
        requires calls { IsSome (at task.old.callers.map t.0) }
        ensures event { (r : Rest) → here_of self.new (T.rows task.new.space.table) task.new channel.new r
            ≡ marked t.0 (shown_caller caller) (here_of self.old (T.rows task.old.space.table) task.old channel.old r) }
        ensures frames { KeepsFrames self.old self.new }
        ensures rings { KeepsRings channel.old channel.new }
    {
        let place = self.node.place(t);
        let ring = self.ring_of(t);
        let q = caller.request;
        task.callers.set(
            t.0 as u64,
            Caller {
                request: q,
                marked: true,
            },
        );
        channel.to_linux.post(ring, Msg::Interrupt { q, place });
        self.node.moved_to_own(t);
    }

    /// A thread that calls is marked, and its Interrupt posted; a resting one is back on its ecall.
    pub fn interrupt<T: PageTable>(&mut self, task: &mut Task<T>, channel: &mut Channel, t: Tid)
        requires wired { Wired self.old channel.old.to_linux }
        requires place { IsSome (at task.old.callers.map t.0) → HasPlace self.old channel.old.to_linux t.0 }
        ensures event { (r : Rest) → here_of self.new (T.rows task.new.space.table) task.new channel.new r
            ≡ interrupt t.0 (here_of self.old (T.rows task.old.space.table) task.old channel.old r) }
        ensures frames { KeepsFrames self.old self.new }
        ensures rings { KeepsRings channel.old channel.new }
    {
        match task.callers.get(t.0 as u64).copied() {
            Some(caller) => self.mark(task, channel, t, caller),
            None => self.node.called_back(t),
        }
    }
}

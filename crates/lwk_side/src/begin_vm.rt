// BeginVm: the round of a change begins.
ghost use Rattle.clear_rounds.specs.declared.Phase.TheVariants.{Posted};
ghost use Rattle.hybrid_model.specs.BeginVm.{begin_round, begin_vm, may_begin_vm};
ghost use Rattle.hybrid_model.specs.Pairs.{ring_of, with_side};
ghost use Rattle.lwk_side.specs.Sound.{KeepsRings};
ghost use Rattle.lwk_side.specs.Shown.{Rest, here_of};
ghost use Rattle.lwk_side.specs.Wired.{HasPlace, Wired};
ghost use Rattle.std.specs.Prelude.{◌≡◌, ◌+◌, ◌<◌, ◌^◌, None};

use crate::kernel::Lwk;
use crate::task::Task;
use ikc_channel::Channel;
use ikc_ring::Msg;
use mck_word::{PageRange, Tid};
use page_map::PageTable;

#[tactic(auto, unfolding(hybrid_model::specs::BeginVm::begin_round))]
impl Lwk {
    /// Whether the thread's change may begin its round: its process lives, and no round is under way.
    pub fn may_begin_vm<T: PageTable>(&self, task: &Task<T>, channel: &Channel, t: Tid) -> bool
        ensures { (r : Rest) → result ≡ may_begin_vm t.0 (here_of self.now (T.rows task.now.space.table) task.now channel.now r) }
    {
        self.node.may_change(t)
            && self.node.is_living(self.node.process_of_thread(t))
            && channel.round.now().is_none()
    }

    /// The round over a range begins for the thread, and its Clear is posted.
    pub fn begin_round<T: PageTable>(
        &self,
        task: &mut Task<T>,
        channel: &mut Channel,
        t: Tid,
        range: PageRange,
    )
        requires wired { Wired self.now channel.old.to_linux }
        requires place { HasPlace self.now channel.old.to_linux t.0 }
        requires none { channel.old.round ≡ None }
        requires few { task.old.begun + 1 < 2 ^ 64 }
        ensures event { (r : Rest) → here_of self.now (T.rows task.new.space.table) task.new channel.new r
            ≡ (let h = here_of self.now (T.rows task.old.space.table) task.old channel.old r in with_side h (begin_round (ring_of h t.0) t.0 range h.side)) }
        ensures rings { KeepsRings channel.old channel.new }
    {
        task.begun += 1;
        task.changing = Some(t);
        channel.round.begin(range);
        channel.to_linux.post(self.ring_of(t), Msg::Clear(range));
    }
}

// Answer: a noted fault is answered with the row of the table, or with none.
ghost use Rattle.hybrid_model.specs.Answer.{answer_to, give_answer, may_answer, post_answer, thread_served};
ghost use Rattle.hybrid_model.specs.Pairs.{ring_of, with_side};
ghost use Rattle.hybrid_model.specs.Sides.{LinuxSide, looked_up};
ghost use Rattle.lwk_side.specs.Sound.{KeepsRings};
ghost use Rattle.lwk_side.specs.Shown.{Rest, here_of, side_of};
ghost use Rattle.lwk_side.specs.Wired.{HasPlace, Wired};
ghost use Rattle.mck_word.specs.Maps.{at};
ghost use Rattle.std.specs.Prelude.{◌≡◌, ◌<◌, IsSome};

use crate::kernel::Lwk;
use crate::task::Task;
use ikc_channel::Channel;
use ikc_ring::Msg;
use mck_flags::Rights;
use mck_word::{Frame, Tid};
use page_map::PageTable;

/// Whether the fault of a worker was noted and lies outside the closing range.
pub fn may_answer<T: PageTable>(task: &Task<T>, channel: &Channel, w: u32) -> bool
    ensures { (l : LinuxSide) → result ≡ may_answer (side_of (T.rows task.now.space.table) task.now channel.now l) w }
{
    match task.noted.of(w) {
        Some((page, _)) => !channel.round.closing(page),
        None => false,
    }
}

/// What the noted fault of a worker is answered: the row, or nothing where the page is absent or lacks the right.
pub fn answer_to<T: PageTable>(task: &Task<T>, channel: &Channel, w: u32) -> Option<(Frame, Rights)>
    ensures { (l : LinuxSide) → result ≡ answer_to (side_of (T.rows task.now.space.table) task.now channel.now l) w }
{
    let (page, access) = task.noted.of(w).unwrap_or((0, mck_word::Access::Read));
    task.space.frame_at(page, access)
}

#[tactic(auto, unfolding(hybrid_model::specs::Answer::post_answer))]
impl Lwk {
    /// The noted fault of a worker is answered, in the ring of the thread `t` whose request it serves. An empty answer
    /// ends the call, whose description is to be given back beside this.
    pub fn give_answer<T: PageTable>(
        &self,
        task: &mut Task<T>,
        channel: &mut Channel,
        w: u32,
        t: Tid,
    )
        requires wired { Wired self.now channel.old.to_linux }
        requires place { HasPlace self.now channel.old.to_linux t.0 }
        requires worker { w < 4 }
        requires noted { IsSome (at task.old.noted w) }
        ensures event { (r : Rest) → thread_served (side_of (T.rows task.old.space.table) task.old channel.old r.linux) w ≡ t.0
            → here_of self.now (T.rows task.new.space.table) task.new channel.new r
            ≡ (let h = here_of self.now (T.rows task.old.space.table) task.old channel.old r in with_side h (post_answer (ring_of h t.0) w h.side)) }
        ensures rings { KeepsRings channel.old channel.new }
    {
        let Some((page, access)) = task.noted.of(w) else {
            return;
        };
        let row = task.space.frame_at(page, access);
        task.noted.strike(w);
        channel.to_linux.post(
            self.ring_of(t),
            Msg::Answer {
                worker: w,
                page,
                round: task.begun,
                row,
            },
        );
    }
}

// Messages that the lightweight kernel takes from its ring.
ghost use Rattle.hybrid_model.specs.Intake.{intake};
ghost use Rattle.lwk_side.specs.Acks.{FindsAck, IfAck};
ghost use Rattle.lwk_side.specs.Heads.{is_first_taken};
ghost use Rattle.lwk_side.specs.Sound.{KeepsFrames, KeepsRings};
ghost use Rattle.lwk_side.specs.Shown.{Rest, here_of};
ghost use Rattle.lwk_side.specs.Wired.{CallersFit};
ghost use Rattle.std.specs.Prelude.{◌≡◌, true};

use crate::kernel::Lwk;
use crate::task::Task;
use ikc_channel::Channel;
use ikc_ring::Msg;
use mck_word::Pid;
use page_map::PageTable;

impl Lwk {
    /// The message at the head of the ring is taken: a reply, a fault of one of the four workers, or the
    /// acknowledgement of a round. No other message stands in this ring.
    pub fn intake<T: PageTable>(&mut self, p: Pid, task: &mut Task<T>, channel: &mut Channel)
        requires callers { CallersFit task.old.callers.map }
        requires first { is_first_taken channel.old.to_lwk.items ≡ true }
        requires ack { IfAck channel.old.to_lwk.items (FindsAck (T.rows task.old.space.table) (T.has_room task.old.space.table) self.old task.old channel.old p.0) }
        ensures event { (r : Rest) → here_of self.new (T.rows task.new.space.table) task.new channel.new r
            ≡ intake p.0 channel.old.to_lwk.items (here_of self.old (T.rows task.old.space.table) task.old channel.old r) }
        ensures frames { KeepsFrames self.old self.new }
        ensures rings { KeepsRings channel.old channel.new }
    {
        match channel.to_lwk.head().copied() {
            Some(Msg::Reply { q, code }) => self.take_reply(task, channel, q, code),
            Some(
                Msg::Fault {
                    worker,
                    page,
                    access,
                },
            ) => self.take_fault(task, channel, worker, page, access),
            Some(Msg::Ack) => self.take_ack(task, channel, p),
            _ => {}
        }
    }
}

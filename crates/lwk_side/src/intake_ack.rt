// Intake of an acknowledgement: a round is over, and its change is refused or made.
ghost use Rattle.file_model.specs.Files.{Files};
ghost use Rattle.hybrid_model.specs.Intake.{changed, take_ack};
ghost use Rattle.hybrid_model.specs.OneProcess.{memory_here};
ghost use Rattle.hybrid_model.specs.Rings.{rest_of};
ghost use Rattle.ikc_channel.specs.declared.Channel.{Channel as channels};
ghost use Rattle.kernel_model.specs.MemoryCalls.{refusal_at_end};
ghost use Rattle.kernel_model.specs.Nodes.{process_of};
ghost use Rattle.kernel_tables.specs.Shown.{node_of};
ghost use Rattle.lwk_side.specs.Acks.{FindsAck};
ghost use Rattle.lwk_side.specs.Changing.{HasAckRoom, HeapFits, changing_in};
ghost use Rattle.lwk_side.specs.Shown.{Rest, here_of};
ghost use Rattle.lwk_side.specs.Sound.{IsSound, KeepsFrames, KeepsRings};
ghost use Rattle.lwk_space.specs.Lacks.{memory};
ghost use Rattle.offer_laws.specs.ChangeFits.{ChangeFits};
ghost use Rattle.std.specs.Prelude.{◌≡◌, Some, length};
ghost use Rattle.vm_calls.specs.Facts.{refusal};

use crate::kernel::Lwk;
use crate::task::Task;
use ikc_channel::Channel;
use kernel_model::{Change, Does};
use lwk_changes::finish;
use lwk_space::Space;
use mck_word::{Pid, Tid};
use page_map::PageTable;
use vm_calls::AtEnd;

/// The thread to which the round belongs, or thread 0.
pub fn changing_thread(changing: Option<Tid>) -> Tid
    ensures { result.0 ≡ changing_in changing }
{
    match changing {
        Some(t) => t,
        None => Tid(0),
    }
}

impl Lwk {
    /// What is decided at the end of the round over a change of the process.
    pub(crate) fn decides_at_end<T: PageTable>(
        &self,
        space: &Space<T>,
        p: Pid,
        change: &Change,
    ) -> AtEnd
        requires { (files : Files) → HeapFits (process_of (node_of self.now.node files) p.0) }
        ensures { (files : Files) → refusal result
            ≡ refusal_at_end (process_of (node_of self.now.node files) p.0) (memory (T.rows space.now.table) self.now.frames) (length self.now.pool.free) change.now }
    {
        let brk = self.node.program_break(p);
        let base = self.node.heap_base(p);
        finish(space, brk, base, self.pool.free(), change)
    }

    /// The change is refused or made, and its thread has its answer; in a process that doesn't live it is gone.
    fn ends_change<T: PageTable>(&mut self, task: &mut Task<T>, p: Pid, t: Tid, change: &Change)
        requires sound { IsSound self.old (T.rows task.old.space.table) }
        requires heap { (files : Files) → HeapFits (process_of (node_of self.old.node files) p.0) }
        requires fits { ChangeFits change.now }
        requires room { (files : Files) → HasAckRoom (T.has_room task.old.space.table) task.old.space.areas.spare (process_of (node_of self.old.node files) p.0)
            (memory (T.rows task.old.space.table) self.old.frames) (length self.old.pool.free) (Some change.now) }
        ensures after { (c : channels) (r : Rest) → here_of self.new (T.rows task.new.space.table) task.new c r
            ≡ (let h = here_of self.old (T.rows task.old.space.table) task.old c r in
            changed p.0 t.0 change.now (refusal_at_end (process_of h.node p.0) (memory_here h) (length h.free) change.now) h) }
        ensures frames { KeepsFrames self.old self.new }
    {
        match self.decides_at_end(&task.space, p, change) {
            AtEnd::Reply(answer) => self.node.finishes(t, answer),
            AtEnd::Make => self.make_change(task, p, t, change),
        }
    }

    /// The acknowledgement at the head of the ring is taken: the round is over, and its change is refused or made.
    pub fn take_ack<T: PageTable>(&mut self, task: &mut Task<T>, channel: &mut Channel, p: Pid)
        requires { FindsAck (T.rows task.old.space.table) (T.has_room task.old.space.table) self.old task.old channel.old p.0 }
        ensures event { (r : Rest) → here_of self.new (T.rows task.new.space.table) task.new channel.new r
            ≡ take_ack p.0 (rest_of channel.old.to_lwk.items) (here_of self.old (T.rows task.old.space.table) task.old channel.old r) }
        ensures frames { KeepsFrames self.old self.new }
        ensures rings { KeepsRings channel.old channel.new }
    {
        let t = changing_thread(task.changing);
        task.changing = None;
        channel.round.close();
        let _ack = channel.to_lwk.next();
        if let Does::InVm(change) = self.node.does(t) {
            self.ends_change(task, p, t, &change);
        }
    }
}

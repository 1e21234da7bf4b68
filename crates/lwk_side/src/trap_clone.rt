// The trap that makes a thread.
ghost use Rattle.hybrid_model.specs.OneProcess.{view_here, with_view};
ghost use Rattle.ikc_channel.specs.declared.Channel.{Channel as channels};
ghost use Rattle.kernel_model.specs.CloneCalls.{clone};
ghost use Rattle.kernel_model.specs.Traps.{past_ecall};
ghost use Rattle.lwk_side.specs.Cloning.{MayClone};
ghost use Rattle.lwk_side.specs.Shown.{Rest, here_of};
ghost use Rattle.lwk_side.specs.Sound.{IsSound, KeepsFrames};
ghost use Rattle.std.specs.Prelude.{◌≡◌, slice_index};

use crate::kernel::Lwk;
use crate::task::Task;
use mck_word::Tid;
use page_map::PageTable;

impl Lwk {
    /// A clone by the thread that makes a thread, behind its ecall.
    pub(crate) fn clones<T: PageTable>(&mut self, task: &Task<T>, t: Tid, args: &[u64; 6])
        requires sound { IsSound self.old (T.rows task.now.space.table) }
        requires clone { MayClone self.old.node t.0 }
        ensures after { (c : channels) (r : Rest) → here_of self.new (T.rows task.now.space.table) task.now c r
            ≡ (let h = here_of self.old (T.rows task.now.space.table) task.now c r in
            with_view (clone t.0 (slice_index args.now 0) (slice_index args.now 1) (slice_index args.now 2) (slice_index args.now 3) (slice_index args.now 4) (past_ecall t.0 (view_here h))) h) }
        ensures cores { self.new.cores ≡ self.old.cores }
        ensures frames { KeepsFrames self.old self.new }
    {
        self.node.past_ecall(t);
        lwk_calls::clone(&mut self.node, &task.space, &mut self.frames, t, args);
    }
}

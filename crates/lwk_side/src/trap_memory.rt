// The trap of a memory call: it is decided, and made, refused, or left to a round.
ghost use Rattle.file_model.specs.Files.{Files};
ghost use Rattle.hybrid_model.specs.OneProcess.{view_here};
ghost use Rattle.hybrid_model.specs.Trap.{trapped};
ghost use Rattle.ikc_channel.specs.declared.Channel.{Channel as channels};
ghost use Rattle.kernel_model.specs.MemoryCalls.{decide};
ghost use Rattle.kernel_model.specs.Nodes.{process_of};
ghost use Rattle.kernel_model.specs.Traps.{decided};
ghost use Rattle.kernel_tables.specs.Shown.{node_of};
ghost use Rattle.lwk_side.specs.Changing.{HasDecidedRoom, HasTrappedRoom, HeapFits, IsAhead, memory_call};
ghost use Rattle.lwk_side.specs.Shown.{Rest, here_of};
ghost use Rattle.lwk_side.specs.Sound.{IsSound, KeepsFrames};
ghost use Rattle.lwk_side.specs.Trapping.{IsOfProcess};
ghost use Rattle.lwk_space.specs.Lacks.{memory};
ghost use Rattle.lwk_views.specs.Views.{seen};
ghost use Rattle.offer_laws.specs.ChangeFits.{DecisionFits};
ghost use Rattle.std.specs.Prelude.{◌≡◌, length};
ghost use Rattle.vm_calls.specs.Facts.{decision};

use crate::kernel::Lwk;
use crate::task::Task;
use kernel_model::Does;
use lwk_changes::decide;
use lwk_space::Space;
use mck_word::{Pid, Tid};
use page_map::PageTable;
use system_calls::MemoryCall;
use vm_calls::VmPlan;

impl Lwk {
    /// What a memory call of the process decides.
    pub(crate) fn plans_memory_call<T: PageTable>(
        &self,
        space: &Space<T>,
        p: Pid,
        call: MemoryCall,
        args: &[u64; 6],
    ) -> VmPlan
        requires { (files : Files) → HeapFits (process_of (node_of self.now.node files) p.0) }
        ensures fits { DecisionFits (decision result) }
        ensures is { (files : Files) → decision result
            ≡ decide (process_of (node_of self.now.node files) p.0) (memory (T.rows space.now.table) self.now.frames) (length self.now.pool.free) call args.now }
    {
        let brk = self.node.program_break(p);
        let base = self.node.heap_base(p);
        decide(space, brk, base, self.pool.free(), call, args)
    }

    /// The thread has its answer, its change is made, or it waits for the round of its change.
    fn does_as_planned<T: PageTable>(&mut self, task: &mut Task<T>, p: Pid, t: Tid, plan: &VmPlan)
        requires sound { IsSound self.old (T.rows task.old.space.table) }
        requires fits { DecisionFits (decision plan.now) }
        requires room { (files : Files) → HasDecidedRoom (T.has_room task.old.space.table) task.old.space.areas.spare (process_of (node_of self.old.node files) p.0).program_break (decision plan.now) }
        requires ahead { (files : Files) → IsAhead (memory (T.rows task.old.space.table) self.old.frames) (length self.old.pool.free) (process_of (node_of self.old.node files) p.0).program_break (decision plan.now) }
        ensures after { (c : channels) (r : Rest) → here_of self.new (T.rows task.new.space.table) task.new c r
            ≡ (let h = here_of self.old (T.rows task.old.space.table) task.old c r in
            trapped p.0 t.0 (decided t.0 (view_here h) (decision plan.now)) h) }
        ensures cores { self.new.cores ≡ self.old.cores }
        ensures frames { KeepsFrames self.old self.new }
    {
        match *plan {
            VmPlan::Reply(answer) => self.node.answered(t, answer),
            VmPlan::Now(change) => self.make_change(task, p, t, &change),
            VmPlan::Round(_, change) => self.node.set_does(t, Does::InVm(change)),
        }
    }

    /// A memory call of the thread is made, behind its ecall.
    pub(crate) fn calls_for_memory<T: PageTable>(
        &mut self,
        task: &mut Task<T>,
        p: Pid,
        t: Tid,
        call: MemoryCall,
        args: &[u64; 6],
    )
        requires sound { IsSound self.old (T.rows task.old.space.table) }
        requires own { IsOfProcess self.old.node p.0 t.0 }
        requires room { (files : Files) → HasTrappedRoom (T.has_room task.old.space.table) task.old.space.areas.spare p.0
            (memory_call t.0 (length self.old.pool.free) call args.now (seen (T.rows task.old.space.table) self.old.node self.old.frames files)) }
        ensures after { (c : channels) (r : Rest) → here_of self.new (T.rows task.new.space.table) task.new c r
            ≡ (let h = here_of self.old (T.rows task.old.space.table) task.old c r in
            trapped p.0 t.0 (memory_call t.0 (length h.free) call args.now (view_here h)) h) }
        ensures cores { self.new.cores ≡ self.old.cores }
        ensures frames { KeepsFrames self.old self.new }
    {
        self.node.past_ecall(t);
        let plan = self.plans_memory_call(&task.space, p, call, args);
        self.does_as_planned(task, p, t, &plan);
    }
}

// Traps of stopped threads: local calls, forks, and delegated calls that begin.
ghost use Rattle.kernel_model.specs.Steps.{after};
ghost use Rattle.kernel_model.specs.declared.steps.Step.TheVariants.{Trap};
ghost use Rattle.one_calls.specs.LocalTraps.{calls_fork, traps_locally};
ghost use Rattle.one_kernel.specs.Parts.{one_of};
ghost use Rattle.one_kernel.specs.Ready.{Ready};
ghost use Rattle.one_kernel.specs.Rooms.{HasCallRoom, HasForkRoom};
ghost use Rattle.one_kernel.specs.Trapping.{begins_call};
ghost use Rattle.std.specs.Prelude.{◌≡◌, ◌≤◌, true};

use crate::calls::{Call, Standing};
use crate::parts::{One, Own};
use crate::traps::delegated_call;
use call_progress::Progress;
use file_calls::store::FileStore;
use kernel_model::Does;
use kernel_tables::arguments_of;
use key_rows::Rows;
use mck_word::Tid;
use one_calls::{fork, trap};
use one_memory::PageRows;
use std::mem;

impl One {
    /// The trap of the thread that is local and no fork.
    pub(crate) fn trap_locally(&mut self, t: Tid)
        requires ready { Ready (one_of self.old) (Trap t) }
        requires local { traps_locally (one_of self.old).node t.0 ≡ true }
        requires sleeper { 1 ≤ self.old.node.sleepers.spare }
        requires thread { 1 ≤ self.old.node.threads.spare }
        ensures { one_of self.new ≡ after (one_of self.old) (Trap t) }
    {
        let p = self.node.process_of_thread(t);
        let own = self.own.row_mut(p.0 as u64);
        trap(&mut self.node, &mut own.memory, t);
    }

    /// The delegated call of the thread begins.
    pub(crate) fn begin_call(&mut self, t: Tid)
        requires ready { Ready (one_of self.old) (Trap t) }
        requires delegated { begins_call (one_of self.old).node t.0 ≡ true }
        requires room { HasCallRoom self.old t.0 }
        ensures { one_of self.new ≡ after (one_of self.old) (Trap t) }
    {
        let p = self.node.process_of_thread(t);
        let regs = self.node.regs(t);
        let own = self.own.row_mut(p.0 as u64);
        let call = delegated_call(&regs);
        let progress = Progress::of_call(self.alloc, call, &arguments_of(&regs));
        own.calls.put(
            t.0 as u64,
            Call {
                marked: false,
                standing: Standing::Active,
                progress,
            },
        );
        self.node.past_ecall(t);
        self.node.set_does(t, Does::Called);
    }

    /// The thread forks, or is refused.
    pub(crate) fn fork(&mut self, t: Tid)
        requires ready { Ready (one_of self.old) (Trap t) }
        requires fork { calls_fork (one_of self.old).node t.0 ≡ true }
        requires thread { 1 ≤ self.old.node.threads.spare }
        requires room { HasForkRoom self.old t.0 }
        ensures { one_of self.new ≡ after (one_of self.old) (Trap t) }
    {
        let p = self.node.process_of_thread(t);
        let own = self.own.row_mut(p.0 as u64);
        let pages = own.memory.count() as u64;
        let Some(child) = fork(
            &mut self.node,
            &mut own.memory,
            &mut self.unborn,
            p,
            t,
            self.free,
        ) else {
            return;
        };
        self.free = self.free.saturating_sub(pages);
        let memory = mem::replace(&mut self.unborn, PageRows::new(self.alloc));
        let calls = Rows::new(self.alloc);
        self.own.put(child.0 as u64, Own { memory, calls });
        self.files.share(p, child);
    }
}

// Traps at memory calls, changes of memory that had to wait, and the room for either.
ghost use Rattle.kernel_model.specs.Nodes.{thread_of};
ghost use Rattle.kernel_model.specs.Steps.{after};
ghost use Rattle.kernel_model.specs.declared.steps.Step.TheVariants.{Trap, VmFinish};
ghost use Rattle.mck_word.specs.Maps.{at};
ghost use Rattle.one_kernel.specs.Due.{HasChangeRoom, due};
ghost use Rattle.one_kernel.specs.Parts.{one_of};
ghost use Rattle.one_kernel.specs.Ready.{Ready};
ghost use Rattle.node_machine.specs.Reached.{IsShown};
ghost use Rattle.one_kernel.specs.Trapping.{calls_memory};
ghost use Rattle.one_kernel.specs.declared.parts.Own.{Own as owns};
ghost use Rattle.std.specs.Prelude.{◌≡◌, IsSome, OnOk, OnSome, Some, true};

use crate::changing::{due, finish_change, trap_memory};
use crate::parts::One;
use kernel_model::{Change, Does};
use mck_word::{NoMemory, Pid, Tid};
use one_changes::make_room_for;

impl One {
    /// The trap of the thread at a memory call: it is answered, its change is made, or it waits until its change may
    /// be made.
    pub(crate) fn trap_memory(&mut self, t: Tid)
        requires ready { Ready (one_of self.old) (Trap t) }
        requires memory { calls_memory (one_of self.old).node t.0 ≡ true }
        requires room { HasChangeRoom self.old t.0 }
        ensures { one_of self.new ≡ after (one_of self.old) (Trap t) }
    {
        let _frames = self.node.frame_count;
        let p = self.node.process_of_thread(t);
        let own = self.own.row_mut(p.0 as u64);
        trap_memory(&mut self.node, &mut own.memory, &mut self.free, p, t);
    }

    /// The change for which the thread has waited is refused or made.
    pub fn vm_finish(&mut self, t: Tid)
        requires ready { Ready (one_of self.old) (VmFinish t) }
        requires room { HasChangeRoom self.old t.0 }
        ensures { one_of self.new ≡ after (one_of self.old) (VmFinish t) }
    {
        let Does::InVm(change) = self.node.does(t) else {
            return;
        };
        let _frames = self.node.frame_count;
        let p = self.node.process_of_thread(t);
        let own = self.own.row_mut(p.0 as u64);
        finish_change(
            &mut self.node,
            &mut own.memory,
            &mut self.free,
            p,
            t,
            &change,
        );
    }

    /// The change that the thread of the process makes next.
    fn due_change(&self, p: Pid, t: Tid) -> Option<Change>
        requires shown { IsShown (one_of self.now) }
        requires own { (thread_of (one_of self.now).node t.0).process ≡ p.0 }
        ensures there { OnSome result (IsSome (at self.now.own.map p.0)) }
        ensures due { (w : owns) → at self.now.own.map p.0 ≡ Some w → result ≡ due (one_of self.now).node t.0 w.memory.map self.now.free }
    {
        match self.own.get(p.0 as u64) {
            Some(own) => due(&self.node, &own.memory, self.free, p, t),
            None => None,
        }
    }

    /// Makes room for the change that the thread makes next. The state stays, also where memory lacks.
    pub(crate) fn make_change_room(&mut self, t: Tid) -> Result<(), NoMemory>
        requires shown { IsShown (one_of self.old) }
        ensures state { one_of self.new ≡ one_of self.old }
        ensures node { self.new.node ≡ self.old.node }
        ensures room { OnOk result (HasChangeRoom self.new t.0) }
    {
        let p = self.node.process_of_thread(t);
        let Some(change) = self.due_change(p, t) else {
            return Ok(());
        };
        let brk = self.node.program_break(p);
        let own = self.own.row_mut(p.0 as u64);
        make_room_for(&mut own.memory, self.alloc, brk, &change)
    }
}

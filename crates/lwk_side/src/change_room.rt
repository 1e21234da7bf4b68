// Room for the changes of memory that a trap or the end of a round makes.
ghost use Rattle.file_model.specs.Files.{Files};
ghost use Rattle.kernel_model.specs.MemoryCalls.{refusal_at_end};
ghost use Rattle.kernel_model.specs.Nodes.{change_in, process_of, stop_in, thread_of};
ghost use Rattle.kernel_model.specs.Traps.{call_named, called, past_ecall, trap};
ghost use Rattle.kernel_tables.specs.Shown.{node_of};
ghost use Rattle.lwk_side.specs.Changing.{HasAckRoom, HasDecidedRoom, HasEndRoom, HasTrappedRoom, HeapFits, changing_in, is_ecall};
ghost use Rattle.lwk_space.specs.Lacks.{memory};
ghost use Rattle.lwk_views.specs.Views.{seen};
ghost use Rattle.offer_laws.specs.ChangeFits.{ChangeFits, DecisionFits, NodeFits};
ghost use Rattle.std.specs.Prelude.{◌≡◌, OnOk, length};
ghost use Rattle.vm_calls.specs.Facts.{decision};

use crate::intake_ack::changing_thread;
use crate::kernel::Lwk;
use crate::task::Task;
use isa_model::Stop;
use kernel_model::{Change, Does};
use kernel_tables::{arguments_of, call_named};
use lwk_changes::make_room_for;
use lwk_space::Space;
use mck_word::{NoMemory, Pid, Regs, Tid};
use page_map::PageTable;
use system_calls::SystemCall;
use vm_calls::{AtEnd, VmPlan};

/// Whether a thread that does so stands on an ecall.
fn stands_on_ecall(does: Does) -> bool
    ensures { result ≡ is_ecall (stop_in does) }
{
    matches!(does, Does::Stopped(Stop::Ecall))
}

impl Lwk {
    /// Makes room for the change that is planned to be made at once.
    fn make_planned_room<T: PageTable>(
        &self,
        space: &mut Space<T>,
        p: Pid,
        plan: &VmPlan,
    ) -> Result<(), NoMemory>
        requires { DecisionFits (decision plan.now) }
        ensures same { T.rows space.new.table ≡ T.rows space.old.table }
        ensures room { OnOk result ((files : Files) → HasDecidedRoom (T.has_room space.new.table) space.new.areas.spare (process_of (node_of self.now.node files) p.0).program_break (decision plan.now)) }
    {
        match *plan {
            VmPlan::Now(change) => make_room_for(space, self.node.program_break(p), &change),
            VmPlan::Reply(_) | VmPlan::Round(..) => Ok(()),
        }
    }

    /// Makes room for the change of the call that the registers name.
    fn make_call_room<T: PageTable>(
        &self,
        task: &mut Task<T>,
        p: Pid,
        t: Tid,
        regs: &Regs,
    ) -> Result<(), NoMemory>
        requires own { (files : Files) → (thread_of (node_of self.now.node files) t.0).process ≡ p.0 }
        requires heap { (files : Files) → HeapFits (process_of (node_of self.now.node files) p.0) }
        ensures same { T.rows task.new.space.table ≡ T.rows task.old.space.table }
        ensures others { task.new ≡ record task.old { space = task.new.space } }
        ensures room { OnOk result ((files : Files) → HasTrappedRoom (T.has_room task.new.space.table) task.new.space.areas.spare p.0
            (called t.0 (length self.now.pool.free) regs.now (past_ecall t.0 (seen (T.rows task.new.space.table) self.now.node self.now.frames files)) (call_named regs.now))) }
    {
        let Some(call) = call_named(regs) else {
            return Ok(());
        };
        match call {
            SystemCall::Memory(call) => {
                let plan = self.plans_memory_call(&task.space, p, call, &arguments_of(regs));
                self.make_planned_room(&mut task.space, p, &plan)
            }
            SystemCall::Clone | SystemCall::Local(_) | SystemCall::File(_) => Ok(()),
        }
    }

    /// Makes room for the change that the trap of the thread makes at once, where it makes one. What is shown stays,
    /// also where memory lacks.
    pub fn make_trap_room<T: PageTable>(
        &self,
        task: &mut Task<T>,
        p: Pid,
        t: Tid,
    ) -> Result<(), NoMemory>
        requires own { (files : Files) → (thread_of (node_of self.now.node files) t.0).process ≡ p.0 }
        requires heap { (files : Files) → HeapFits (process_of (node_of self.now.node files) p.0) }
        ensures same { T.rows task.new.space.table ≡ T.rows task.old.space.table }
        ensures others { task.new ≡ record task.old { space = task.new.space } }
        ensures room { OnOk result ((files : Files) → HasTrappedRoom (T.has_room task.new.space.table) task.new.space.areas.spare p.0
            (trap t.0 (length self.now.pool.free) (seen (T.rows task.new.space.table) self.now.node self.now.frames files))) }
    {
        if !stands_on_ecall(self.node.does(t)) {
            return Ok(());
        }
        let regs = self.node.regs(t);
        self.make_call_room(task, p, t, &regs)
    }

    /// Makes room for the change where it isn't refused at its end.
    fn make_end_room<T: PageTable>(
        &self,
        space: &mut Space<T>,
        p: Pid,
        change: &Change,
    ) -> Result<(), NoMemory>
        requires fits { ChangeFits change.now }
        requires heap { (files : Files) → HeapFits (process_of (node_of self.now.node files) p.0) }
        ensures same { T.rows space.new.table ≡ T.rows space.old.table }
        ensures room { OnOk result ((files : Files) → HasEndRoom (T.has_room space.new.table) space.new.areas.spare (process_of (node_of self.now.node files) p.0).program_break change.now
            (refusal_at_end (process_of (node_of self.now.node files) p.0) (memory (T.rows space.new.table) self.now.frames) (length self.now.pool.free) change.now)) }
    {
        match self.decides_at_end(space, p, change) {
            AtEnd::Reply(_) => Ok(()),
            AtEnd::Make => make_room_for(space, self.node.program_break(p), change),
        }
    }

    /// Makes room for the change of the round under way, where it isn't refused at its end. What is shown stays, also
    /// where memory lacks.
    pub fn make_ack_room<T: PageTable>(&self, task: &mut Task<T>, p: Pid) -> Result<(), NoMemory>
        requires heap { (files : Files) → HeapFits (process_of (node_of self.now.node files) p.0) }
        requires fits { (files : Files) → NodeFits (node_of self.now.node files) }
        ensures same { T.rows task.new.space.table ≡ T.rows task.old.space.table }
        ensures others { task.new ≡ record task.old { space = task.new.space } }
        ensures room { OnOk result ((files : Files) → HasAckRoom (T.has_room task.new.space.table) task.new.space.areas.spare (process_of (node_of self.now.node files) p.0)
            (memory (T.rows task.new.space.table) self.now.frames) (length self.now.pool.free) (change_in (thread_of (node_of self.now.node files) (changing_in task.new.changing)).does)) }
    {
        let Does::InVm(change) = self.node.does(changing_thread(task.changing)) else {
            return Ok(());
        };
        self.make_end_room(&mut task.space, p, &change)
    }
}

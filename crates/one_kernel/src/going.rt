// Each trap, and each step, with its room.
ghost use Rattle.kernel_model.specs.Steps.{after, may};
ghost use Rattle.kernel_model.specs.declared.steps.Step.TheVariants.{Trap};
ghost use Rattle.one_kernel.specs.Parts.{one_of};
ghost use Rattle.one_kernel.specs.Ready.{Ready};
ghost use Rattle.one_kernel.specs.StepRooms.{HasRoom, HasTrapRoom};
ghost use Rattle.node_machine.specs.Reached.{IsShown};
ghost use Rattle.std.specs.Prelude.{◌≡◌, OnOk, true};

use crate::parts::One;
use crate::traps::{begins_call, calls_memory};
use kernel_model::Step;
use mck_word::{NoMemory, Tid};
use one_calls::calls_fork;

impl One {
    /// Makes room for the trap of the thread. The state stays, also where memory lacks.
    fn make_trap_room(&mut self, t: Tid) -> Result<(), NoMemory>
        requires shown { IsShown (one_of self.old) }
        ensures state { one_of self.new ≡ one_of self.old }
        ensures room { OnOk result (HasTrapRoom self.new t.0) }
    {
        self.node.reserve_sleeper()?;
        self.node.reserve_thread()?;
        if calls_fork(&self.node, t) {
            self.make_fork_room(t)
        } else if begins_call(&self.node, t) {
            self.make_call_room(t)
        } else if calls_memory(&self.node, t) {
            self.make_change_room(t)
        } else {
            Ok(())
        }
    }

    /// The trap of the thread: a fork, a delegated call that begins, a memory call, or one that ends here.
    fn trap(&mut self, t: Tid)
        requires ready { Ready (one_of self.old) (Trap t) }
        requires room { HasTrapRoom self.old t.0 }
        ensures { one_of self.new ≡ after (one_of self.old) (Trap t) }
    {
        if calls_fork(&self.node, t) {
            self.fork(t);
        } else if begins_call(&self.node, t) {
            self.begin_call(t);
        } else if calls_memory(&self.node, t) {
            self.trap_memory(t);
        } else {
            self.trap_locally(t);
        }
    }

    /// Makes room for the step. The state stays, also where memory lacks.
    pub fn make_room(&mut self, step: &Step) -> Result<(), NoMemory>
        requires shown { IsShown (one_of self.old) }
        ensures state { one_of self.new ≡ one_of self.old }
        ensures room { OnOk result (HasRoom self.new step.now) }
    {
        match *step {
            Step::FileStep(t) => self.make_file_room(t),
            Step::Piece(t) => self.make_piece_room(t),
            Step::Trap(t) => self.make_trap_room(t),
            Step::VmFinish(t) => self.make_change_room(t),
            _ => Ok(()),
        }
    }

    /// The step is made.
    pub fn go(&mut self, step: &Step)
        requires shown { IsShown (one_of self.old) }
        requires may { may (one_of self.old) step.now ≡ true }
        requires room { HasRoom self.old step.now }
        ensures { one_of self.new ≡ after (one_of self.old) step.now }
    {
        match *step {
            Step::Instr(t) => self.instr(t),
            Step::Trap(t) => self.trap(t),
            Step::Deliver(t) => self.deliver(t),
            Step::VmFinish(t) => self.vm_finish(t),
            Step::Piece(t) => self.piece(t),
            Step::PieceFault(t) => self.piece_fault(t),
            Step::FileStep(t) => self.file_step(t),
            Step::Block(t) => self.block(t),
            Step::Wake(t) => self.wake(t),
            Step::Return(t) => self.return_from(t),
            Step::Mark(t) => self.mark(t),
            Step::Interrupted(t) => self.interrupted(t),
            Step::Wait(t) => self.wait(t),
            Step::Script(k) => self.script(k),
            Step::End(p) => self.end(p),
        }
    }
}

// Instructions of a thread.
ghost use Rattle.kernel_model.specs.Steps.{after, after_all, may_all};
ghost use Rattle.kernel_model.specs.Traps.{does_after};
ghost use Rattle.kernel_model.specs.declared.steps.Step.TheVariants.{Instr};
ghost use Rattle.one_kernel.specs.Parts.{one_of};
ghost use Rattle.one_kernel.specs.Ready.{Ready};
ghost use Rattle.node_machine.specs.Reached.{IsShown};
ghost use Rattle.std.specs.Prelude.{◌≡◌, replicate, true};

use crate::parts::One;
use isa_model::Stop;
use kernel_model::Does;
use mck_word::Tid;
use one_memory::{PageRows, run};
use std::mem;

/// What a thread does after an instruction.
fn does_after(stop: Stop) -> Does
    ensures { result ≡ does_after stop }
{
    match stop {
        Stop::On => Does::Ready,
        stop => Does::Stopped(stop),
    }
}

impl One {
    /// The thread executes an instruction.
    pub fn instr(&mut self, t: Tid)
        requires { Ready (one_of self.old) (Instr t) }
        ensures { one_of self.new ≡ after (one_of self.old) (Instr t) }
    {
        self.execute(t, 1);
    }

    /// The thread executes so many instructions, one after another.
    pub fn execute(&mut self, t: Tid, count: u64)
        requires shown { IsShown (one_of self.old) }
        requires may { may_all (one_of self.old) (replicate count (Instr t)) ≡ true }
        ensures { one_of self.new ≡ after_all (one_of self.old) (replicate count (Instr t)) }
    {
        if count == 0 {
            return;
        }
        let _left = self.node.left_of_limit();
        let p = self.node.process_of_thread(t);
        let mut regs = self.node.regs(t);
        let mut stop = Stop::On;
        let own = self.own.row_mut(p.0 as u64);
        let memory = mem::replace(&mut own.memory, PageRows::new(self.alloc));
        let (memory, went) = run(&mut regs, memory, &mut self.known, count as u32, &mut stop);
        own.memory = memory;
        self.node
            .run_over(t, regs, does_after(stop), u64::from(went));
    }
}

// Steps that store into a process's memory: signals that are delivered, and waits for a child that end.
ghost use Rattle.kernel_model.specs.Steps.{after};
ghost use Rattle.kernel_model.specs.declared.steps.Step.TheVariants.{Deliver, Wait};
ghost use Rattle.one_kernel.specs.Parts.{one_of};
ghost use Rattle.one_kernel.specs.Ready.{Ready};
ghost use Rattle.std.specs.Prelude.{◌≡◌};

use crate::parts::One;
use mck_word::Tid;
use one_calls::{deliver, waited};

impl One {
    /// The next signal of the thread is delivered: it begins the handler, or its process dies.
    pub fn deliver(&mut self, t: Tid)
        requires { Ready (one_of self.old) (Deliver t) }
        ensures { one_of self.new ≡ after (one_of self.old) (Deliver t) }
    {
        let p = self.node.process_of_thread(t);
        let own = self.own.row_mut(p.0 as u64);
        deliver(&mut self.node, &mut own.memory, t);
    }

    /// The thread waits for a child no longer: the lowest selected child that is Ended is told, or the call is
    /// refused.
    pub fn wait(&mut self, t: Tid)
        requires { Ready (one_of self.old) (Wait t) }
        ensures { one_of self.new ≡ after (one_of self.old) (Wait t) }
    {
        let p = self.node.process_of_thread(t);
        let own = self.own.row_mut(p.0 as u64);
        waited(&mut self.node, &mut own.memory, t);
    }
}

// Steps of delegated calls.
ghost use Rattle.kernel_model.specs.Steps.{after};
ghost use Rattle.kernel_model.specs.declared.steps.Step.TheVariants.{Block, Interrupted, Mark, PieceFault, Return, Wake};
ghost use Rattle.one_kernel.specs.Parts.{one_of};
ghost use Rattle.one_kernel.specs.Ready.{Ready};
ghost use Rattle.std.specs.Prelude.{◌≡◌};

use crate::calls::{Standing, stood};
use crate::parts::One;
use mck_word::Tid;

impl One {
    /// The call of the thread waits.
    pub fn block(&mut self, t: Tid)
        requires { Ready (one_of self.old) (Block t) }
        ensures { one_of self.new ≡ after (one_of self.old) (Block t) }
    {
        let p = self.node.process_of_thread(t);
        let own = self.own.row_mut(p.0 as u64);
        let call = own.calls.row_mut(t.0 as u64);
        call.standing = Standing::Blocked;
    }

    /// The call of the thread, which waited, goes on.
    pub fn wake(&mut self, t: Tid)
        requires { Ready (one_of self.old) (Wake t) }
        ensures { one_of self.new ≡ after (one_of self.old) (Wake t) }
    {
        let p = self.node.process_of_thread(t);
        let own = self.own.row_mut(p.0 as u64);
        let call = own.calls.row_mut(t.0 as u64);
        call.standing = Standing::Active;
    }

    /// The call of the thread is to be interrupted.
    pub fn mark(&mut self, t: Tid)
        requires { Ready (one_of self.old) (Mark t) }
        ensures { one_of self.new ≡ after (one_of self.old) (Mark t) }
    {
        let p = self.node.process_of_thread(t);
        let own = self.own.row_mut(p.0 as u64);
        let call = own.calls.row_mut(t.0 as u64);
        call.marked = true;
        self.node.moved_to_own(t);
    }

    /// The thread has the answer of its call, which is over.
    pub fn return_from(&mut self, t: Tid)
        requires { Ready (one_of self.old) (Return t) }
        ensures { one_of self.new ≡ after (one_of self.old) (Return t) }
    {
        let p = self.node.process_of_thread(t);
        let own = self.own.row_mut(p.0 as u64);
        let call = own.calls.remove(t.0 as u64);
        if let Standing::Over(answer) = call.standing {
            self.node.returns(t, answer);
        }
    }

    /// The call of the thread meets a page that is absent or lacks the right, and is over.
    pub fn piece_fault(&mut self, t: Tid)
        requires { Ready (one_of self.old) (PieceFault t) }
        ensures { one_of self.new ≡ after (one_of self.old) (PieceFault t) }
    {
        let p = self.node.process_of_thread(t);
        let own = self.own.row_mut(p.0 as u64);
        let call = own.calls.row_mut(t.0 as u64);
        call.progress.give_back(&mut self.files);
        call.standing = stood(Some(call.progress.fault_answer()));
    }

    /// The call of the thread is interrupted where it has to wait; or the thread, which rests, is back on its ecall.
    pub fn interrupted(&mut self, t: Tid)
        requires { Ready (one_of self.old) (Interrupted t) }
        ensures { one_of self.new ≡ after (one_of self.old) (Interrupted t) }
    {
        let p = self.node.process_of_thread(t);
        let own = self.own.row_mut(p.0 as u64);
        if own.has_call(t) {
            let call = own.calls.row_mut(t.0 as u64);
            call.progress.give_back(&mut self.files);
            call.standing = stood(Some(call.progress.interrupted_answer()));
            return;
        }
        self.node.called_back(t);
    }
}

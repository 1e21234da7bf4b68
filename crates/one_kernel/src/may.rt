// When a step may happen.
ghost use Rattle.kernel_model.specs.Progress.{is_not_ready, next_kind};
ghost use Rattle.kernel_model.specs.Steps.{call_at, is_active, may, may_here, piece_has_right};
ghost use Rattle.kernel_model.specs.declared.steps.Step.TheVariants.{Block, FileStep, Instr, Interrupted, Mark, Piece, PieceFault, Return, Wake};
ghost use Rattle.mck_word.specs.Maps.{at};
ghost use Rattle.one_kernel.specs.Parts.{here_at, one_of, shown_call};
ghost use Rattle.std.specs.Option.{option_copied};
ghost use Rattle.std.specs.Prelude.{◌&&◌, ◌≡◌, option_map};

use crate::calls::Call;
use crate::parts::One;
use call_progress::Progress;
use kernel_model::Step;
use mck_word::Tid;

impl One {
    /// The call of the thread, if it has one.
    fn call(&self, t: Tid) -> Option<&Call>
        ensures { option_map shown_call (option_copied result) ≡ at (here_at self.now t.0).own.calls t.0 }
    {
        let p = self.node.process_of_thread(t);
        match self.own.get(p.0 as u64) {
            Some(own) => own.calls.get(t.0 as u64),
            None => None,
        }
    }

    /// Whether the page of the call's next piece, in the memory of the thread's process, has the right that it needs.
    fn piece_has_right(&self, t: Tid, progress: &Progress) -> bool
        ensures { result ≡ piece_has_right (here_at self.now t.0) progress.now.progress }
    {
        let p = self.node.process_of_thread(t);
        match self.own.get(p.0 as u64) {
            Some(own) => own
                .memory
                .has_right(progress.needed_access(), progress.next_piece().page),
            None => false,
        }
    }

    fn may_piece(&self, t: Tid) -> bool
        ensures { result ≡ may_here (Piece t) (here_at self.now t.0) }
    {
        match self.call(t) {
            Some(call) => call.can_move(&self.files) && self.piece_has_right(t, &call.progress),
            None => false,
        }
    }

    fn may_piece_fault(&self, t: Tid) -> bool
        ensures { result ≡ may_here (PieceFault t) (here_at self.now t.0) }
    {
        match self.call(t) {
            Some(call) => call.has_piece() && !self.piece_has_right(t, &call.progress),
            None => false,
        }
    }

    fn may_file_step(&self, t: Tid) -> bool
        ensures { result ≡ may_here (FileStep t) (here_at self.now t.0) }
    {
        match self.call(t) {
            Some(call) => call.has_file_step(&self.files),
            None => false,
        }
    }

    fn may_block(&self, t: Tid) -> bool
        ensures { result ≡ may_here (Block t) (here_at self.now t.0) }
    {
        match self.call(t) {
            Some(call) => call.has_to_wait(&self.files),
            None => false,
        }
    }

    fn may_wake(&self, t: Tid) -> bool
        ensures { result ≡ may_here (Wake t) (here_at self.now t.0) }
    {
        match self.call(t) {
            Some(call) => call.waits_no_longer(&self.files),
            None => false,
        }
    }

    fn may_return(&self, t: Tid) -> bool
        ensures { result ≡ may_here (Return t) (here_at self.now t.0) }
    {
        match self.call(t) {
            Some(call) => call.is_over(),
            None => false,
        }
    }

    fn may_mark(&self, t: Tid) -> bool
        ensures { result ≡ may_here (Mark t) (here_at self.now t.0) }
    {
        match self.call(t) {
            Some(call) => !call.marked && self.node.may_be_marked(t),
            None => false,
        }
    }

    /// Whether the call of the thread is marked and has to wait.
    fn is_interrupted(&self, t: Tid) -> bool
        ensures { result ≡ is_active (here_at self.now t.0) t.0 (λ p. (call_at (here_at self.now t.0) t.0).marked && is_not_ready (next_kind (here_at self.now t.0).node.files p)) }
    {
        match self.call(t) {
            Some(call) => call.marked && call.has_to_wait(&self.files),
            None => false,
        }
    }

    fn may_interrupt(&self, t: Tid) -> bool
        ensures { result ≡ may_here (Interrupted t) (here_at self.now t.0) }
    {
        self.is_interrupted(t) || self.node.may_be_called_back(t)
    }

    fn may_run(&self, t: Tid) -> bool
        ensures { result ≡ may_here (Instr t) (here_at self.now t.0) }
    {
        self.node.may_run(t) && self.node.instructions_in_all() < self.node.limit
    }

    /// Whether the step may happen.
    pub fn may(&self, step: &Step) -> bool
        ensures { result ≡ may (one_of self.now) step.now }
    {
        match *step {
            Step::Instr(t) => self.may_run(t),
            Step::Trap(t) => self.node.may_trap(t),
            Step::Deliver(t) => self.node.may_deliver(t),
            Step::VmFinish(t) => self.node.may_change(t),
            Step::Piece(t) => self.may_piece(t),
            Step::PieceFault(t) => self.may_piece_fault(t),
            Step::FileStep(t) => self.may_file_step(t),
            Step::Block(t) => self.may_block(t),
            Step::Wake(t) => self.may_wake(t),
            Step::Return(t) => self.may_return(t),
            Step::Mark(t) => self.may_mark(t),
            Step::Interrupted(t) => self.may_interrupt(t),
            Step::Wait(t) => self.node.may_wait(t),
            Step::Script(k) => self.node.may_script(k),
            Step::End(p) => self.node.may_end(p),
        }
    }
}

// What an audit asks of the one-kernel machine.
ghost use Rattle.hybrid_model.specs.Boot.{shortage};
ghost use Rattle.job_model.specs.Prepared.{IsPrepared};
ghost use Rattle.kernel_model.specs.OneKernel.{OneKernel, boot};
ghost use Rattle.kernel_model.specs.Steps.{after, after_all, may, may_all};
ghost use Rattle.kernel_model.specs.declared.steps.Step.TheVariants.{Instr};
ghost use Rattle.kernel_model.specs.declared.steps.Step.{Step};
ghost use Rattle.node_machine.specs.Reached.{IsShown};
ghost use Rattle.run_summary.specs.Summaries.{summary_of};
ghost use Rattle.std.specs.Prelude.{◌≡◌, IfOk, None, OnOk, replicate, true};

use job_model::{Image, Job};
use kernel_model::Step;
use mck_word::{NoMemory, Tid};
use run_summary::Summary;
use std::alloc::Global;

/// The one-kernel machine.
pub trait SingleKernel: Drop {
    /// Its state.
    ghost one: { Self → OneKernel };

    /// Whether room was made for the step.
    ghost has_room: { Self → Step → Type 0 };

    /// The machine at the boot of a job.
    fn boot(alloc: Global, job: &Job, images: &[Image]) -> Result<Self, NoMemory>
        requires prepared { IsPrepared job.now images.now }
        requires frames { shortage job.now images.now ≡ None }
        ensures { IfOk result (λ machine. one machine ≡ boot job.now images.now) };

    /// Makes room for the step. The state stays, also when it is refused.
    fn make_room(&mut self, step: &Step) -> Result<(), NoMemory>
        requires shown { IsShown (one self.old) }
        ensures state { one self.new ≡ one self.old }
        ensures room { OnOk result (has_room self.new step.now) };

    /// The step is made.
    fn go(&mut self, step: &Step)
        requires shown { IsShown (one self.old) }
        requires may { may (one self.old) step.now ≡ true }
        requires room { has_room self.old step.now }
        ensures { one self.new ≡ after (one self.old) step.now };

    /// So many instructions of the thread are executed, one after another.
    fn execute(&mut self, t: Tid, count: u64)
        requires shown { IsShown (one self.old) }
        requires may { may_all (one self.old) (replicate count (Instr t)) ≡ true }
        ensures { one self.new ≡ after_all (one self.old) (replicate count (Instr t)) };

    /// What a report says of the state.
    fn summary(&self) -> Result<Summary, NoMemory>
        ensures { IfOk result (λ summary. summary ≡ summary_of (one self.now)) };
}

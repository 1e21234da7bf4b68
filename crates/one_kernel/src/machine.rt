// The machine as an audit drives it.
ghost use Rattle.one_kernel.specs.Parts.{one_of};
ghost use Rattle.one_kernel.specs.StepRooms.{HasRoom};

use crate::parts::One;
use job_model::{Image, Job};
use kernel_model::Step;
use mck_word::{NoMemory, Tid};
use node_machine::SingleKernel;
use run_summary::Summary;
use std::alloc::Global;

impl SingleKernel for One {
    ghost one = { λ x. one_of x };

    ghost has_room = { λ x step. HasRoom x step };

    fn boot(alloc: Global, job: &Job, images: &[Image]) -> Result<One, NoMemory> {
        One::boot(alloc, job, images)
    }

    fn make_room(&mut self, step: &Step) -> Result<(), NoMemory> {
        One::make_room(self, step)
    }

    fn go(&mut self, step: &Step) {
        One::go(self, step);
    }

    fn execute(&mut self, t: Tid, count: u64) {
        One::execute(self, t, count);
    }

    fn summary(&self) -> Result<Summary, NoMemory> {
        One::summary(self)
    }
}

// The node as the machine that a walk drives.
ghost use Rattle.pair_node.specs.Room.{HasListPlace, HasPlace, HasRoom};
ghost use Rattle.std.specs.Prelude.{◌-◌, vec_len};
ghost use Rattle.std.specs.Vec.{vec_capacity};

use crate::asked::{ending_of_run, is_ready};
use crate::pair::Pair;
use hybrid_model::{Ending, Event};
use job_files::JobFiles;
use job_model::{Image, Job};
use kernel_model::Step;
use mck_word::{NoMemory, Tid};
use node_machine::{BootError, Machine};
use offer_laws::offers_may;
use page_map::PageTable;
use run_summary::Summary;
use std::alloc::Global;

impl<T: PageTable + Drop, F: JobFiles> Machine for Pair<T, F> {
    ghost has_room = { λ x e. HasRoom T.rows T.has_room F.room F.can_write F.files e x.parts × HasPlace e (vec_capacity x.pids - vec_len x.pids) × HasListPlace e x.members };

    fn boot(alloc: Global, job: &Job, images: &[Image]) -> Result<Self, BootError> {
        Pair::boot(alloc, job, images)
    }

    fn make_room(&mut self, event: &Event) -> Result<(), NoMemory> {
        offers_may();
        Pair::make_room(self, event)
    }

    fn may(&self, event: &Event) -> bool {
        Pair::may(self, event)
    }

    fn is_ready(&self, t: Tid) -> bool {
        is_ready(&self.parts, t)
    }

    fn step_of(&self, event: &Event) -> Option<Step> {
        Pair::step_of(self, event)
    }

    fn apply(&mut self, event: &Event) -> u64 {
        Pair::apply(self, event)
    }

    fn reached(&self) {
        Pair::reached(self)
    }

    fn ending(&self) -> Ending {
        pair_offers::ending(self, ending_of_run(&self.parts))
    }

    fn requests(&self) -> u64 {
        Pair::requests(self)
    }

    fn summary(&self) -> Result<Summary, NoMemory> {
        Pair::summary(self)
    }
}

// Reap: a process ends.
ghost use Rattle.hybrid_model.specs.Events.{after};
ghost use Rattle.hybrid_model.specs.declared.events.Event.TheVariants.{Reap};
ghost use Rattle.pair_core.specs.Kept.{Kept};
ghost use Rattle.pair_core.specs.Ready.{Ready};
ghost use Rattle.pair_core.specs.Shown.{pair_of};
ghost use Rattle.std.specs.Prelude.{◌≡◌};

use crate::parts::Parts;
use file_calls::store::FileStore;
use mck_word::Pid;
use page_map::PageTable;
use std::alloc::Global;

impl<T: PageTable + Drop, F: FileStore> Parts<T, F> {
    /// The process is Ended: its pages, its mirror, its threads and its descriptors go.
    pub fn reap(&mut self, alloc: Global, p: Pid)
        requires ready { Ready (pair_of T.rows F.files self.old) (Reap p) }
        requires kept { Kept self.old }
        ensures after { pair_of T.rows F.files self.new ≡ after (pair_of T.rows F.files self.old) (Reap p) }
        ensures kept { Kept self.new }
    {
        let side = self.sides.row_mut(p.0 as u64);
        self.lwk.reap(alloc, &mut side.task, p);
        side.proxy.drop_mirror(alloc);
        self.files.close_all(p);
    }
}

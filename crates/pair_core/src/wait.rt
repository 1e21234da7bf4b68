// Wait: a thread that waits for a child has one.
ghost use Rattle.hybrid_model.specs.Events.{after};
ghost use Rattle.hybrid_model.specs.declared.events.Event.TheVariants.{Wait};
ghost use Rattle.pair_core.specs.Kept.{Kept};
ghost use Rattle.pair_core.specs.Ready.{Ready};
ghost use Rattle.pair_core.specs.Shown.{pair_of};
ghost use Rattle.std.specs.Prelude.{◌≡◌};

use crate::parts::Parts;
use file_calls::store::FileStore;
use mck_word::Tid;
use page_map::PageTable;

impl<T: PageTable + Drop, F: FileStore> Parts<T, F> {
    /// The thread waits for a child no longer: the lowest selected child that is Ended is told, or the call is
    /// refused.
    pub fn wait(&mut self, t: Tid)
        requires ready { Ready (pair_of T.rows F.files self.old) (Wait t) }
        requires kept { Kept self.old }
        ensures after { pair_of T.rows F.files self.new ≡ after (pair_of T.rows F.files self.old) (Wait t) }
        ensures kept { Kept self.new }
    {
        let p = self.lwk.node.process_of_thread(t);
        let side = self.sides.row_mut(p.0 as u64);
        self.lwk.wait(&side.task, t);
    }
}

// Deliver: a thread takes its next signal.
ghost use Rattle.hybrid_model.specs.Events.{after};
ghost use Rattle.hybrid_model.specs.declared.events.Event.TheVariants.{Deliver};
ghost use Rattle.pair_core.specs.Kept.{Kept};
ghost use Rattle.pair_core.specs.Ready.{Ready};
ghost use Rattle.pair_core.specs.Shown.{pair_of};
ghost use Rattle.std.specs.Prelude.{◌≡◌};

use crate::parts::Parts;
use file_calls::store::FileStore;
use mck_word::Tid;
use page_map::PageTable;

impl<T: PageTable + Drop, F: FileStore> Parts<T, F> {
    /// The next signal of the thread is delivered: it begins the handler, or its process dies.
    pub fn deliver(&mut self, t: Tid)
        requires ready { Ready (pair_of T.rows F.files self.old) (Deliver t) }
        requires kept { Kept self.old }
        ensures after { pair_of T.rows F.files self.new ≡ after (pair_of T.rows F.files self.old) (Deliver t) }
        ensures kept { Kept self.new }
    {
        let p = self.lwk.node.process_of_thread(t);
        let side = self.sides.row_mut(p.0 as u64);
        self.lwk.deliver(&side.task, &side.channel, t);
    }
}

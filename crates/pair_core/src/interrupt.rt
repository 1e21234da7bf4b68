// Interrupt: a thread is called back from its call, or its call is marked.
ghost use Rattle.hybrid_model.specs.Events.{after};
ghost use Rattle.hybrid_model.specs.declared.events.Event.TheVariants.{Interrupt};
ghost use Rattle.pair_core.specs.Kept.{Kept};
ghost use Rattle.pair_core.specs.Ready.{Ready};
ghost use Rattle.pair_core.specs.Shown.{pair_of};
ghost use Rattle.std.specs.Prelude.{◌≡◌};

use crate::parts::Parts;
use file_calls::store::FileStore;
use guest_laws::no_ring_is_full;
use mck_word::Tid;
use page_map::PageTable;

impl<T: PageTable + Drop, F: FileStore> Parts<T, F> {
    /// The call of a thread is interrupted, or its rest.
    pub fn interrupt(&mut self, t: Tid)
        requires ready { Ready (pair_of T.rows F.files self.old) (Interrupt t) }
        requires kept { Kept self.old }
        ensures after { pair_of T.rows F.files self.new ≡ after (pair_of T.rows F.files self.old) (Interrupt t) }
        ensures kept { Kept self.new }
    {
        no_ring_is_full();
        let p = self.lwk.node.process_of_thread(t);
        let side = self.sides.row_mut(p.0 as u64);
        self.lwk.interrupt(&mut side.task, &mut side.channel, t);
    }
}

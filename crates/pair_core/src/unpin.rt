// Unpin: a worker lets its frame go.
ghost use Rattle.hybrid_model.specs.Events.{after};
ghost use Rattle.hybrid_model.specs.declared.events.Event.TheVariants.{Unpin};
ghost use Rattle.pair_core.specs.Kept.{Kept};
ghost use Rattle.pair_core.specs.Ready.{Ready};
ghost use Rattle.pair_core.specs.Shown.{pair_of};
ghost use Rattle.std.specs.Prelude.{◌≡◌};

use crate::parts::Parts;
use file_calls::store::FileStore;
use mck_word::Pid;
use page_map::PageTable;

impl<T: PageTable + Drop, F: FileStore> Parts<T, F> {
    /// The worker lets its frame go.
    pub fn unpin(&mut self, p: Pid, w: u32)
        requires ready { Ready (pair_of T.rows F.files self.old) (Unpin p w) }
        requires kept { Kept self.old }
        ensures after { pair_of T.rows F.files self.new ≡ after (pair_of T.rows F.files self.old) (Unpin p w) }
        ensures kept { Kept self.new }
    {
        let side = self.sides.row_mut(p.0 as u64);
        side.proxy.unpin(w);
    }
}

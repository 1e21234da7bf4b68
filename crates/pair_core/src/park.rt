// Park: a request whose step isn't ready is put aside, or ends where it was interrupted.
ghost use Rattle.hybrid_model.specs.Events.{after};
ghost use Rattle.hybrid_model.specs.declared.events.Event.TheVariants.{Park};
ghost use Rattle.pair_core.specs.Kept.{Kept};
ghost use Rattle.pair_core.specs.Ready.{Ready};
ghost use Rattle.pair_core.specs.Shown.{pair_of};
ghost use Rattle.std.specs.Prelude.{◌≡◌};

use crate::parts::Parts;
use file_calls::store::FileStore;
use mck_word::Pid;
use page_map::PageTable;

impl<T: PageTable + Drop, F: FileStore> Parts<T, F> {
    /// The worker puts its request aside, which has to wait; an interrupted one ends.
    pub fn park(&mut self, p: Pid, w: u32)
        requires ready { Ready (pair_of T.rows F.files self.old) (Park p w) }
        requires kept { Kept self.old }
        ensures after { pair_of T.rows F.files self.new ≡ after (pair_of T.rows F.files self.old) (Park p w) }
        ensures kept { Kept self.new }
    {
        let side = self.sides.row_mut(p.0 as u64);
        side.proxy.give_up_turn(w, &self.files, p, &mut self.turns);
        side.proxy.park(w, &mut self.files, &mut side.channel.book);
    }
}

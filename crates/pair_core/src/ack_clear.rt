// AckClear: the proxy acknowledges a clear.
ghost use Rattle.hybrid_model.specs.Events.{after};
ghost use Rattle.hybrid_model.specs.declared.events.Event.TheVariants.{AckClear};
ghost use Rattle.pair_core.specs.Kept.{Kept};
ghost use Rattle.pair_core.specs.Ready.{Ready};
ghost use Rattle.pair_core.specs.Shown.{pair_of};
ghost use Rattle.std.specs.Prelude.{◌≡◌};

use crate::parts::Parts;
use file_calls::store::FileStore;
use ikc_ring::Msg;
use mck_word::Pid;
use page_map::PageTable;

impl<T: PageTable + Drop, F: FileStore> Parts<T, F> {
    /// The proxy acknowledges the Clear that it took.
    pub fn ack_clear(&mut self, p: Pid)
        requires ready { Ready (pair_of T.rows F.files self.old) (AckClear p) }
        requires kept { Kept self.old }
        ensures after { pair_of T.rows F.files self.new ≡ after (pair_of T.rows F.files self.old) (AckClear p) }
        ensures kept { Kept self.new }
    {
        let side = self.sides.row_mut(p.0 as u64);
        side.proxy.ack_clear(&mut side.channel.round);
        side.channel.to_lwk.post(Msg::Ack);
    }
}

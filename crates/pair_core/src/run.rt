// Run: a thread executes instructions on its core.
ghost use Rattle.hybrid_model.specs.Events.{after, of_thread};
ghost use Rattle.hybrid_model.specs.Pairs.{here};
ghost use Rattle.hybrid_model.specs.Run.{executed_in_run};
ghost use Rattle.hybrid_model.specs.declared.events.Event.TheVariants.{Run};
ghost use Rattle.pair_core.specs.Kept.{Kept};
ghost use Rattle.pair_core.specs.Ready.{Ready};
ghost use Rattle.pair_core.specs.Shown.{pair_of};
ghost use Rattle.std.specs.Prelude.{◌≡◌};

use crate::parts::Parts;
use file_calls::store::FileStore;
use mck_word::Tid;
use page_map::PageTable;

impl<T: PageTable + Drop, F: FileStore> Parts<T, F> {
    /// The thread executes at most `most` instructions on its core, and their number is answered.
    pub fn run(&mut self, core: u32, t: Tid, most: u32) -> u32
        requires ready { Ready (pair_of T.rows F.files self.old) (Run core t most) }
        requires kept { Kept self.old }
        ensures after { pair_of T.rows F.files self.new ≡ after (pair_of T.rows F.files self.old) (Run core t most) }
        ensures executed { result ≡ (let pair = pair_of T.rows F.files self.old in executed_in_run t.0 most (here pair (of_thread pair.node t.0))) }
        ensures kept { Kept self.new }
    {
        let _left = self.lwk.node.left_of_limit();
        let p = self.lwk.node.process_of_thread(t);
        let side = self.sides.row_mut(p.0 as u64);
        self.lwk
            .run(&side.task, &side.channel, t, most, &mut self.known)
    }
}

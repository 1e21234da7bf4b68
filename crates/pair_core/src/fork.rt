// The trap that is a fork: a process begins.
ghost use Rattle.file_model.specs.Files.{Files};
ghost use Rattle.hybrid_model.specs.Events.{after, of_thread};
ghost use Rattle.hybrid_model.specs.declared.events.Event.TheVariants.{Trap};
ghost use Rattle.kernel_tables.specs.Shown.{node_of};
ghost use Rattle.lwk_side.specs.Cloning.{calls_fork};
ghost use Rattle.pair_core.specs.Kept.{Kept};
ghost use Rattle.pair_core.specs.Newborn.{HasForkRoom};
ghost use Rattle.pair_core.specs.Ready.{Ready};
ghost use Rattle.pair_core.specs.Shown.{pair_of};
ghost use Rattle.std.specs.Prelude.{◌≡◌, true};

use crate::parts::Parts;
use file_calls::store::FileStore;
use mck_word::Tid;
use page_map::PageTable;

impl<T: PageTable + Drop, F: FileStore> Parts<T, F> {
    /// The trap of a stopped thread that is a fork: a process begins, whose side was made ready, or the call is
    /// refused.
    pub fn fork(&mut self, t: Tid)
        requires ready { Ready (pair_of T.rows F.files self.old) (Trap t) }
        requires kept { Kept self.old }
        requires fork { (files : Files) → calls_fork (node_of self.old.lwk.node files) t.0 ≡ true }
        requires room { (files : Files) → HasForkRoom T.rows T.has_room F.room self.old (of_thread (node_of self.old.lwk.node files) t.0) }
        ensures after { pair_of T.rows F.files self.new ≡ after (pair_of T.rows F.files self.old) (Trap t) }
        ensures kept { Kept self.new }
    {
        let p = self.lwk.node.process_of_thread(t);
        let Some(mut child) = self.newborn.take() else {
            unreachable!()
        };
        let Some(side) = self.sides.get(p.0 as u64) else {
            unreachable!()
        };
        let Some(q) = self.lwk.fork(&side.task, &mut child.task.space, p, t) else {
            return;
        };
        self.files.share(p, q);
        self.sides.put(q.0 as u64, child);
    }
}

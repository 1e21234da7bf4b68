// Masks that a thread asks for, and what it is told of pending signals.
ghost use Rattle.std.specs.Prelude.{◌≡◌};
ghost use Rattle.file_model.specs.Files.{Files};
ghost use Rattle.kernel_model.specs.Nodes.{change_thread};
ghost use Rattle.kernel_model.specs.SignalCalls.{new_mask as mask_made, pending_and_masked};
ghost use Rattle.kernel_tables.specs.Room.{KeepsRoom};
ghost use Rattle.kernel_tables.specs.Shown.{node_of};

use crate::tables::KernelTables;
use lwk_signals::{common, new_mask, union};
use mck_flags::SigSet;
use mck_word::Tid;

#[tactic(auto, using(crate::proofs::Rows::process_at, crate::proofs::Rows::thread_at))]
impl KernelTables {
    /// The thread has the mask that rt_sigprocmask makes of its own and a set.
    pub fn changes_mask(&mut self, t: Tid, how: i32, set: SigSet)
        ensures node { (files : Files) → node_of self.new files ≡ change_thread t.0 (λ x. record x { mask = mask_made how set.0 x.mask }) (node_of self.old files) }
        ensures room { KeepsRoom self.old self.new }
    {
        let mask = self.mask(t);
        self.set_mask(t, new_mask(how, set, mask));
    }

    /// The signals that are pending for the thread or its process, and that it masks.
    pub fn pending_and_masked(&self, t: Tid) -> SigSet
        ensures { (files : Files) → result.0 ≡ pending_and_masked (node_of self.now files) t.0 }
    {
        let p = self.process_of_thread(t);
        let pending = union(self.own_pending(t), self.shared_pending(p));
        common(pending, self.mask(t))
    }
}

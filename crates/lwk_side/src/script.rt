// Lines of the script.
ghost use Rattle.hybrid_model.specs.Pairs.{with_node};
ghost use Rattle.kernel_model.specs.Traps.{script_sent};
ghost use Rattle.lwk_side.specs.Sound.{KeepsFrames};
ghost use Rattle.lwk_side.specs.Shown.{Rest, here_of};
ghost use Rattle.std.specs.Prelude.{◌≡◌};

use crate::kernel::Lwk;
use crate::task::Task;
use ikc_channel::Channel;
use page_map::PageTable;

impl Lwk {
    /// The line of that index generates its signal for its process, and is sent.
    pub fn send_line<T: PageTable>(&mut self, task: &Task<T>, channel: &Channel, k: u32)
        ensures event { (r : Rest) → here_of self.new (T.rows task.now.space.table) task.now channel.now r
            ≡ (let h = here_of self.old (T.rows task.now.space.table) task.now channel.now r in with_node h (script_sent k h.node)) }
        ensures frames { KeepsFrames self.old self.new }
    {
        self.node.script_sent(k);
    }
}

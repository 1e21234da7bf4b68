// Script: a line of the script sends its signal.
ghost use Rattle.file_model.specs.Files.{Files};
ghost use Rattle.hybrid_model.specs.Events.{after, of_line};
ghost use Rattle.hybrid_model.specs.declared.events.Event.TheVariants.{Script};
ghost use Rattle.kernel_model.specs.Traps.{line_of};
ghost use Rattle.kernel_tables.specs.Shown.{node_of};
ghost use Rattle.pair_core.specs.Kept.{Kept};
ghost use Rattle.pair_core.specs.Ready.{Ready};
ghost use Rattle.pair_core.specs.Shown.{pair_of};
ghost use Rattle.std.specs.Prelude.{◌≡◌};

use crate::parts::Parts;
use file_calls::store::FileStore;
use mck_word::Pid;
use page_map::PageTable;

impl<T: PageTable + Drop, F: FileStore> Parts<T, F> {
    /// The line of the script of that index sends its signal.
    pub fn script(&mut self, k: u32)
        requires ready { Ready (pair_of T.rows F.files self.old) (Script k) }
        requires kept { Kept self.old }
        ensures after { pair_of T.rows F.files self.new ≡ after (pair_of T.rows F.files self.old) (Script k) }
        ensures kept { Kept self.new }
    {
        let p = self.process_of_line(k);
        let side = self.sides.row_mut(p.0 as u64);
        self.lwk.send_line(&side.task, &side.channel, k);
    }

    /// The process of the unsent line of that index, or process 0 where there is none.
    pub(crate) fn process_of_line(&self, k: u32) -> Pid
        ensures { (files : Files) → result.0 ≡ of_line (line_of (node_of self.now.lwk.node files) k) }
    {
        match self.lwk.node.line(k) {
            Some(line) => line.process,
            None => Pid(0),
        }
    }
}

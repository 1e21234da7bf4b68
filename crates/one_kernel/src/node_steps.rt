// Steps of the script, and the end of a process.
ghost use Rattle.kernel_model.specs.Steps.{after};
ghost use Rattle.kernel_model.specs.declared.steps.Step.TheVariants.{End, Script};
ghost use Rattle.one_kernel.specs.Parts.{one_of};
ghost use Rattle.one_kernel.specs.Ready.{Ready};
ghost use Rattle.std.specs.Prelude.{◌≡◌};

use crate::parts::One;
use file_calls::store::FileStore;
use key_rows::Rows;
use mck_word::Pid;
use one_memory::PageRows;

impl One {
    /// The line of the script of that index sends its signal.
    pub fn script(&mut self, k: u32)
        requires { Ready (one_of self.old) (Script k) }
        ensures { one_of self.new ≡ after (one_of self.old) (Script k) }
    {
        self.node.script_sent(k);
    }

    /// The process is Ended: its pages, its calls, its threads and its descriptors go.
    pub fn end(&mut self, p: Pid)
        requires { Ready (one_of self.old) (End p) }
        ensures { one_of self.new ≡ after (one_of self.old) (End p) }
    {
        let _frames = self.node.frame_count;
        let own = self.own.row_mut(p.0 as u64);
        self.free += own.memory.count() as u64;
        own.memory = PageRows::new(self.alloc);
        own.calls = Rows::new(self.alloc);
        self.node.process_ended(p);
        self.files.close_all(p);
    }
}

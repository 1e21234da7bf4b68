// Run: a thread executes instructions.
ghost use Rattle.file_model.specs.Files.{Files};
ghost use Rattle.hybrid_model.specs.Run.{executed_in_run, run};
ghost use Rattle.isa_model.specs.declared.stops.Stop.{Stop as stops};
ghost use Rattle.kernel_model.specs.Nodes.{has_thread};
ghost use Rattle.kernel_model.specs.Traps.{does_after};
ghost use Rattle.kernel_tables.specs.Shown.{node_of};
ghost use Rattle.kernel_tables.specs.Totals.{instructions_in};
ghost use Rattle.lwk_side.specs.Shown.{Rest, here_of};
ghost use Rattle.lwk_side.specs.Sound.{IsSound, KeepsFrames};
ghost use Rattle.lwk_side.specs.Wired.{Wired};
ghost use Rattle.std.specs.Prelude.{◌≡◌, ◌≤◌, ◌<◌, ◌+◌, ◌^◌, true};

use crate::kernel::Lwk;
use crate::task::Task;
use ikc_channel::Channel;
use isa_model::Stop;
use kernel_model::Does;
use lwk_run::a_run_is_the_event;
use mck_word::Tid;
use page_map::PageTable;
use rv64i_user::KnownWords;

/// What a thread does after an instruction.
fn does_after(stop: Stop) -> Does
    ensures { result ≡ does_after stop }
{
    match stop {
        Stop::On => Does::Ready,
        stop => Does::Stopped(stop),
    }
}

impl Lwk {
    /// The thread executes at most `most` instructions, up to and with the first that stops, and their number is
    /// answered.
    pub fn run<T: PageTable>(
        &mut self,
        task: &Task<T>,
        channel: &Channel,
        t: Tid,
        most: u32,
        known: &mut KnownWords,
    ) -> u32
        requires sound { IsSound self.old (T.rows task.now.space.table) }
        requires wired { Wired self.old channel.now.to_linux }
        requires lives { (files : Files) → has_thread (node_of self.old.node files) t.0 ≡ true }
        requires some { 1 ≤ most }
        requires limit { instructions_in self.old.node.processes.map + most < 2 ^ 64 }
        ensures event { (r : Rest) → here_of self.new (T.rows task.now.space.table) task.now channel.now r
            ≡ run t.0 most (here_of self.old (T.rows task.now.space.table) task.now channel.now r) }
        ensures executed { (r : Rest) → result ≡ executed_in_run t.0 most (here_of self.old (T.rows task.now.space.table) task.now channel.now r) }
        ensures frames { KeepsFrames self.old self.new }
    {
        let mut regs = self.node.regs(t);
        let mut stop = Stop::On;
        let count = lwk_run::run(
            &mut regs,
            &task.space,
            &mut self.frames,
            known,
            most,
            &mut stop,
        );
        self.node
            .run_over(t, regs, does_after(stop), u64::from(count));
        self.ran_last(t);
        a_run_is_the_event();
        count
    }
}

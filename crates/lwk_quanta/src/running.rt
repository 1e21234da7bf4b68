// Quanta that happen to a process.
ghost use Rattle.file_model.specs.Files.{Files};
ghost use Rattle.isa_model.specs.declared.stops.Stop.{Stop as stops};
ghost use Rattle.kernel_model.specs.Nodes.{has_thread};
ghost use Rattle.kernel_model.specs.Traps.{does_after};
ghost use Rattle.kernel_tables.specs.Shown.{node_of};
ghost use Rattle.kernel_tables.specs.Totals.{instructions_in};
ghost use Rattle.lwk_quanta.specs.Coming.{Comes};
ghost use Rattle.lwk_side.specs.Shown.{Rest, here_of};
ghost use Rattle.lwk_side.specs.Sound.{IsSound, KeepsFrames};
ghost use Rattle.lwk_side.specs.Wired.{Wired};
ghost use Rattle.rv_quantum.specs.Told.{total};
ghost use Rattle.std.specs.Prelude.{◌≡◌, ◌≤◌, ◌<◌, ◌+◌, ◌^◌, true};

use ikc_channel::Channel;
use isa_model::Stop;
use kernel_model::Does;
use lwk_run::a_run_is_the_event;
use lwk_side::{Lwk, Task};
use mck_word::Tid;
use page_map::PageTable;
use rv_quantum::{Differs, Quanta};
use space_quanta::take;

// What a thread does after an instruction.
fn does_after(stop: Stop) -> Does
    ensures { result ≡ does_after stop }
{
    match stop {
        Stop::On => Does::Ready,
        stop => Does::Stopped(stop),
    }
}

/// The quanta of the thread happen in its process, where its registers and its pages are as they saw them. Else nothing
/// changes, and the answer is the first thing that differs.
pub fn run_quanta<T: PageTable>(
    lwk: &mut Lwk,
    task: &Task<T>,
    channel: &Channel,
    t: Tid,
    quanta: &Quanta,
) -> Option<Differs>
    requires sound { IsSound lwk.old (T.rows task.now.space.table) }
    requires wired { Wired lwk.old channel.now.to_linux }
    requires lives { (files : Files) → has_thread (node_of lwk.old.node files) t.0 ≡ true }
    requires some { 1 ≤ total quanta.now }
    requires limit { instructions_in lwk.old.node.processes.map + total quanta.now < 2 ^ 64 }
    ensures comes { (r : Rest) → let rows = T.rows task.now.space.table in
        Comes t.0 quanta.now (here_of lwk.old rows task.now channel.now r)
        result (here_of lwk.new rows task.now channel.now r) }
    ensures frames { KeepsFrames lwk.old lwk.new }
{
    let regs = lwk.node.regs(t);
    if let Some(differs) = take(quanta, &regs, &task.space, &mut lwk.frames) {
        return Some(differs);
    }
    lwk.node.run_over(
        t,
        *quanta.regs(),
        does_after(*quanta.stop()),
        u64::from(quanta.total()),
    );
    lwk.ran_last(t);
    a_run_is_the_event();
    None
}

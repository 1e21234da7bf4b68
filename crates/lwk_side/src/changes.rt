// Changes of a process's memory.
ghost use Rattle.file_model.specs.Files.{Files};
ghost use Rattle.hybrid_model.specs.OneProcess.{effect_made};
ghost use Rattle.ikc_channel.specs.declared.Channel.{Channel as channels};
ghost use Rattle.kernel_model.specs.MemoryCalls.{answer_of_change, effect_of};
ghost use Rattle.kernel_model.specs.Nodes.{Process, process_of};
ghost use Rattle.lwk_changes.specs.Conditions.{GoesAhead, HasRoomFor};
ghost use Rattle.kernel_tables.specs.Shown.{node_of};
ghost use Rattle.lwk_side.specs.Shown.{Rest, here_of};
ghost use Rattle.lwk_side.specs.Sound.{IsSound, KeepsFrames};
ghost use Rattle.lwk_space.specs.Lacks.{memory};
ghost use Rattle.offer_laws.specs.ChangeFits.{ChangeFits};
ghost use Rattle.std.specs.Prelude.{◌≡◌, length};

use crate::kernel::Lwk;
use crate::task::Task;
use kernel_model::Change;
use lwk_changes::make;
use mck_word::{Pid, Tid};
use page_map::PageTable;

/// What the call answers once its change is made.
fn answer_of(change: &Change) -> i64
    requires { ChangeFits change.now }
    ensures { result ≡ answer_of_change change.now }
{
    match *change {
        Change::Map { range, .. } => (range.lo * 4096) as i64,
        Change::Brk(a) => a as i64,
        Change::Unmap(_) | Change::Protect { .. } => 0,
    }
}

/// The break once the change is made, where it is `brk` before.
fn break_after(brk: u64, change: &Change) -> u64
    ensures { (p : Process) → brk ≡ p.program_break → result ≡ (effect_of p change.now).program_break }
{
    match *change {
        Change::Brk(a) => a,
        Change::Map { .. } | Change::Unmap(_) | Change::Protect { .. } => brk,
    }
}

impl Lwk {
    /// A change that may go ahead is made: the pages go and come, the break is set, and the thread has its answer.
    pub(crate) fn make_change<T: PageTable>(
        &mut self,
        task: &mut Task<T>,
        p: Pid,
        t: Tid,
        change: &Change,
    )
        requires sound { IsSound self.old (T.rows task.old.space.table) }
        requires fits { ChangeFits change.now }
        requires room { (files : Files) → HasRoomFor (T.has_room task.old.space.table) task.old.space.areas.spare (process_of (node_of self.old.node files) p.0).program_break change.now }
        requires ahead { (files : Files) → GoesAhead (memory (T.rows task.old.space.table) self.old.frames) (length self.old.pool.free) (process_of (node_of self.old.node files) p.0).program_break change.now }
        ensures after { (c : channels) (r : Rest) → here_of self.new (T.rows task.new.space.table) task.new c r
            ≡ (let h = here_of self.old (T.rows task.old.space.table) task.old c r in
            effect_made p.0 t.0 (answer_of_change change.now) (effect_of (process_of h.node p.0) change.now) h) }
        ensures cores { self.new.cores ≡ self.old.cores }
        ensures frames { KeepsFrames self.old self.new }
    {
        let brk = self.node.program_break(p);
        make(
            &mut task.space,
            &mut self.frames,
            &mut self.pool,
            brk,
            change,
        );
        let next = break_after(brk, change);
        task.space.set_brk(next);
        self.node.set_break(p, next);
        self.node.finishes(t, answer_of(change));
    }
}

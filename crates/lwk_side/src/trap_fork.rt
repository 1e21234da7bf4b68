// The trap that is a fork: a process begins, or the call is refused.
ghost use Rattle.file_model.specs.Files.{Files};
ghost use Rattle.hybrid_model.specs.OneProcess.{view_here, with_view};
ghost use Rattle.hybrid_model.specs.Trap.{after_trap, trapped};
ghost use Rattle.ikc_channel.specs.declared.Channel.{Channel as channels};
ghost use Rattle.kernel_model.specs.CloneCalls.{forks};
ghost use Rattle.kernel_model.specs.LocalCalls.{answers};
ghost use Rattle.kernel_model.specs.Traps.{cloned, past_ecall};
ghost use Rattle.lwk_calls.specs.Forks.{fork_refusal as refusal_of};
ghost use Rattle.kernel_tables.specs.Shown.{node_of};
ghost use Rattle.lwk_side.specs.Cloning.{calls_fork, names_fork};
ghost use Rattle.lwk_side.specs.Forked.{MayFork, born_of, shared};
ghost use Rattle.lwk_side.specs.Shown.{Rest, here_of};
ghost use Rattle.lwk_side.specs.Sound.{IsSound, KeepsFrames};
ghost use Rattle.lwk_space.specs.Copies.{HasCopyRoom};
ghost use Rattle.mck_word.specs.Maps.{count, no_rows};
ghost use Rattle.std.specs.Prelude.{◌≡◌, ◌≤◌, Some, length, slice_index, true, ℕ};

use crate::kernel::Lwk;
use crate::task::Task;
use isa_model::Stop;
use kernel_model::Does;
use kernel_tables::{arguments_of, call_named};
use lwk_calls::{are_fork_flags, begins_child, fork_refusal, tells_child};
use lwk_space::Space;
use mck_word::{Pid, Regs, Tid};
use page_map::PageTable;
use system_calls::SystemCall;

/// Whether the call that the registers name is a fork.
fn names_fork(regs: &Regs) -> bool
    ensures { result ≡ names_fork regs.now }
{
    match call_named(regs) {
        Some(SystemCall::Clone) => are_fork_flags(arguments_of(regs)[0]),
        _ => false,
    }
}

impl Lwk {
    /// Whether the trap of the thread is a fork.
    pub fn calls_fork(&self, t: Tid) -> bool
        ensures { (files : Files) → result ≡ calls_fork (node_of self.now.node files) t.0 }
    {
        match self.node.does(t) {
            Does::Stopped(Stop::Ecall) => names_fork(&self.node.regs(t)),
            _ => false,
        }
    }

    /// Why a fork of the process that has the space is refused: there are as many processes as there may be, or fewer
    /// free frames than it has pages.
    fn fork_refusal<T: PageTable>(&self, space: &Space<T>) -> Option<i64>
        ensures { (files : Files) → result ≡ refusal_of (count (node_of self.now.node files).processes) (length self.now.pool.free) (count (T.rows space.now.table)) }
    {
        fork_refusal(
            self.node.process_count(),
            self.pool.free(),
            space.count_pages(),
        )
    }

    /// A fork that isn't refused: a process begins with a copy of the memory in the lowest free frames, and with its
    /// own stores.
    fn forks<T: PageTable>(
        &mut self,
        task: &Task<T>,
        child: &mut Space<T>,
        p: Pid,
        t: Tid,
        args: &[u64; 6],
    ) -> Pid
        requires sound { IsSound self.old (T.rows task.now.space.table) }
        requires may { MayFork self.old p.0 t.0 }
        requires empty { T.rows child.old.table ≡ no_rows }
        requires copy { HasCopyRoom T.rows T.has_room task.now.space child.old }
        requires enough { count (T.rows task.now.space.table) ≤ length self.old.pool.free }
        ensures after { (c : channels) (r : Rest) → record (here_of self.new (T.rows task.now.space.table) task.now c (shared p.0 (Some result) r)) { born = born_of self.new.rings (T.rows child.new.table) (Some result) }
            ≡ (let h = here_of self.old (T.rows task.now.space.table) task.now c r in
            trapped p.0 t.0 (cloned (forks t.0 (slice_index args.now 0) (slice_index args.now 1) (slice_index args.now 2) (slice_index args.now 3) (slice_index args.now 4) (past_ecall t.0 (view_here h)))) h) }
        ensures cores { self.new.cores ≡ self.old.cores }
        ensures rings { self.new.rings ≡ self.old.rings }
        ensures frames { KeepsFrames self.old self.new }
    {
        self.node.past_ecall(t);
        let q = begins_child(&mut self.node, &task.space, &mut self.frames, t, args);
        child.copy_space(&task.space, &mut self.frames, &mut self.pool);
        tells_child(child, &mut self.frames, args, q);
        q
    }

    /// A fork that is refused is answered so, behind its ecall.
    fn refuses_fork<T: PageTable>(&mut self, task: &Task<T>, t: Tid, answer: i64)
        requires sound { IsSound self.old (T.rows task.now.space.table) }
        ensures after { (c : channels) (r : Rest) → here_of self.new (T.rows task.now.space.table) task.now c r
            ≡ (let h = here_of self.old (T.rows task.now.space.table) task.now c r in with_view (answers t.0 answer (past_ecall t.0 (view_here h))) h) }
        ensures cores { self.new.cores ≡ self.old.cores }
        ensures rings { self.new.rings ≡ self.old.rings }
        ensures frames { KeepsFrames self.old self.new }
    {
        self.node.past_ecall(t);
        self.node.answered(t, answer);
    }

    /// The trap of a stopped thread of the process that is a fork. It answers the number of the process that begins,
    /// whose space is then `child`, and None where the fork is refused.
    pub fn fork<T: PageTable>(
        &mut self,
        task: &Task<T>,
        child: &mut Space<T>,
        p: Pid,
        t: Tid,
    ) -> Option<Pid>
        requires some_core { 1 ≤ self.old.cores }
        requires few_cores { self.old.cores ≤ 8 }
        requires sound { IsSound self.old (T.rows task.now.space.table) }
        requires may { MayFork self.old p.0 t.0 }
        requires fork { (files : Files) → calls_fork (node_of self.old.node files) t.0 ≡ true }
        requires empty { T.rows child.old.table ≡ no_rows }
        requires copy { HasCopyRoom T.rows T.has_room task.now.space child.old }
        ensures event { (c : channels) (r : Rest) → record (here_of self.new (T.rows task.now.space.table) task.now c (shared p.0 result r)) { born = born_of self.new.rings (T.rows child.new.table) result }
            ≡ after_trap p.0 t.0 (here_of self.old (T.rows task.now.space.table) task.now c r) }
        ensures rings { self.new.rings ≡ self.old.rings }
        ensures frames { KeepsFrames self.old self.new }
    {
        match self.fork_refusal(&task.space) {
            Some(answer) => {
                self.refuses_fork(task, t, answer);
                self.ran_last(t);
                None
            }
            None => {
                let args = arguments_of(&self.node.regs(t));
                let q = self.forks(task, child, p, t, &args);
                self.ran_last(t);
                Some(q)
            }
        }
    }
}

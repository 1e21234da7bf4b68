// Trap: a stopped thread enters the kernel.
ghost use Rattle.file_model.specs.Errno.{ENOSYS};
ghost use Rattle.file_model.specs.Files.{Files};
ghost use Rattle.hybrid_model.specs.OneProcess.{view_here, with_view};
ghost use Rattle.hybrid_model.specs.Trap.{after_trap, trapped};
ghost use Rattle.ikc_channel.specs.declared.Channel.{Channel as channels};
ghost use Rattle.isa_model.specs.declared.stops.Stop.TheVariants as stops;
ghost use Rattle.kernel_model.specs.Calls.{one_of_calls};
ghost use Rattle.kernel_model.specs.LocalCalls.{answers};
ghost use Rattle.kernel_model.specs.Nodes.{is_stopped, thread_of};
ghost use Rattle.kernel_model.specs.CallPhases.{Phase};
ghost use Rattle.kernel_model.specs.Progress.{starting};
ghost use Rattle.kernel_model.specs.Signals.{on_node, raised, signal_of_stop};
ghost use Rattle.kernel_model.specs.Traps.{Begins, call_named, called, past_ecall, trap, trap_of_stop};
ghost use Rattle.kernel_tables.specs.Shown.{node_of};
ghost use Rattle.lwk_side.specs.Begins.{begins_at, begins_call, names_delegated};
ghost use Rattle.lwk_side.specs.Changing.{HasTrappedRoom};
ghost use Rattle.lwk_side.specs.Cloning.{calls_fork, forks_at, names_fork};
ghost use Rattle.lwk_side.specs.Resting.{MayRest};
ghost use Rattle.lwk_side.specs.Shown.{Rest, here_of};
ghost use Rattle.lwk_side.specs.Sound.{IsSound, KeepsFrames, KeepsRings};
ghost use Rattle.lwk_side.specs.Trapping.{CallFits, CanBegin, IsOfProcess};
ghost use Rattle.lwk_side.specs.Wired.{HasPlace};
ghost use Rattle.lwk_views.specs.Views.{seen};
ghost use Rattle.mck_word.specs.Words.{refused};
ghost use Rattle.std.specs.Prelude.{◌≡◌, ◌<◌, List, Some, false, get_or, length, true, ℕ};
ghost use Rattle.system_calls.specs.declared.LocalCall.TheVariants.{Futex};

use crate::kernel::Lwk;
use crate::task::Task;
use crate::trap_local::{local_call, raises, refuses_unknown};
use ikc_channel::Channel;
use isa_model::Stop;
use kernel_model::Does;
use kernel_tables::{arguments_of, call_named};
use mck_word::{Pid, Regs, Tid};
use page_map::PageTable;
use system_calls::{FileCall, LocalCall, SystemCall};

impl Lwk {
    /// The stop of the thread raises its signal.
    fn raises_signal<T: PageTable>(&mut self, task: &Task<T>, t: Tid, stop: Stop)
        requires sound { IsSound self.old (T.rows task.now.space.table) }
        ensures after { (c : channels) (r : Rest) → here_of self.new (T.rows task.now.space.table) task.now c r
            ≡ (let h = here_of self.old (T.rows task.now.space.table) task.now c r in
            with_view (on_node (raised t.0 (signal_of_stop stop)) (view_here h)) h) }
        ensures cores { self.new.cores ≡ self.old.cores }
        ensures frames { KeepsFrames self.old self.new }
    {
        raises(&mut self.node, t, stop);
    }

    /// A call of the thread that isn't known is refused, behind its ecall.
    fn refuses_call<T: PageTable>(&mut self, task: &Task<T>, t: Tid)
        requires sound { IsSound self.old (T.rows task.now.space.table) }
        ensures after { (c : channels) (r : Rest) → here_of self.new (T.rows task.now.space.table) task.now c r
            ≡ (let h = here_of self.old (T.rows task.now.space.table) task.now c r in
            with_view (answers t.0 (refused ENOSYS) (past_ecall t.0 (view_here h))) h) }
        ensures cores { self.new.cores ≡ self.old.cores }
        ensures frames { KeepsFrames self.old self.new }
    {
        self.node.past_ecall(t);
        refuses_unknown(&mut self.node, t);
    }

    /// A local call of the thread is made, behind its ecall.
    fn calls_locally<T: PageTable>(
        &mut self,
        task: &Task<T>,
        t: Tid,
        call: LocalCall,
        args: &[u64; 6],
    )
        requires sound { IsSound self.old (T.rows task.now.space.table) }
        requires rest { call ≡ Futex → MayRest self.old.node t.0 }
        ensures after { (c : channels) (r : Rest) → here_of self.new (T.rows task.now.space.table) task.now c r
            ≡ (let h = here_of self.old (T.rows task.now.space.table) task.now c r in
            with_view (one_of_calls t.0 call (λ k. get_or args.now k 0) (past_ecall t.0 (view_here h))) h) }
        ensures cores { self.new.cores ≡ self.old.cores }
        ensures frames { KeepsFrames self.old self.new }
    {
        self.node.past_ecall(t);
        local_call(&mut self.node, &task.space, &mut self.frames, t, call, args);
    }

    /// A delegated call of the thread begins, behind its ecall.
    fn begins<T: PageTable>(
        &mut self,
        task: &mut Task<T>,
        channel: &mut Channel,
        t: Tid,
        call: FileCall,
        args: &[u64; 6],
    )
        requires begin { CanBegin self.old task.old channel.old }
        requires place { HasPlace self.old channel.old.to_linux t.0 }
        ensures after { (r : Rest) (p : ℕ) (phases : List Phase) → here_of self.new (T.rows task.new.space.table) task.new channel.new r
            ≡ (let h = here_of self.old (T.rows task.old.space.table) task.old channel.old r in
            trapped p t.0 (Begins (past_ecall t.0 (view_here h)).node (starting call args.now phases)) h) }
        ensures cores { self.new.cores ≡ self.old.cores }
        ensures frames { KeepsFrames self.old self.new }
        ensures rings { KeepsRings channel.old channel.new }
    {
        self.node.past_ecall(t);
        self.begin_call(task, channel, t, call, args);
    }

    /// The call that the registers of the thread name, which stands on its ecall.
    fn call<T: PageTable>(
        &mut self,
        task: &mut Task<T>,
        channel: &mut Channel,
        p: Pid,
        t: Tid,
        regs: &Regs,
    )
        requires sound { IsSound self.old (T.rows task.old.space.table) }
        requires begin { CanBegin self.old task.old channel.old }
        requires place { names_delegated regs.now ≡ true → HasPlace self.old channel.old.to_linux t.0 }
        requires fits { CallFits self.old.node t.0 regs.now }
        requires no_fork { names_fork regs.now ≡ false }
        requires own { IsOfProcess self.old.node p.0 t.0 }
        requires change { (files : Files) → HasTrappedRoom (T.has_room task.old.space.table) task.old.space.areas.spare p.0
            (called t.0 (length self.old.pool.free) regs.now (past_ecall t.0 (seen (T.rows task.old.space.table) self.old.node self.old.frames files)) (call_named regs.now)) }
        ensures after { (r : Rest) → here_of self.new (T.rows task.new.space.table) task.new channel.new r
            ≡ (let h = here_of self.old (T.rows task.old.space.table) task.old channel.old r in
            trapped p.0 t.0 (called t.0 (length h.free) regs.now (past_ecall t.0 (view_here h)) (call_named regs.now)) h) }
        ensures cores { self.new.cores ≡ self.old.cores }
        ensures frames { KeepsFrames self.old self.new }
        ensures rings { KeepsRings channel.old channel.new }
    {
        let args = arguments_of(regs);
        match call_named(regs) {
            None => self.refuses_call(task, t),
            Some(SystemCall::Clone) => self.clones(task, t, &args),
            Some(SystemCall::Local(call)) => self.calls_locally(task, t, call, &args),
            Some(SystemCall::Memory(call)) => self.calls_for_memory(task, p, t, call, &args),
            Some(SystemCall::File(call)) => self.begins(task, channel, t, call, &args),
        }
    }

    /// The trap of a thread that stopped so.
    fn trap_of_stop<T: PageTable>(
        &mut self,
        task: &mut Task<T>,
        channel: &mut Channel,
        p: Pid,
        t: Tid,
        stop: Stop,
    )
        requires sound { IsSound self.old (T.rows task.old.space.table) }
        requires begin { CanBegin self.old task.old channel.old }
        requires place { (files : Files) → begins_at (thread_of (node_of self.old.node files) t.0).regs (Some stop) ≡ true → HasPlace self.old channel.old.to_linux t.0 }
        requires fits { (files : Files) → CallFits self.old.node t.0 (thread_of (node_of self.old.node files) t.0).regs }
        requires no_fork { (files : Files) → forks_at (thread_of (node_of self.old.node files) t.0).regs (Some stop) ≡ false }
        requires own { IsOfProcess self.old.node p.0 t.0 }
        requires change { (files : Files) → HasTrappedRoom (T.has_room task.old.space.table) task.old.space.areas.spare p.0
            (trap_of_stop t.0 (length self.old.pool.free) (seen (T.rows task.old.space.table) self.old.node self.old.frames files) (Some stop)) }
        ensures after { (r : Rest) → here_of self.new (T.rows task.new.space.table) task.new channel.new r
            ≡ (let h = here_of self.old (T.rows task.old.space.table) task.old channel.old r in
            trapped p.0 t.0 (trap_of_stop t.0 (length h.free) (view_here h) (Some stop)) h) }
        ensures cores { self.new.cores ≡ self.old.cores }
        ensures frames { KeepsFrames self.old self.new }
        ensures rings { KeepsRings channel.old channel.new }
    {
        match stop {
            Stop::Ecall => {
                let regs = self.node.regs(t);
                self.call(task, channel, p, t, &regs);
            }
            stop => self.raises_signal(task, t, stop),
        }
    }

    /// The trap of a stopped thread of the process that is no fork.
    pub fn trap<T: PageTable>(&mut self, task: &mut Task<T>, channel: &mut Channel, p: Pid, t: Tid)
        requires sound { IsSound self.old (T.rows task.old.space.table) }
        requires begin { CanBegin self.old task.old channel.old }
        requires place { (files : Files) → begins_call (node_of self.old.node files) t.0 ≡ true → HasPlace self.old channel.old.to_linux t.0 }
        requires fits { (files : Files) → CallFits self.old.node t.0 (thread_of (node_of self.old.node files) t.0).regs }
        requires no_fork { (files : Files) → calls_fork (node_of self.old.node files) t.0 ≡ false }
        requires stopped { (files : Files) → is_stopped (thread_of (node_of self.old.node files) t.0).does ≡ true }
        requires own { IsOfProcess self.old.node p.0 t.0 }
        requires change { (files : Files) → HasTrappedRoom (T.has_room task.old.space.table) task.old.space.areas.spare p.0
            (trap t.0 (length self.old.pool.free) (seen (T.rows task.old.space.table) self.old.node self.old.frames files)) }
        ensures event { (r : Rest) → here_of self.new (T.rows task.new.space.table) task.new channel.new r
            ≡ after_trap p.0 t.0 (here_of self.old (T.rows task.old.space.table) task.old channel.old r) }
        ensures frames { KeepsFrames self.old self.new }
        ensures rings { KeepsRings channel.old channel.new }
    {
        let Does::Stopped(stop) = self.node.does(t) else {
            return;
        };
        self.trap_of_stop(task, channel, p, t, stop);
        self.ran_last(t);
    }
}

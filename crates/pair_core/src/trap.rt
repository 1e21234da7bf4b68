// Trap: a stopped thread enters the lightweight kernel. A fork stands in a file of its own.
ghost use Rattle.file_model.specs.Files.{Files};
ghost use Rattle.hybrid_model.specs.Events.{after};
ghost use Rattle.hybrid_model.specs.declared.events.Event.TheVariants.{Trap};
ghost use Rattle.kernel_model.specs.Nodes.{thread_of};
ghost use Rattle.kernel_tables.specs.Shown.{node_of};
ghost use Rattle.lwk_side.specs.Cloning.{calls_fork};
ghost use Rattle.mck_word.specs.Maps.{at};
ghost use Rattle.pair_core.specs.Kept.{Kept};
ghost use Rattle.pair_core.specs.KernelRoom.{HasCallRoom, HasChangeRoom, HasKernelRoom};
ghost use Rattle.pair_core.specs.Newborn.{HasTrapOrForkRoom};
ghost use Rattle.node_machine.specs.Reached.{IsSound};
ghost use Rattle.pair_core.specs.Ready.{Ready};
ghost use Rattle.pair_core.specs.Shown.{pair_of};
ghost use Rattle.pair_core.specs.declared.parts.Side.{Side as side_row};
ghost use Rattle.std.specs.Prelude.{◌+◌, ◌<◌, ◌≡◌, ◌≤◌, OnOk, Some, false};

use crate::parts::Parts;
use file_calls::store::FileStore;
use guest_laws::no_ring_is_full;
use hybrid_model::Event;
use key_rows::Rows;
use lwk_side::Caller;
use mck_word::{NoMemory, Pid, Tid};
use offer_laws::few;
use page_map::PageTable;
use request_book::Book;
use std::alloc::Global;

/// Makes room for one call among the callers and in the book.
fn reserve_call(callers: &mut Rows<Caller>, book: &mut Book) -> Result<(), NoMemory>
    ensures callers { callers.new.map ≡ callers.old.map }
    ensures book { book.new.requests ≡ book.old.requests }
    ensures room { OnOk result ((1 ≤ book.new.spare) × (1 ≤ callers.new.spare)) }
{
    book.reserve()?;
    if callers.reserve(1).is_err() {
        return Err(NoMemory);
    }
    Ok(())
}

impl<T: PageTable + Drop, F: FileStore> Parts<T, F> {
    /// Makes room for a call, where the process has a row.
    fn make_call_room(&mut self, p: Pid) -> Result<(), NoMemory>
        ensures same { pair_of T.rows F.files self.new ≡ pair_of T.rows F.files self.old }
        ensures kept { Kept self.old → Kept self.new }
        ensures room { OnOk result ((s : side_row T) → at self.new.sides.map p.0 ≡ Some s → HasCallRoom s) }
        ensures lwk { self.new.lwk ≡ self.old.lwk }
    {
        if self.sides.get(p.0 as u64).is_none() {
            return Ok(());
        }
        let side = self.sides.row_mut(p.0 as u64);
        reserve_call(&mut side.task.callers, &mut side.channel.book)
    }

    /// Makes room for a thread that falls asleep.
    fn make_sleeper_room(&mut self) -> Result<(), NoMemory>
        ensures same { pair_of T.rows F.files self.new ≡ pair_of T.rows F.files self.old }
        ensures kept { Kept self.old → Kept self.new }
        ensures room { OnOk result (1 ≤ self.new.lwk.node.sleepers.spare) }
    {
        self.lwk.node.reserve_sleeper()
    }

    /// Makes room for a thread that begins, beside the room for sleepers and processes that there is.
    pub(crate) fn make_thread_room(&mut self) -> Result<(), NoMemory>
        ensures same { pair_of T.rows F.files self.new ≡ pair_of T.rows F.files self.old }
        ensures kept { Kept self.old → Kept self.new }
        ensures sleepers { self.old.lwk.node.sleepers.spare ≤ self.new.lwk.node.sleepers.spare }
        ensures processes { self.old.lwk.node.processes.spare ≤ self.new.lwk.node.processes.spare }
        ensures workers { self.new.workers ≡ self.old.workers }
        ensures room { OnOk result (1 ≤ self.new.lwk.node.threads.spare) }
    {
        self.lwk.node.reserve_thread()
    }

    /// Makes room for the change of memory that the trap of a thread of the process makes at once, where the process
    /// has a row.
    fn make_change_room(&mut self, p: Pid, t: Tid) -> Result<(), NoMemory>
        requires sound { IsSound (pair_of T.rows F.files self.old) }
        requires own { (files : Files) → (thread_of (node_of self.old.lwk.node files) t.0).process ≡ p.0 }
        ensures same { pair_of T.rows F.files self.new ≡ pair_of T.rows F.files self.old }
        ensures kept { Kept self.old → Kept self.new }
        ensures room { OnOk result ((s : side_row T) → at self.new.sides.map p.0 ≡ Some s → HasChangeRoom T.rows T.has_room self.new p.0 t.0 s) }
        ensures call { ((s : side_row T) → at self.old.sides.map p.0 ≡ Some s → HasCallRoom s) → (s : side_row T) → at self.new.sides.map p.0 ≡ Some s → HasCallRoom s }
        ensures lwk { self.new.lwk ≡ self.old.lwk }
    {
        if self.sides.get(p.0 as u64).is_none() {
            return Ok(());
        }
        let side = self.sides.row_mut(p.0 as u64);
        self.lwk.make_trap_room(&mut side.task, p, t)
    }

    /// Makes the room that the trap of a thread needs.
    pub(crate) fn make_trap_room(&mut self, t: Tid) -> Result<(), NoMemory>
        requires { IsSound (pair_of T.rows F.files self.old) }
        ensures same { pair_of T.rows F.files self.new ≡ pair_of T.rows F.files self.old }
        ensures kept { Kept self.old → Kept self.new }
        ensures room { OnOk result (HasKernelRoom T.rows T.has_room F.files (Trap t) self.new) }
    {
        self.make_sleeper_room()?;
        self.make_thread_room()?;
        let p = self.lwk.node.process_of_thread(t);
        self.make_call_room(p)?;
        self.make_change_room(p, t)
    }

    /// The trap of a stopped thread that is no fork: the signal of its stop is raised; its call is answered, made, or
    /// begins; or it waits for the round of a change.
    pub fn trap(&mut self, t: Tid)
        requires ready { Ready (pair_of T.rows F.files self.old) (Trap t) }
        requires kept { Kept self.old }
        requires no_fork { (files : Files) → calls_fork (node_of self.old.lwk.node files) t.0 ≡ false }
        requires room { HasKernelRoom T.rows T.has_room F.files (Trap t) self.old }
        ensures after { pair_of T.rows F.files self.new ≡ after (pair_of T.rows F.files self.old) (Trap t) }
        ensures kept { Kept self.new }
    {
        no_ring_is_full();
        few();
        let p = self.lwk.node.process_of_thread(t);
        let side = self.sides.row_mut(p.0 as u64);
        self.lwk.trap(&mut side.task, &mut side.channel, p, t);
    }

    /// Makes the room that the trap of a thread needs, be it a fork or not. The parts show the same, also where memory
    /// lacks.
    pub fn make_trap_or_fork_room(&mut self, alloc: Global, t: Tid) -> Result<(), NoMemory>
        requires workers { self.old.workers ≤ 4 }
        requires sound { IsSound (pair_of T.rows F.files self.old) }
        ensures same { pair_of T.rows F.files self.new ≡ pair_of T.rows F.files self.old }
        ensures kept { Kept self.old → Kept self.new }
        ensures room { OnOk result (HasTrapOrForkRoom T.rows T.has_room F.room F.files t self.new) }
    {
        if self.lwk.calls_fork(t) {
            self.make_fork_room(alloc, t)
        } else {
            self.make_kernel_room(Event::Trap(t))
        }
    }

    /// The trap of a stopped thread, be it a fork or not.
    pub fn trap_or_fork(&mut self, t: Tid)
        requires ready { Ready (pair_of T.rows F.files self.old) (Trap t) }
        requires kept { Kept self.old }
        requires room { HasTrapOrForkRoom T.rows T.has_room F.room F.files t self.old }
        ensures after { pair_of T.rows F.files self.new ≡ after (pair_of T.rows F.files self.old) (Trap t) }
        ensures kept { Kept self.new }
    {
        if self.lwk.calls_fork(t) {
            self.fork(t);
        } else {
            self.trap(t);
        }
    }
}

// Room for the steps that take memory.
ghost use Rattle.kernel_tables.specs.Room.{KeepsRoom};
ghost use Rattle.kernel_model.specs.Steps.{of_thread};
ghost use Rattle.mck_word.specs.Maps.{and_then, at, count, no_rows};
ghost use Rattle.one_files.specs.Seen.{room_of};
ghost use Rattle.one_kernel.specs.Parts.{one_of};
ghost use Rattle.one_kernel.specs.Rooms.{HasCallRoom, HasFileRoom, HasForkRoom, HasPagesFor, HasPieceRoom};
ghost use Rattle.std.specs.Prelude.{◌≡◌, ◌≤◌, OnOk, Some, is_some};

use crate::parts::{One, Own};
use file_calls::store::FileStore;
use mck_word::{NoMemory, Pid, Tid};
use one_memory::PageRows;

impl One {
    /// Whether the process has a row.
    fn has_own(&self, p: Pid) -> bool
        ensures { result ≡ is_some (at self.now.own.map p.0) }
    {
        self.own.get(p.0 as u64).is_some()
    }

    /// Whether the thread has a call in the row of the process.
    fn has_call_in(&self, p: Pid, t: Tid) -> bool
        ensures { result ≡ is_some (and_then (at self.now.own.map p.0) (λ w. at w.calls.map t.0)) }
    {
        match self.own.get(p.0 as u64) {
            Some(own) => own.has_call(t),
            None => false,
        }
    }

    /// Makes room for the file step of the thread's call. The state stays, also where memory lacks.
    pub(crate) fn make_file_room(&mut self, t: Tid) -> Result<(), NoMemory>
        ensures state { one_of self.new ≡ one_of self.old }
        ensures room { OnOk result (HasFileRoom self.new t.0) }
    {
        let p = self.node.process_of_thread(t);
        if !self.has_call_in(p, t) {
            return Ok(());
        }
        let own = self.own.row_mut(p.0 as u64);
        let call = own.calls.row_mut(t.0 as u64);
        call.progress.make_room_for_step(&mut self.files)
    }

    /// Makes room for the next piece of the thread's call. The state stays, also where memory lacks.
    pub(crate) fn make_piece_room(&mut self, t: Tid) -> Result<(), NoMemory>
        ensures state { one_of self.new ≡ one_of self.old }
        ensures room { OnOk result (HasPieceRoom self.new t.0) }
    {
        let p = self.node.process_of_thread(t);
        if !self.has_call_in(p, t) {
            return Ok(());
        }
        let own = self.own.row_mut(p.0 as u64);
        let call = own.calls.row_mut(t.0 as u64);
        call.progress.make_room_for_piece(&mut self.files)
    }

    /// Makes room for a call of the thread.
    pub(crate) fn make_call_room(&mut self, t: Tid) -> Result<(), NoMemory>
        ensures state { one_of self.new ≡ one_of self.old }
        ensures node { self.new.node ≡ self.old.node }
        ensures room { OnOk result (HasCallRoom self.new t.0) }
    {
        let p = self.node.process_of_thread(t);
        if !self.has_own(p) {
            return Ok(());
        }
        let own = self.own.row_mut(p.0 as u64);
        own.calls.reserve(1)?;
        Ok(())
    }

    /// Makes room for a process of the node, and for its row.
    fn make_process_room(&mut self) -> Result<(), NoMemory>
        ensures state { one_of self.new ≡ one_of self.old }
        ensures node { KeepsRoom self.old.node self.new.node }
        ensures process { OnOk result (1 ≤ self.new.node.processes.spare) }
        ensures row { OnOk result (1 ≤ self.new.own.spare) }
    {
        self.node.reserve_process()?;
        self.own.reserve(1)?;
        Ok(())
    }

    /// Makes room for the descriptors of a child.
    fn make_share_room(&mut self) -> Result<(), NoMemory>
        ensures state { one_of self.new ≡ one_of self.old }
        ensures node { self.new.node ≡ self.old.node }
        ensures own { self.new.own ≡ self.old.own }
        ensures room { OnOk result (1 ≤ (room_of self.new.files).shares) }
    {
        self.files.make_share()
    }

    /// How many pages the process of the thread has, or 0 where it has no row.
    fn pages_of(&self, t: Tid) -> usize
        ensures { (w : Own) → at self.now.own.map (of_thread (one_of self.now).node t.0) ≡ Some w → result ≡ count w.memory.map }
    {
        let p = self.node.process_of_thread(t);
        match self.own.get(p.0 as u64) {
            Some(own) => own.memory.count(),
            None => 0,
        }
    }

    /// Makes the memory of a child of the thread's process, which is kept aside: it has no page, and room for those of
    /// the process.
    fn make_unborn(&mut self, t: Tid) -> Result<(), NoMemory>
        ensures state { one_of self.new ≡ one_of self.old }
        ensures node { self.new.node ≡ self.old.node }
        ensures own { self.new.own ≡ self.old.own }
        ensures files { self.new.files ≡ self.old.files }
        ensures empty { self.new.unborn.map ≡ no_rows }
        ensures pages { OnOk result (HasPagesFor self.new t.0) }
    {
        let pages = self.pages_of(t);
        self.unborn = PageRows::new(self.alloc);
        self.unborn.reserve(self.alloc, pages)
    }

    /// Makes room for a process with a copy of the memory of the thread's process. The state stays, also where memory
    /// lacks.
    pub(crate) fn make_fork_room(&mut self, t: Tid) -> Result<(), NoMemory>
        ensures state { one_of self.new ≡ one_of self.old }
        ensures node { KeepsRoom self.old.node self.new.node }
        ensures room { OnOk result (HasForkRoom self.new t.0) }
    {
        self.make_process_room()?;
        self.make_share_room()?;
        self.make_unborn(t)
    }
}

// Room for forks.
ghost use Rattle.file_model.specs.Files.{Files};
ghost use Rattle.hybrid_model.specs.Events.{of_thread};
ghost use Rattle.kernel_tables.specs.Shown.{node_of};
ghost use Rattle.mck_word.specs.Maps.{at};
ghost use Rattle.pair_core.specs.Kept.{Kept};
ghost use Rattle.pair_core.specs.Newborn.{HasForkRoom, HasNewborn, IsNewborn};
ghost use Rattle.pair_core.specs.Shown.{pair_of};
ghost use Rattle.pair_core.specs.declared.parts.Side.{Side as side_row};
ghost use Rattle.std.specs.Prelude.{◌≡◌, ◌≤◌, IfOk, OnOk, Some, ℕ};

use crate::boot_guests::guest_side;
use crate::parts::{Parts, Side};
use file_calls::store::FileStore;
use lwk_space::Space;
use mck_word::{NoMemory, Pid, Tid};
use page_map::PageTable;
use std::alloc::Global;

/// The side of a process to which nothing happened yet, with room for the pages of its parent.
fn newborn<T: PageTable + Drop>(
    alloc: Global,
    parent: &Space<T>,
    rings: u32,
    workers: u32,
) -> Result<Side<T>, NoMemory>
    requires { workers ≤ 4 }
    ensures { IfOk result (λ s. IsNewborn T.rows T.has_room parent.now rings workers s) }
{
    let table = T::empty(alloc)?;
    let mut space = Space::new(alloc, table);
    space.reserve_copy(parent)?;
    guest_side(alloc, space, rings, workers)
}

impl<T: PageTable + Drop, F: FileStore> Parts<T, F> {
    /// Makes room for a process among those of the node.
    fn make_process_room(&mut self) -> Result<(), NoMemory>
        ensures same { pair_of T.rows F.files self.new ≡ pair_of T.rows F.files self.old }
        ensures kept { Kept self.old → Kept self.new }
        ensures workers { self.new.workers ≡ self.old.workers }
        ensures room { OnOk result (1 ≤ self.new.lwk.node.processes.spare) }
    {
        self.lwk.node.reserve_process()
    }

    /// Makes room for the row of a process.
    fn make_side_room(&mut self) -> Result<(), NoMemory>
        ensures same { pair_of T.rows F.files self.new ≡ pair_of T.rows F.files self.old }
        ensures kept { Kept self.old → Kept self.new }
        ensures workers { self.new.workers ≡ self.old.workers }
        ensures lwk { self.new.lwk ≡ self.old.lwk }
        ensures room { OnOk result (1 ≤ self.new.sides.spare) }
    {
        self.sides.reserve(1)?;
        Ok(())
    }

    /// Makes room for the descriptors of a child.
    fn make_share_room(&mut self) -> Result<(), NoMemory>
        ensures same { pair_of T.rows F.files self.new ≡ pair_of T.rows F.files self.old }
        ensures kept { Kept self.old → Kept self.new }
        ensures workers { self.new.workers ≡ self.old.workers }
        ensures lwk { self.new.lwk ≡ self.old.lwk }
        ensures sides { self.new.sides ≡ self.old.sides }
        ensures room { OnOk result (1 ≤ (F.room self.new.files).shares) }
    {
        self.files.make_share()
    }

    /// Makes the side of a child of the process, which is kept aside.
    fn make_newborn(&mut self, alloc: Global, p: Pid) -> Result<(), NoMemory>
        requires { self.old.workers ≤ 4 }
        ensures same { pair_of T.rows F.files self.new ≡ pair_of T.rows F.files self.old }
        ensures kept { Kept self.old → Kept self.new }
        ensures newborn { OnOk result ((s : side_row T) → at self.new.sides.map p.0 ≡ Some s → HasNewborn T.rows T.has_room self.new s) }
        ensures lwk { self.new.lwk ≡ self.old.lwk }
        ensures sides { self.new.sides ≡ self.old.sides }
        ensures files { self.new.files ≡ self.old.files }
    {
        let Some(side) = self.sides.get(p.0 as u64) else {
            return Ok(());
        };
        let child = newborn(alloc, &side.task.space, self.lwk.rings, self.workers)?;
        self.newborn = Some(child);
        Ok(())
    }

    /// Makes the room that a fork by the thread needs. The parts show the same, also where memory lacks.
    pub fn make_fork_room(&mut self, alloc: Global, t: Tid) -> Result<(), NoMemory>
        requires { self.old.workers ≤ 4 }
        ensures same { pair_of T.rows F.files self.new ≡ pair_of T.rows F.files self.old }
        ensures kept { Kept self.old → Kept self.new }
        ensures room { OnOk result ((files : Files) → HasForkRoom T.rows T.has_room F.room self.new (of_thread (node_of self.new.lwk.node files) t.0)) }
    {
        self.make_process_room()?;
        self.make_thread_room()?;
        self.make_side_room()?;
        self.make_share_room()?;
        let p = self.lwk.node.process_of_thread(t);
        self.make_newborn(alloc, p)
    }
}

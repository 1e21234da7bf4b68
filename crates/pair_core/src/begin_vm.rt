// BeginVm: the round of a change begins.
ghost use Rattle.hybrid_model.specs.Events.{after};
ghost use Rattle.hybrid_model.specs.declared.events.Event.TheVariants.{BeginVm};
ghost use Rattle.kernel_model.specs.MemoryCalls.{closing_range};
ghost use Rattle.kernel_model.specs.Nodes.{Process};
ghost use Rattle.kernel_model.specs.Pages.{page_end};
ghost use Rattle.pair_core.specs.Kept.{Kept};
ghost use Rattle.pair_core.specs.KernelRoom.{HasKernelRoom};
ghost use Rattle.pair_core.specs.Ready.{Ready};
ghost use Rattle.pair_core.specs.Shown.{pair_of};
ghost use Rattle.std.specs.Prelude.{◌+◌, ◌<◌, ◌^◌, ◌≡◌, OnOk, Some};

use crate::parts::Parts;
use file_calls::store::FileStore;
use guest_laws::no_ring_is_full;
use kernel_model::{Change, Does};
use mck_word::{NoMemory, PageRange, Tid};
use page_map::PageTable;

/// One round more can be counted. `NoMemory` where not.
fn check_count(begun: u64) -> Result<(), NoMemory>
    ensures { OnOk result (begun + 1 < 2 ^ 64) }
{
    if begun == u64::MAX {
        return Err(NoMemory);
    }
    Ok(())
}

/// The pages of the longest heap.
const HEAP_PAGES: u64 = 0x4000;

/// The first page at or above an address.
fn page_end(a: u64) -> u64
    ensures { result ≡ page_end a }
{
    if a % 4096 == 0 {
        a / 4096
    } else {
        a / 4096 + 1
    }
}

/// The range that a round over the change closes, where the heap begins at `base`.
fn closing_range(base: u64, c: &Change) -> PageRange
    ensures { (p : Process) → p.heap_base ≡ base → result ≡ closing_range p c.now }
{
    match *c {
        Change::Map { range, .. } => range,
        Change::Unmap(range) => range,
        Change::Protect { range, .. } => range,
        Change::Brk(a) => PageRange {
            lo: page_end(a),
            hi: base / 4096 + HEAP_PAGES,
        },
    }
}

impl<T: PageTable + Drop, F: FileStore> Parts<T, F> {
    /// A round more of the thread's process can be counted. `NoMemory` where not.
    pub(crate) fn make_round_room(&self, t: Tid) -> Result<(), NoMemory>
        ensures { OnOk result (HasKernelRoom T.rows T.has_room F.files (BeginVm t) self.now) }
    {
        let p = self.lwk.node.process_of_thread(t);
        match self.sides.get(p.0 as u64) {
            Some(side) => check_count(side.task.begun),
            None => Ok(()),
        }
    }

    /// The round of the thread's change begins.
    pub fn begin_vm(&mut self, t: Tid)
        requires ready { Ready (pair_of T.rows F.files self.old) (BeginVm t) }
        requires kept { Kept self.old }
        requires room { HasKernelRoom T.rows T.has_room F.files (BeginVm t) self.old }
        ensures after { pair_of T.rows F.files self.new ≡ after (pair_of T.rows F.files self.old) (BeginVm t) }
        ensures kept { Kept self.new }
    {
        no_ring_is_full();
        let p = self.lwk.node.process_of_thread(t);
        let Does::InVm(change) = self.lwk.node.does(t) else {
            return;
        };
        let range = closing_range(self.lwk.node.heap_base(p), &change);
        let side = self.sides.row_mut(p.0 as u64);
        self.lwk
            .begin_round(&mut side.task, &mut side.channel, t, range);
    }
}

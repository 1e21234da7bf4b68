// What quanta are computed from.
ghost use Rattle.hybrid_model.specs.Globals.{Coherent};
ghost use Rattle.isa_model.specs.Memory.{page_at};
ghost use Rattle.node_quanta.specs.Happening.{IsThread, memory_of};
ghost use Rattle.pair_core.specs.Kept.{Kept};
ghost use Rattle.pair_core.specs.Shown.{pair_of};
ghost use Rattle.rv_quantum.specs.Images.{page_with};
ghost use Rattle.std.specs.Prelude.{◌≡◌, None};

use file_calls::store::FileStore;
use mck_flags::Rights;
use mck_word::{Pid, Regs, Tid};
use page_map::PageTable;
use pair_core::Parts;

/// The process and the registers of the thread. None exactly where no such thread lives.
pub fn regs<T: PageTable + Drop, F: FileStore>(parts: &Parts<T, F>, t: Tid) -> Option<(Pid, Regs)>
    ensures { IsThread (pair_of T.rows F.files parts.now) t.0 result }
{
    let node = &parts.lwk.node;
    if node.has_thread(t) {
        Some((node.process_of_thread(t), node.regs(t)))
    } else {
        None
    }
}

/// Copies the bytes of a page of the process as they are now, and answers its rights. None exactly where it is absent,
/// and nothing is copied then.
pub fn page_image<T: PageTable + Drop, F: FileStore>(
    parts: &Parts<T, F>,
    p: Pid,
    page: u64,
    into: &mut [u8; 4096],
) -> Option<Rights>
    requires coherent { Coherent (pair_of T.rows F.files parts.now) }
    requires kept { Kept parts.now }
    ensures page { page_with result into.new ≡ page_at (memory_of (pair_of T.rows F.files parts.now) p.0) page }
    ensures absent { result ≡ None → into.new ≡ into.old }
{
    match parts.sides.get(p.0 as u64) {
        Some(side) => space_quanta::page_image(&side.task.space, &parts.lwk.frames, page, into),
        None => None,
    }
}

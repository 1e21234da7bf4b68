// exit and exit_group.
ghost use Rattle.kernel_model.specs.LocalCalls.{exits, exits_group};
ghost use Rattle.lwk_calls.specs.Words.{cleared, leaves};
ghost use Rattle.kernel_tables.specs.Room.{KeepsRoom};
ghost use Rattle.lwk_space.specs.Rows.{FramesApart, FramesIn};
ghost use Rattle.lwk_views.specs.Views.{Did, DidAlone, Stepped};

use frame_mem::FrameMem;
use kernel_tables::KernelTables;
use lwk_space::Space;
use lwk_views::try_store;
use mck_word::{Pid, Tid};
use page_map::PageTable;

/// Clears the word at the address where it may be written, and wakes the first that sleeps there; 0 is no address.
fn clear_word<T: PageTable>(
    node: &mut KernelTables,
    space: &Space<T>,
    mem: &mut FrameMem,
    p: Pid,
    address: u64,
)
    requires frames { FramesIn (T.rows space.now.table) mem.old }
    requires apart { FramesApart (T.rows space.now.table) }
    ensures did { Did (T.rows space.now.table) node.old mem.old node.new mem.new (cleared p.0 address) }
    ensures room { KeepsRoom node.old node.new }
{
    if address != 0 {
        try_store(space, mem, address, &[0; 4]);
        node.wake(p, address, 1);
    }
}

/// A thread of the process leaves with the code; where it is the last, the process dies with the code of its first
/// thread.
fn leaves(node: &mut KernelTables, t: Tid, p: Pid, code: u8)
    ensures is { Stepped node.old node.new (leaves t.0 p.0 code) }
    ensures room { KeepsRoom node.old node.new }
{
    node.note_first_code(t, p, code);
    node.without_thread(t);
    node.dies_without_threads(p);
}

/// exit: the thread is gone; the word at its clear address is cleared, and the first that sleeps there wakes.
pub fn exits<T: PageTable>(
    node: &mut KernelTables,
    space: &Space<T>,
    mem: &mut FrameMem,
    t: Tid,
    code: u8,
)
    requires frames { FramesIn (T.rows space.now.table) mem.old }
    requires apart { FramesApart (T.rows space.now.table) }
    ensures did { Did (T.rows space.now.table) node.old mem.old node.new mem.new (exits t.0 code) }
    ensures room { KeepsRoom node.old node.new }
{
    let p = node.process_of_thread(t);
    let address = node.clear_address(t);
    clear_word(node, space, mem, p, address);
    leaves(node, t, p, code);
}

/// exit_group: the process of the thread dies with the code.
pub fn exits_group(node: &mut KernelTables, t: Tid, code: u8)
    ensures did { DidAlone node.old node.new (exits_group t.0 code) }
    ensures room { KeepsRoom node.old node.new }
{
    node.exits_group(t, code);
}

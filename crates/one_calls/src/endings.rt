// exit and exit_group.
ghost use Rattle.kernel_model.specs.LocalCalls.{exits, exits_group};
ghost use Rattle.one_calls.specs.Views.{Did, DidAlone, Stepped};
ghost use Rattle.one_calls.specs.Words.{cleared, leaves};

use kernel_tables::KernelTables;
use mck_word::{Pid, Tid};
use one_memory::PageRows;

/// Clears the word at the address where it may be written, and wakes the first that sleeps there; 0 is no address.
fn clear_word(node: &mut KernelTables, memory: &mut PageRows, p: Pid, address: u64)
    ensures { Did node.old memory.old.map node.new memory.new.map (cleared p.0 address) }
{
    if address != 0 {
        memory.try_store(address, &[0; 4]);
        node.wake(p, address, 1);
    }
}

/// A thread of the process leaves with the code; where it is the last, the process dies with the code of its first
/// thread.
fn leaves(node: &mut KernelTables, t: Tid, p: Pid, code: u8)
    ensures { Stepped node.old node.new (leaves t.0 p.0 code) }
{
    node.note_first_code(t, p, code);
    node.without_thread(t);
    node.dies_without_threads(p);
}

/// exit: the thread is gone; the word at its clear address is cleared, and the first that sleeps there wakes.
pub fn exits(node: &mut KernelTables, memory: &mut PageRows, t: Tid, code: u8)
    ensures { Did node.old memory.old.map node.new memory.new.map (exits t.0 code) }
{
    let p = node.process_of_thread(t);
    let address = node.clear_address(t);
    clear_word(node, memory, p, address);
    leaves(node, t, p, code);
}

/// exit_group: the process of the thread dies with the code.
pub fn exits_group(node: &mut KernelTables, t: Tid, code: u8)
    ensures { DidAlone node.old node.new (exits_group t.0 code) }
{
    node.exits_group(t, code);
}

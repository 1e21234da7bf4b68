// A node with one process of one thread, for the tests of calls.
ghost use Rattle.std.specs.Prelude.{◌≡◌};

use kernel_model::Life;
use kernel_tables::{KernelTables, Process};
use lwk_signals::Actions;
use mck_flags::SigSet;
use mck_word::{NoMemory, Pid, Regs, Tid};
use std::alloc::Global;

pub const PID: Pid = Pid(1);

pub const TID: Tid = Tid(1);

// The words of -ESRCH, -ECHILD, -EFAULT and -EINVAL.
pub const NO_PROCESS: u64 = 0xffff_ffff_ffff_fffd;

pub const NO_CHILD: u64 = 0xffff_ffff_ffff_fff6;

pub const BAD_ADDRESS: u64 = 0xffff_ffff_ffff_fff2;

pub const INVALID: u64 = 0xffff_ffff_ffff_ffea;

/// A process that lives and has run nothing.
pub fn guest() -> Process
    ensures { result.instructions ≡ 0 }
{
    Process {
        parent: Pid(0),
        waited: false,
        first_code: None,
        life: Life::Living,
        instructions: 0,
        actions: Actions::new(),
        pending: SigSet(0),
        program_break: 4096,
        heap_base: 4096,
    }
}

/// A node with one process of one thread, whose stack ends at 0x1_0800.
pub fn one_thread(alloc: Global) -> Result<KernelTables, NoMemory> {
    let mut node = KernelTables::new(alloc, 1, 100);
    node.reserve_process()?;
    node.reserve_thread()?;
    let _all = node.instructions_in_all();
    node.put_process(PID, guest());
    let mut x = [0; 32];
    x[2] = 0x1_0800;
    if node.live_threads(PID) == 0 && !node.has_thread(TID) {
        node.begin_thread(PID, TID, Regs { pc: 64, x }, SigSet(0), 0);
    }
    Ok(node)
}

/// What the thread was answered.
pub fn answer(node: &KernelTables) -> u64 {
    node.regs(TID).x[10]
}

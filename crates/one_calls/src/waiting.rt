// wait4: the end of a child.
ghost use Rattle.kernel_model.specs.CloneCalls.{begins_wait, end_status, status_of_life, tells_end, wait4, wait_over};
ghost use Rattle.kernel_model.specs.Traps.{waited};
ghost use Rattle.one_calls.specs.Views.{Did, DidAlone};
ghost use Rattle.std.specs.Prelude.{◌≡◌};

use crate::bits::{has_bit, minus};
use crate::numbers::store_number;
use kernel_model::{Does, Life};
use kernel_tables::KernelTables;
use mck_word::{End, Pid, Tid};
use one_memory::PageRows;
use system_calls::errors::{ECHILD, EFAULT, EINVAL, ENOSYS};

// WNOHANG, WUNTRACED and WCONTINUED.
const KNOWN_OPTIONS: u64 = 11;

// The bit of WNOHANG.
const NO_HANG: u32 = 0;

/// The status of an end: the code in its second byte, or the signal.
fn end_status(end: End) -> u32
    ensures { result ≡ end_status end }
{
    match end {
        End::Exit(code) => 256 * code as u32,
        End::Killed(signal) => signal,
    }
}

fn status_of_life(life: Life) -> u32
    ensures { result ≡ status_of_life life }
{
    match life {
        Life::Living => 0,
        Life::Dying(end) | Life::Ended(end) => end_status(end),
    }
}

/// The end of the child is told at the address, which may be 0, and noted as waited for.
fn tells_end(node: &mut KernelTables, memory: &mut PageRows, t: Tid, child: Pid, status: u64)
    ensures { Did node.old memory.old.map node.new memory.new.map (tells_end t.0 child.0 status) }
{
    let word = status_of_life(node.life(child));
    node.noted_waited(child);
    if status == 0 || store_number(memory, status, word) {
        node.answered(t, child.0 as i64);
    } else {
        node.answered(t, EFAULT);
    }
}

/// The wait of the thread is over: the lowest selected child that is Ended is told, or the call is refused.
fn wait_over(node: &mut KernelTables, memory: &mut PageRows, t: Tid, pid: i32, status: u64)
    ensures { Did node.old memory.old.map node.new memory.new.map (wait_over t.0 pid status) }
{
    let p = node.process_of_thread(t);
    match node.ended_child(p, pid) {
        Some(child) => tells_end(node, memory, t, child, status),
        None => node.answered(t, ECHILD),
    }
}

/// The thread waits for a child, or answers 0 at once.
fn begins_wait(node: &mut KernelTables, t: Tid, pid: i32, status: u64, options: u32)
    ensures { DidAlone node.old node.new (begins_wait t.0 pid status options) }
{
    if has_bit(NO_HANG, options as u64) {
        node.answered(t, 0);
    } else {
        node.set_does(t, Does::InWait { pid, status });
    }
}

/// wait4: the end of a selected child is told, or the thread waits for it. What was used isn't told.
pub fn wait4(
    node: &mut KernelTables,
    memory: &mut PageRows,
    t: Tid,
    pid: i32,
    status: u64,
    options: u32,
    rusage: u64,
)
    ensures { Did node.old memory.old.map node.new memory.new.map (wait4 t.0 pid status options rusage) }
{
    let p = node.process_of_thread(t);
    if minus(options as u64, KNOWN_OPTIONS) != 0 {
        node.answered(t, EINVAL);
    } else if rusage != 0 {
        node.answered(t, ENOSYS);
    } else if node.may_end_wait(p, pid) {
        wait_over(node, memory, t, pid, status);
    } else {
        begins_wait(node, t, pid, status, options);
    }
}

/// The wait that the thread is in is over, where it is in one.
#[tactic(auto, unfolding(kernel_model::specs::Traps::waited))]
pub fn waited(node: &mut KernelTables, memory: &mut PageRows, t: Tid)
    ensures { Did node.old memory.old.map node.new memory.new.map (waited t.0) }
{
    if let Does::InWait { pid, status } = node.does(t) {
        wait_over(node, memory, t, pid, status);
    }
}

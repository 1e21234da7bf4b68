// wait4: the end of a child.
ghost use Rattle.kernel_model.specs.CloneCalls.{begins_wait, end_status, status_of_life, tells_end, wait4, wait_over};
ghost use Rattle.kernel_model.specs.Traps.{waited};
ghost use Rattle.lwk_calls.specs.Words.{wait4_refusal, waits};
ghost use Rattle.kernel_tables.specs.Room.{KeepsRoom};
ghost use Rattle.lwk_space.specs.Rows.{FramesApart, FramesIn};
ghost use Rattle.lwk_views.specs.Views.{Did, DidAlone};
ghost use Rattle.std.specs.Prelude.{◌≡◌};

use crate::answering::{answers, has_bit, minus};
use crate::numbers::store_number;
use frame_mem::FrameMem;
use kernel_model::{Does, Life};
use kernel_tables::KernelTables;
use lwk_space::Space;
use mck_word::{End, Pid, Tid};
use page_map::PageTable;
use system_calls::errors::{ECHILD, EFAULT, EINVAL, ENOSYS};

// WNOHANG, WUNTRACED and WCONTINUED.
const KNOWN_OPTIONS: u64 = 11;

// The bit of WNOHANG.
const NO_HANG: u32 = 0;

/// The status of an end: the code in its second byte, or the signal.
fn end_status(end: End) -> u32
    ensures { result ≡ end_status end }
{
    match end {
        End::Exit(code) => 256 * code as u32,
        End::Killed(signal) => signal,
    }
}

fn status_of_life(life: Life) -> u32
    ensures { result ≡ status_of_life life }
{
    match life {
        Life::Living => 0,
        Life::Dying(end) => end_status(end),
        Life::Ended(end) => end_status(end),
    }
}

/// The end of the child is told at the address, which may be 0, and noted as waited for.
fn tells_end<T: PageTable>(
    node: &mut KernelTables,
    space: &Space<T>,
    mem: &mut FrameMem,
    t: Tid,
    child: Pid,
    status: u64,
)
    requires frames { FramesIn (T.rows space.now.table) mem.old }
    requires apart { FramesApart (T.rows space.now.table) }
    ensures did { Did (T.rows space.now.table) node.old mem.old node.new mem.new (tells_end t.0 child.0 status) }
    ensures room { KeepsRoom node.old node.new }
{
    let word = status_of_life(node.life(child));
    node.noted_waited(child);
    if status == 0 {
        node.answered(t, child.0 as i64);
    } else if store_number(space, mem, status, word) {
        node.answered(t, child.0 as i64);
    } else {
        node.answered(t, EFAULT);
    }
}

/// The wait of the thread is over: the lowest selected child that is Ended is told, or the call is refused.
fn wait_over<T: PageTable>(
    node: &mut KernelTables,
    space: &Space<T>,
    mem: &mut FrameMem,
    t: Tid,
    pid: i32,
    status: u64,
)
    requires frames { FramesIn (T.rows space.now.table) mem.old }
    requires apart { FramesApart (T.rows space.now.table) }
    ensures did { Did (T.rows space.now.table) node.old mem.old node.new mem.new (wait_over t.0 pid status) }
    ensures room { KeepsRoom node.old node.new }
{
    let p = node.process_of_thread(t);
    match node.ended_child(p, pid) {
        Some(child) => tells_end(node, space, mem, t, child, status),
        None => answers(node, t, ECHILD),
    }
}

/// The thread waits for a child, or answers 0 at once.
fn begins_wait(node: &mut KernelTables, t: Tid, pid: i32, status: u64, options: u32)
    ensures did { DidAlone node.old node.new (begins_wait t.0 pid status options) }
    ensures room { KeepsRoom node.old node.new }
{
    if has_bit(NO_HANG, options as u64) {
        answers(node, t, 0);
    } else {
        node.set_does(t, Does::InWait { pid, status });
    }
}

/// Why a wait for a child is refused: by its options, or since it asks for what was used.
fn wait4_refusal(options: u32, rusage: u64) -> Option<i64>
    ensures { result ≡ wait4_refusal options rusage }
{
    if minus(options as u64, KNOWN_OPTIONS) != 0 {
        Some(EINVAL)
    } else if rusage != 0 {
        Some(ENOSYS)
    } else {
        None
    }
}

/// A wait that isn't refused.
fn waits<T: PageTable>(
    node: &mut KernelTables,
    space: &Space<T>,
    mem: &mut FrameMem,
    t: Tid,
    pid: i32,
    status: u64,
    options: u32,
)
    requires frames { FramesIn (T.rows space.now.table) mem.old }
    requires apart { FramesApart (T.rows space.now.table) }
    ensures did { Did (T.rows space.now.table) node.old mem.old node.new mem.new (waits t.0 pid status options) }
    ensures room { KeepsRoom node.old node.new }
{
    let p = node.process_of_thread(t);
    if node.may_end_wait(p, pid) {
        wait_over(node, space, mem, t, pid, status);
    } else {
        begins_wait(node, t, pid, status, options);
    }
}

/// wait4: the end of a selected child is told, or the thread waits for it. What was used isn't told.
pub fn wait4<T: PageTable>(
    node: &mut KernelTables,
    space: &Space<T>,
    mem: &mut FrameMem,
    t: Tid,
    pid: i32,
    status: u64,
    options: u32,
    rusage: u64,
)
    requires frames { FramesIn (T.rows space.now.table) mem.old }
    requires apart { FramesApart (T.rows space.now.table) }
    ensures did { Did (T.rows space.now.table) node.old mem.old node.new mem.new (wait4 t.0 pid status options rusage) }
    ensures room { KeepsRoom node.old node.new }
{
    match wait4_refusal(options, rusage) {
        Some(answer) => answers(node, t, answer),
        None => waits(node, space, mem, t, pid, status, options),
    }
}

/// The wait that the thread is in is over, where it is in one.
pub fn waited<T: PageTable>(node: &mut KernelTables, space: &Space<T>, mem: &mut FrameMem, t: Tid)
    requires frames { FramesIn (T.rows space.now.table) mem.old }
    requires apart { FramesApart (T.rows space.now.table) }
    ensures did { Did (T.rows space.now.table) node.old mem.old node.new mem.new (waited t.0) }
    ensures room { KeepsRoom node.old node.new }
{
    if let Does::InWait { pid, status } = node.does(t) {
        wait_over(node, space, mem, t, pid, status);
    }
}

// futex: sleeping at an address, and waking there.
ghost use Rattle.file_model.specs.Files.{Files};
ghost use Rattle.kernel_model.specs.LocalCalls.{futex, futex_operation, futex_wait, futex_wake, waiters, wake_count};
ghost use Rattle.kernel_model.specs.Nodes.{most_threads, thread_of};
ghost use Rattle.lwk_calls.specs.Words.{wait_refusal, word_at};
ghost use Rattle.kernel_tables.specs.Room.{KeepsRoom};
ghost use Rattle.kernel_tables.specs.Shown.{node_of};
ghost use Rattle.lwk_space.specs.Lacks.{memory};
ghost use Rattle.lwk_space.specs.Rows.{FramesIn};
ghost use Rattle.lwk_views.specs.Views.{Did, DidAlone};
ghost use Rattle.mck_word.specs.Words.{number_of};
ghost use Rattle.std.specs.List.{list_any};
ghost use Rattle.std.specs.Prelude.{◌≡◌, ◌≤◌, ◌<◌, ◌==◌, false, length};

use crate::answering::{answers, minus};
use byteorder::{ByteOrder, LittleEndian};
use call_phases::arguments::int;
use frame_mem::FrameMem;
use kernel_tables::KernelTables;
use lwk_space::Space;
use lwk_views::read_into;
use mck_word::Tid;
use page_map::PageTable;
use system_calls::errors::{EAGAIN, EFAULT, EINVAL, ENOSYS};

const WAIT: u64 = 0;

const WAKE: u64 = 1;

const PRIVATE: u64 = 128;

fn word_in(from: &[u8]) -> u32
    requires { length from.now ≡ 4 }
    ensures { result ≡ number_of from.now }
{
    LittleEndian::read_u32(from)
}

/// The 32-bit number at the address, where the process may read it.
fn word_at<T: PageTable>(space: &Space<T>, mem: &FrameMem, address: u64) -> Option<u32>
    requires { FramesIn (T.rows space.now.table) mem.now }
    ensures { result ≡ word_at (memory (T.rows space.now.table) mem.now) address }
{
    let mut bytes = [0; 4];
    if read_into(space, mem, address, &mut bytes) {
        Some(word_in(&bytes))
    } else {
        None
    }
}

/// Why a wait at the address is refused: the address is no multiple of four, a timeout is given, the number there
/// can't be read, or it is another than `val`.
fn wait_refusal<T: PageTable>(
    space: &Space<T>,
    mem: &FrameMem,
    address: u64,
    val: u64,
    timeout: u64,
) -> Option<i64>
    requires { FramesIn (T.rows space.now.table) mem.now }
    ensures { result ≡ wait_refusal (memory (T.rows space.now.table) mem.now) address val timeout }
{
    if address % 4 != 0 {
        return Some(EINVAL);
    }
    if timeout != 0 {
        return Some(ENOSYS);
    }
    match word_at(space, mem, address) {
        Some(word) => {
            if word as u64 == val % (1 << 32) {
                None
            } else {
                Some(EAGAIN)
            }
        }
        None => Some(EFAULT),
    }
}

/// The thread sleeps at the address, where the number there is `val`.
fn futex_wait<T: PageTable>(
    node: &mut KernelTables,
    space: &Space<T>,
    mem: &FrameMem,
    t: Tid,
    address: u64,
    val: u64,
    timeout: u64,
)
    requires frames { FramesIn (T.rows space.now.table) mem.now }
    requires room { 1 ≤ node.old.sleepers.spare }
    requires awake { (files : Files) → list_any (λ s. s.thread == t.0) (node_of node.old files).sleepers ≡ false }
    requires few { (files : Files) → length (waiters (node_of node.old files) (thread_of (node_of node.old files) t.0).process address) < most_threads }
    ensures did { Did (T.rows space.now.table) node.old mem.now node.new mem.now (futex_wait t.0 address val timeout) }
    ensures processes { node.old.processes.spare ≤ node.new.processes.spare }
    ensures threads { node.old.threads.spare ≤ node.new.threads.spare }
{
    match wait_refusal(space, mem, address, val, timeout) {
        Some(answer) => answers(node, t, answer),
        None => node.falls_asleep(t, address),
    }
}

/// How many a wake call asks for: none where the number is negative.
fn wake_count(val: i32) -> u32
    ensures { result ≡ wake_count val }
{
    if val < 0 { 0 } else { val as u32 }
}

/// The first of those that sleep at the address wake, and the answer is their number.
fn futex_wake(node: &mut KernelTables, t: Tid, address: u64, val: i32)
    ensures did { DidAlone node.old node.new (futex_wake t.0 address val) }
    ensures room { KeepsRoom node.old node.new }
{
    if address % 4 != 0 {
        answers(node, t, EINVAL);
    } else {
        let p = node.process_of_thread(t);
        let woken = node.wake(p, address, wake_count(val));
        node.answered(t, woken as i64);
    }
}

/// The operation of a futex call, without its bit for a private address.
fn futex_operation(op: u64) -> u64
    ensures { result ≡ futex_operation op }
{
    minus(op % (1 << 32), PRIVATE)
}

/// futex: the thread sleeps at the address or wakes others there. It sleeps nowhere itself, and fewer than sixteen
/// sleep there.
pub fn futex<T: PageTable>(
    node: &mut KernelTables,
    space: &Space<T>,
    mem: &FrameMem,
    t: Tid,
    address: u64,
    op: u64,
    val: u64,
    timeout: u64,
)
    requires frames { FramesIn (T.rows space.now.table) mem.now }
    requires room { 1 ≤ node.old.sleepers.spare }
    requires awake { (files : Files) → list_any (λ s. s.thread == t.0) (node_of node.old files).sleepers ≡ false }
    requires few { (files : Files) → length (waiters (node_of node.old files) (thread_of (node_of node.old files) t.0).process address) < most_threads }
    ensures did { Did (T.rows space.now.table) node.old mem.now node.new mem.now (futex t.0 address op val timeout) }
    ensures processes { node.old.processes.spare ≤ node.new.processes.spare }
    ensures threads { node.old.threads.spare ≤ node.new.threads.spare }
{
    let operation = futex_operation(op);
    if operation == WAIT {
        futex_wait(node, space, mem, t, address, val, timeout);
    } else if operation == WAKE {
        futex_wake(node, t, address, int(val));
    } else {
        answers(node, t, ENOSYS);
    }
}

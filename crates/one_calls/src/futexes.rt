// futex: sleeping at an address, and waking there.
ghost use Rattle.file_model.specs.Files.{Files};
ghost use Rattle.kernel_model.specs.LocalCalls.{futex, futex_operation, futex_wait, futex_wake, wake_count};
ghost use Rattle.one_calls.specs.Resting.{MayRest};
ghost use Rattle.one_calls.specs.Views.{Did, DidAlone};
ghost use Rattle.one_calls.specs.Words.{wait_refusal};
ghost use Rattle.std.specs.Prelude.{◌≡◌};

use crate::bits::minus;
use crate::numbers::word_at;
use call_phases::arguments::int;
use kernel_tables::KernelTables;
use mck_word::Tid;
use one_memory::PageRows;
use system_calls::errors::{EAGAIN, EFAULT, EINVAL, ENOSYS};

const WAIT: u64 = 0;

const WAKE: u64 = 1;

const PRIVATE: u64 = 128;

/// Why a wait at the address is refused: the address is no multiple of four, a timeout is given, the number there
/// can't be read, or it is another than `val`.
fn wait_refusal(memory: &PageRows, address: u64, val: u64, timeout: u64) -> Option<i64>
    ensures { result ≡ wait_refusal memory.now.map address val timeout }
{
    if address % 4 != 0 {
        return Some(EINVAL);
    }
    if timeout != 0 {
        return Some(ENOSYS);
    }
    match word_at(memory, address) {
        None => Some(EFAULT),
        Some(word) if word as u64 == val % (1 << 32) => None,
        Some(_) => Some(EAGAIN),
    }
}

/// The thread sleeps at the address, where the number there is `val`.
fn futex_wait(
    node: &mut KernelTables,
    memory: &PageRows,
    t: Tid,
    address: u64,
    val: u64,
    timeout: u64,
)
    requires { MayRest node.old t.0 }
    ensures { Did node.old memory.now.map node.new memory.now.map (futex_wait t.0 address val timeout) }
{
    match wait_refusal(memory, address, val, timeout) {
        Some(answer) => node.answered(t, answer),
        None => node.falls_asleep(t, address),
    }
}

/// How many a wake call asks for: none where the number is negative.
fn wake_count(val: i32) -> u32
    ensures { result ≡ wake_count val }
{
    if val < 0 { 0 } else { val as u32 }
}

/// The first of those that sleep at the address wake, and the answer is their number.
fn futex_wake(node: &mut KernelTables, t: Tid, address: u64, val: i32)
    ensures { DidAlone node.old node.new (futex_wake t.0 address val) }
{
    if address % 4 != 0 {
        node.answered(t, EINVAL);
    } else {
        let p = node.process_of_thread(t);
        let woken = node.wake(p, address, wake_count(val));
        node.answered(t, woken as i64);
    }
}

/// The operation of a futex call, without its bit for a private address.
fn futex_operation(op: u64) -> u64
    ensures { result ≡ futex_operation op }
{
    minus(op % (1 << 32), PRIVATE)
}

/// futex: the thread sleeps at the address or wakes others there. It sleeps nowhere itself, and fewer than sixteen
/// sleep there.
pub fn futex(
    node: &mut KernelTables,
    memory: &PageRows,
    t: Tid,
    address: u64,
    op: u64,
    val: u64,
    timeout: u64,
)
    requires { MayRest node.old t.0 }
    ensures { Did node.old memory.now.map node.new memory.now.map (futex t.0 address op val timeout) }
{
    match futex_operation(op) {
        WAIT => futex_wait(node, memory, t, address, val, timeout),
        WAKE => futex_wake(node, t, address, int(val)),
        _ => node.answered(t, ENOSYS),
    }
}

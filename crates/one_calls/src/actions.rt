// rt_sigaction: what a process does at a signal.
ghost use Rattle.isa_model.specs.Memory.{write_bytes};
ghost use Rattle.kernel_model.specs.SignalCalls.{action_bytes, is_signal, nat_of, sets_action, sigaction};
ghost use Rattle.one_calls.specs.SignalWords.{asked_action, given_action, is_wrong_action, readable, writable};
ghost use Rattle.one_calls.specs.Views.{Did, Stepped};
ghost use Rattle.std.specs.Prelude.{◌≡◌, ◌≤◌, ◌==◌, cond, true};

use crate::pointers::{lacks_access, store_at};
use kernel_model::Action;
use kernel_tables::KernelTables;
use lwk_signals::{ACTION_SIZE, action_in, put_action};
use mck_word::{Pid, Tid};
use one_memory::PageRows;
use system_calls::errors::{EFAULT, EINVAL};

/// Whether the number is a signal's; one whose action is given isn't 9 or 19.
fn is_signal(signal: i32, act: u64) -> bool
    ensures { result ≡ is_signal signal act }
{
    1 <= signal && signal <= 64 && !(act != 0 && (signal == 9 || signal == 19))
}

/// Whether the size of a set or the signal is wrong.
fn is_wrong(signal: i32, act: u64, size: u64) -> bool
    ensures { result ≡ is_wrong_action signal act size }
{
    size != 8 || !is_signal(signal, act)
}

/// The number of a signal; a negative one is 0.
fn number_of_signal(signal: i32) -> u32
    ensures { result ≡ nat_of signal }
{
    if signal < 0 { 0 } else { signal as u32 }
}

/// The action that is given, where one is.
fn asked_action(memory: &PageRows, act: u64) -> Option<Action>
    requires { readable memory.now.map act 24 ≡ true }
    ensures { result ≡ asked_action memory.now.map act }
{
    if act == 0 {
        return None;
    }
    let mut bytes = [0; ACTION_SIZE];
    memory.read_into(act, &mut bytes);
    Some(action_in(&bytes))
}

/// Stores an action, where it is asked for.
fn store_action(memory: &mut PageRows, old: u64, a: &Action)
    requires { writable memory.old.map old 24 ≡ true }
    ensures { memory.new.map ≡ cond (old == 0) memory.old.map (write_bytes memory.old.map old (action_bytes a.now)) }
{
    let mut bytes = [0; ACTION_SIZE];
    put_action(a, &mut bytes);
    store_at(memory, old, &bytes);
}

/// The process does something else at the signal, where an action is given; what it ignores from now on is dropped.
fn give_action(node: &mut KernelTables, p: Pid, signal: u32, action: Option<Action>)
    requires least { 1 ≤ signal }
    requires most { signal ≤ 64 }
    ensures { Stepped node.old node.new (given_action p.0 signal action) }
{
    if let Some(a) = action {
        node.with_action(p, signal, a);
        node.drop_ignored(p, signal);
    }
}

/// An rt_sigaction that isn't refused.
fn sets_action(
    node: &mut KernelTables,
    memory: &mut PageRows,
    t: Tid,
    signal: u32,
    act: u64,
    old: u64,
)
    requires least { 1 ≤ signal }
    requires most { signal ≤ 64 }
    requires read { readable memory.old.map act 24 ≡ true }
    requires written { writable memory.old.map old 24 ≡ true }
    ensures { Did node.old memory.old.map node.new memory.new.map (sets_action t.0 signal act old) }
{
    let p = node.process_of_thread(t);
    let before = node.action(p, signal);
    let new = asked_action(memory, act);
    store_action(memory, old, &before);
    give_action(node, p, signal, new);
    node.answered(t, 0);
}

/// rt_sigaction: the action of the signal is told, and another one is given in its place, each where it is asked for.
pub fn sigaction(
    node: &mut KernelTables,
    memory: &mut PageRows,
    t: Tid,
    signal: i32,
    act: u64,
    old: u64,
    size: u64,
)
    ensures { Did node.old memory.old.map node.new memory.new.map (sigaction t.0 signal act old size) }
{
    if is_wrong(signal, act, size) {
        node.answered(t, EINVAL);
    } else if lacks_access(memory, act, old, 24) {
        node.answered(t, EFAULT);
    } else {
        sets_action(node, memory, t, number_of_signal(signal), act, old);
    }
}

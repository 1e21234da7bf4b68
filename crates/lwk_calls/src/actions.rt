// rt_sigaction: what a process does at a signal.
ghost use Rattle.kernel_model.specs.SignalCalls.{action_bytes, is_signal, nat_of, sets_action, sigaction};
ghost use Rattle.lwk_calls.specs.SignalWords.{action_refusal, asked_action, given_action, is_wrong_action, put_at, readable, writable};
ghost use Rattle.kernel_tables.specs.Room.{KeepsRoom};
ghost use Rattle.lwk_space.specs.Lacks.{OthersStay, memory};
ghost use Rattle.lwk_space.specs.Rows.{FramesApart, FramesIn};
ghost use Rattle.lwk_views.specs.Views.{Did, Stepped};
ghost use Rattle.std.specs.Prelude.{◌≡◌, ◌≤◌, List, length, true, ℕ};

use crate::answering::answers;
use crate::pointers::{lacks_access, store_at};
use frame_mem::FrameMem;
use kernel_model::Action;
use kernel_tables::KernelTables;
use lwk_signals::{ACTION_SIZE, action_in, put_action};
use lwk_space::Space;
use lwk_views::read_into;
use mck_word::{Pid, Tid};
use page_map::PageTable;
use system_calls::errors::{EFAULT, EINVAL};

/// Whether the number is a signal's; one whose action is given isn't 9 or 19.
fn is_signal(signal: i32, act: u64) -> bool
    ensures { result ≡ is_signal signal act }
{
    1 <= signal && signal <= 64 && !(act != 0 && (signal == 9 || signal == 19))
}

/// Whether the size of a set or the signal is wrong.
fn is_wrong(signal: i32, act: u64, size: u64) -> bool
    ensures { result ≡ is_wrong_action signal act size }
{
    size != 8 || !is_signal(signal, act)
}

/// The number of a signal; a negative one is 0.
fn number_of_signal(signal: i32) -> u32
    ensures { result ≡ nat_of signal }
{
    if signal < 0 { 0 } else { signal as u32 }
}

/// Why rt_sigaction is refused: by the size of a set, the signal, or a pointer.
fn action_refusal<T: PageTable>(
    space: &Space<T>,
    signal: i32,
    act: u64,
    old: u64,
    size: u64,
) -> Option<i64>
    ensures { (pages : List (List ℕ)) → result ≡ action_refusal (memory (T.rows space.now.table) pages) signal act old size }
{
    if is_wrong(signal, act, size) {
        Some(EINVAL)
    } else if lacks_access(space, act, old, 24) {
        Some(EFAULT)
    } else {
        None
    }
}

/// The action that is given, where one is.
fn asked_action<T: PageTable>(space: &Space<T>, mem: &FrameMem, act: u64) -> Option<Action>
    requires frames { FramesIn (T.rows space.now.table) mem.now }
    requires may { readable (memory (T.rows space.now.table) mem.now) act 24 ≡ true }
    ensures { result ≡ asked_action (memory (T.rows space.now.table) mem.now) act }
{
    if act == 0 {
        return None;
    }
    let mut bytes = [0; ACTION_SIZE];
    read_into(space, mem, act, &mut bytes);
    Some(action_in(&bytes))
}

/// Stores an action, where it is asked for.
fn store_action<T: PageTable>(space: &Space<T>, mem: &mut FrameMem, old: u64, a: &Action)
    requires frames { FramesIn (T.rows space.now.table) mem.old }
    requires apart { FramesApart (T.rows space.now.table) }
    ensures memory { memory (T.rows space.now.table) mem.new ≡ put_at old (action_bytes a.now) (memory (T.rows space.now.table) mem.old) }
    ensures others { OthersStay (T.rows space.now.table) mem.old mem.new }
    ensures count { length mem.new ≡ length mem.old }
{
    let mut bytes = [0; ACTION_SIZE];
    put_action(a, &mut bytes);
    store_at(space, mem, old, &bytes);
}

/// The process does something else at the signal, where an action is given; what it ignores from now on is dropped.
fn give_action(node: &mut KernelTables, p: Pid, signal: u32, action: Option<Action>)
    requires least { 1 ≤ signal }
    requires most { signal ≤ 64 }
    ensures is { Stepped node.old node.new (given_action p.0 signal action) }
    ensures room { KeepsRoom node.old node.new }
{
    if let Some(a) = action {
        node.with_action(p, signal, a);
        node.drop_ignored(p, signal);
    }
}

/// An rt_sigaction that isn't refused.
fn sets_action<T: PageTable>(
    node: &mut KernelTables,
    space: &Space<T>,
    mem: &mut FrameMem,
    t: Tid,
    signal: u32,
    act: u64,
    old: u64,
)
    requires frames { FramesIn (T.rows space.now.table) mem.old }
    requires apart { FramesApart (T.rows space.now.table) }
    requires least { 1 ≤ signal }
    requires most { signal ≤ 64 }
    requires read { readable (memory (T.rows space.now.table) mem.old) act 24 ≡ true }
    requires written { writable (memory (T.rows space.now.table) mem.old) old 24 ≡ true }
    ensures did { Did (T.rows space.now.table) node.old mem.old node.new mem.new (sets_action t.0 signal act old) }
    ensures room { KeepsRoom node.old node.new }
{
    let p = node.process_of_thread(t);
    let before = node.action(p, signal);
    let new = asked_action(space, mem, act);
    store_action(space, mem, old, &before);
    give_action(node, p, signal, new);
    node.answered(t, 0);
}

/// rt_sigaction: the action of the signal is told, and another one is given in its place, each where it is asked for.
pub fn sigaction<T: PageTable>(
    node: &mut KernelTables,
    space: &Space<T>,
    mem: &mut FrameMem,
    t: Tid,
    signal: i32,
    act: u64,
    old: u64,
    size: u64,
)
    requires frames { FramesIn (T.rows space.now.table) mem.old }
    requires apart { FramesApart (T.rows space.now.table) }
    ensures did { Did (T.rows space.now.table) node.old mem.old node.new mem.new (sigaction t.0 signal act old size) }
    ensures room { KeepsRoom node.old node.new }
{
    match action_refusal(space, signal, act, old, size) {
        Some(answer) => answers(node, t, answer),
        None => sets_action(node, space, mem, t, number_of_signal(signal), act, old),
    }
}

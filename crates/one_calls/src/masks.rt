// rt_sigprocmask and rt_sigpending: the mask of a thread, and what is pending behind it.
ghost use Rattle.isa_model.specs.Memory.{may_access, write_bytes};
ghost use Rattle.kernel_model.specs.SignalCalls.{is_how, sets_mask, sigpending, sigprocmask};
ghost use Rattle.mck_word.specs.Words.{little_endian};
ghost use Rattle.mck_word.specs.declared.Access.TheVariants.{Write};
ghost use Rattle.one_calls.specs.SignalWords.{asked_set, given_mask, readable, writable};
ghost use Rattle.one_calls.specs.Views.{Did, Stepped};
ghost use Rattle.std.specs.Prelude.{◌≡◌, ◌≤◌, ◌==◌, cond, true};

use crate::pointers::{lacks_access, store_at};
use kernel_tables::KernelTables;
use lwk_signals::{SET_SIZE, put_set, set_in};
use mck_flags::SigSet;
use mck_word::Tid;
use one_memory::PageRows;
use system_calls::errors::{EFAULT, EINVAL};

/// Whether the number says how a mask is changed.
fn is_how(how: i32) -> bool
    ensures { result ≡ is_how how }
{
    0 <= how && how <= 2
}

/// The set that is given, where one is.
fn asked_set(memory: &PageRows, address: u64) -> Option<SigSet>
    requires { readable memory.now.map address 8 ≡ true }
    ensures { result ≡ asked_set memory.now.map address }
{
    if address == 0 {
        return None;
    }
    let mut bytes = [0; SET_SIZE];
    memory.read_into(address, &mut bytes);
    Some(set_in(&bytes))
}

/// Stores a set, where it is asked for.
fn store_set(memory: &mut PageRows, old: u64, set: SigSet)
    requires { writable memory.old.map old 8 ≡ true }
    ensures { memory.new.map ≡ cond (old == 0) memory.old.map (write_bytes memory.old.map old (little_endian 8 set.0)) }
{
    let mut bytes = [0; SET_SIZE];
    put_set(set, &mut bytes);
    store_at(memory, old, &bytes);
}

/// The thread has another mask, where a set is given.
fn give_mask(node: &mut KernelTables, t: Tid, how: i32, set: Option<SigSet>)
    ensures { Stepped node.old node.new (given_mask t.0 how set) }
{
    if let Some(set) = set {
        node.changes_mask(t, how, set);
    }
}

/// An rt_sigprocmask that isn't refused.
fn sets_mask(
    node: &mut KernelTables,
    memory: &mut PageRows,
    t: Tid,
    how: i32,
    address: u64,
    old: u64,
)
    requires read { readable memory.old.map address 8 ≡ true }
    requires written { writable memory.old.map old 8 ≡ true }
    ensures { Did node.old memory.old.map node.new memory.new.map (sets_mask t.0 how address old) }
{
    let before = node.mask(t);
    let set = asked_set(memory, address);
    store_set(memory, old, before);
    give_mask(node, t, how, set);
    node.answered(t, 0);
}

/// rt_sigprocmask: the mask is told, and changed by a set, each where it is asked for.
pub fn sigprocmask(
    node: &mut KernelTables,
    memory: &mut PageRows,
    t: Tid,
    how: i32,
    address: u64,
    old: u64,
    size: u64,
)
    ensures { Did node.old memory.old.map node.new memory.new.map (sigprocmask t.0 how address old size) }
{
    if size != 8 || address != 0 && !is_how(how) {
        node.answered(t, EINVAL);
    } else if lacks_access(memory, address, old, 8) {
        node.answered(t, EFAULT);
    } else {
        sets_mask(node, memory, t, how, address, old);
    }
}

/// Stores the lowest bytes of a set where the process may write them, and tells whether it does.
fn store_part(memory: &mut PageRows, address: u64, size: u64, set: SigSet) -> bool
    requires { size ≤ 8 }
    ensures may { result ≡ may_access memory.old.map Write address size }
    ensures stored { memory.new.map ≡ cond result (write_bytes memory.old.map address (little_endian size set.0)) memory.old.map }
{
    let mut bytes = [0; SET_SIZE];
    put_set(set, &mut bytes);
    let (part, _) = bytes.split_at(size as usize);
    memory.try_store(address, part)
}

/// rt_sigpending: the signals that are pending and masked are told, as many bytes of the set as are asked for.
pub fn sigpending(node: &mut KernelTables, memory: &mut PageRows, t: Tid, address: u64, size: u64)
    ensures { Did node.old memory.old.map node.new memory.new.map (sigpending t.0 address size) }
{
    if size > 8 {
        node.answered(t, EINVAL);
        return;
    }
    let set = node.pending_and_masked(t);
    if store_part(memory, address, size, set) {
        node.answered(t, 0);
    } else {
        node.answered(t, EFAULT);
    }
}

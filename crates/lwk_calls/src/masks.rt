// rt_sigprocmask and rt_sigpending: the mask of a thread, and what is pending behind it.
ghost use Rattle.isa_model.specs.Memory.{may_access};
ghost use Rattle.kernel_model.specs.SignalCalls.{is_how, sets_mask, sigpending, sigprocmask};
ghost use Rattle.lwk_calls.specs.SignalWords.{asked_set, given_mask, is_wrong_mask, mask_refusal, put_at, readable, writable};
ghost use Rattle.kernel_tables.specs.Room.{KeepsRoom};
ghost use Rattle.lwk_space.specs.Lacks.{OthersStay, memory};
ghost use Rattle.lwk_space.specs.Rows.{FramesApart, FramesIn};
ghost use Rattle.lwk_views.specs.Views.{Did, Stepped, tried};
ghost use Rattle.mck_word.specs.Words.{little_endian};
ghost use Rattle.mck_word.specs.declared.Access.TheVariants.{Write};
ghost use Rattle.std.specs.Prelude.{◌≡◌, ◌≤◌, List, length, true, ℕ};

use crate::answering::answers;
use crate::pointers::{lacks_access, store_at};
use frame_mem::FrameMem;
use kernel_tables::KernelTables;
use lwk_signals::{SET_SIZE, put_set, set_in};
use lwk_space::Space;
use lwk_views::{read_into, try_store};
use mck_flags::SigSet;
use mck_word::Tid;
use page_map::PageTable;
use system_calls::errors::{EFAULT, EINVAL};

/// Whether the number says how a mask is changed.
fn is_how(how: i32) -> bool
    ensures { result ≡ is_how how }
{
    0 <= how && how <= 2
}

/// Whether the size of a set, or how a mask is to be changed by a set that is given, is wrong.
fn is_wrong(how: i32, address: u64, size: u64) -> bool
    ensures { result ≡ is_wrong_mask how address size }
{
    size != 8 || address != 0 && !is_how(how)
}

/// Why rt_sigprocmask is refused: by the size of a set, how it is to change the mask, or a pointer.
fn mask_refusal<T: PageTable>(
    space: &Space<T>,
    how: i32,
    address: u64,
    old: u64,
    size: u64,
) -> Option<i64>
    ensures { (pages : List (List ℕ)) → result ≡ mask_refusal (memory (T.rows space.now.table) pages) how address old size }
{
    if is_wrong(how, address, size) {
        Some(EINVAL)
    } else if lacks_access(space, address, old, 8) {
        Some(EFAULT)
    } else {
        None
    }
}

/// The set that is given, where one is.
fn asked_set<T: PageTable>(space: &Space<T>, mem: &FrameMem, address: u64) -> Option<SigSet>
    requires frames { FramesIn (T.rows space.now.table) mem.now }
    requires may { readable (memory (T.rows space.now.table) mem.now) address 8 ≡ true }
    ensures { result ≡ asked_set (memory (T.rows space.now.table) mem.now) address }
{
    if address == 0 {
        return None;
    }
    let mut bytes = [0; SET_SIZE];
    read_into(space, mem, address, &mut bytes);
    Some(set_in(&bytes))
}

/// Stores a set, where it is asked for.
fn store_set<T: PageTable>(space: &Space<T>, mem: &mut FrameMem, old: u64, set: SigSet)
    requires frames { FramesIn (T.rows space.now.table) mem.old }
    requires apart { FramesApart (T.rows space.now.table) }
    ensures memory { memory (T.rows space.now.table) mem.new ≡ put_at old (little_endian 8 set.0) (memory (T.rows space.now.table) mem.old) }
    ensures others { OthersStay (T.rows space.now.table) mem.old mem.new }
    ensures count { length mem.new ≡ length mem.old }
{
    let mut bytes = [0; SET_SIZE];
    put_set(set, &mut bytes);
    store_at(space, mem, old, &bytes);
}

/// The thread has another mask, where a set is given.
fn give_mask(node: &mut KernelTables, t: Tid, how: i32, set: Option<SigSet>)
    ensures is { Stepped node.old node.new (given_mask t.0 how set) }
    ensures room { KeepsRoom node.old node.new }
{
    if let Some(set) = set {
        node.changes_mask(t, how, set);
    }
}

/// An rt_sigprocmask that isn't refused.
fn sets_mask<T: PageTable>(
    node: &mut KernelTables,
    space: &Space<T>,
    mem: &mut FrameMem,
    t: Tid,
    how: i32,
    address: u64,
    old: u64,
)
    requires frames { FramesIn (T.rows space.now.table) mem.old }
    requires apart { FramesApart (T.rows space.now.table) }
    requires read { readable (memory (T.rows space.now.table) mem.old) address 8 ≡ true }
    requires written { writable (memory (T.rows space.now.table) mem.old) old 8 ≡ true }
    ensures did { Did (T.rows space.now.table) node.old mem.old node.new mem.new (sets_mask t.0 how address old) }
    ensures room { KeepsRoom node.old node.new }
{
    let before = node.mask(t);
    let set = asked_set(space, mem, address);
    store_set(space, mem, old, before);
    give_mask(node, t, how, set);
    node.answered(t, 0);
}

/// rt_sigprocmask: the mask is told, and changed by a set, each where it is asked for.
pub fn sigprocmask<T: PageTable>(
    node: &mut KernelTables,
    space: &Space<T>,
    mem: &mut FrameMem,
    t: Tid,
    how: i32,
    address: u64,
    old: u64,
    size: u64,
)
    requires frames { FramesIn (T.rows space.now.table) mem.old }
    requires apart { FramesApart (T.rows space.now.table) }
    ensures did { Did (T.rows space.now.table) node.old mem.old node.new mem.new (sigprocmask t.0 how address old size) }
    ensures room { KeepsRoom node.old node.new }
{
    match mask_refusal(space, how, address, old, size) {
        Some(answer) => answers(node, t, answer),
        None => sets_mask(node, space, mem, t, how, address, old),
    }
}

/// Stores the lowest bytes of a set where the process may write them, and tells whether it does.
fn store_part<T: PageTable>(
    space: &Space<T>,
    mem: &mut FrameMem,
    address: u64,
    size: u64,
    set: SigSet,
) -> bool
    requires frames { FramesIn (T.rows space.now.table) mem.old }
    requires apart { FramesApart (T.rows space.now.table) }
    requires part { size ≤ 8 }
    ensures may { result ≡ may_access (memory (T.rows space.now.table) mem.old) Write address size }
    ensures memory { memory (T.rows space.now.table) mem.new ≡ tried address (little_endian size set.0) (memory (T.rows space.now.table) mem.old) }
    ensures others { OthersStay (T.rows space.now.table) mem.old mem.new }
    ensures count { length mem.new ≡ length mem.old }
{
    let mut bytes = [0; SET_SIZE];
    put_set(set, &mut bytes);
    let (part, _) = bytes.split_at(size as usize);
    try_store(space, mem, address, part)
}

/// rt_sigpending: the signals that are pending and masked are told, as many bytes of the set as are asked for.
pub fn sigpending<T: PageTable>(
    node: &mut KernelTables,
    space: &Space<T>,
    mem: &mut FrameMem,
    t: Tid,
    address: u64,
    size: u64,
)
    requires frames { FramesIn (T.rows space.now.table) mem.old }
    requires apart { FramesApart (T.rows space.now.table) }
    ensures did { Did (T.rows space.now.table) node.old mem.old node.new mem.new (sigpending t.0 address size) }
    ensures room { KeepsRoom node.old node.new }
{
    if size > 8 {
        answers(node, t, EINVAL);
        return;
    }
    let set = node.pending_and_masked(t);
    if store_part(space, mem, address, size, set) {
        node.answered(t, 0);
    } else {
        node.answered(t, EFAULT);
    }
}

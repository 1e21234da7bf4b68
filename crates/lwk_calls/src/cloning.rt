// clone: a thread beside the caller.
ghost use Rattle.file_model.specs.Files.{Files};
ghost use Rattle.kernel_model.specs.CloneCalls.{are_clone_flags, clone, clones};
ghost use Rattle.kernel_model.specs.Nodes.{has_thread, most_threads, thread_of, threads_of};
ghost use Rattle.lwk_calls.specs.Words.{clone_refusal};
ghost use Rattle.kernel_tables.specs.Shown.{node_of};
ghost use Rattle.lwk_space.specs.Rows.{FramesApart, FramesIn};
ghost use Rattle.lwk_views.specs.Views.{Did};
ghost use Rattle.std.specs.Prelude.{◌≡◌, ◌≤◌, ◌<◌, ◌+◌, ◌-◌, ◌^◌, IsTrue, length, slice_index};

use crate::answering::{answers, has_bit, minus};
use crate::numbers::tells_number;
use frame_mem::FrameMem;
use kernel_tables::KernelTables;
use lwk_space::Space;
use mck_word::Tid;
use page_map::PageTable;
use system_calls::errors::{EAGAIN, EINVAL};

const MOST_THREADS: u32 = 16;

// The flags that have to stand, SYSVSEM, SETTLS, PARENT_SETTID, CHILD_CLEARTID, one that is ignored, and CHILD_SETTID.
const KNOWN_FLAGS: u64 = 0x17d_0f00;

// Bits of the flags.
const PARENT_SETTID: u32 = 20;

const CHILD_SETTID: u32 = 24;

/// Whether the flags are those of a clone that makes a thread: VM, FS, FILES, SIGHAND and THREAD stand, and nothing
/// unknown.
fn are_clone_flags(flags: u64) -> bool
    ensures { result ≡ are_clone_flags flags }
{
    has_bit(8, flags)
        && has_bit(9, flags)
        && has_bit(10, flags)
        && has_bit(11, flags)
        && has_bit(16, flags)
        && minus(flags, KNOWN_FLAGS) == 0
}

/// Why a clone is refused in a process of so many threads.
fn clone_refusal(flags: u64, threads: u32) -> Option<i64>
    ensures { result ≡ clone_refusal flags threads }
{
    if !are_clone_flags(flags) {
        Some(EINVAL)
    } else if MOST_THREADS <= threads {
        Some(EAGAIN)
    } else {
        None
    }
}

/// A clone that isn't refused, by the arguments flags, stack, parent tid, tls and child tid.
fn clones<T: PageTable>(
    node: &mut KernelTables,
    space: &Space<T>,
    mem: &mut FrameMem,
    t: Tid,
    args: &[u64; 6],
)
    requires frames { FramesIn (T.rows space.now.table) mem.old }
    requires apart { FramesApart (T.rows space.now.table) }
    requires room { 1 ≤ node.old.threads.spare }
    requires lives { (files : Files) → IsTrue (has_thread (node_of node.old files) t.0) }
    requires few { (files : Files) → length (threads_of (node_of node.old files) (thread_of (node_of node.old files) t.0).process) < most_threads }
    requires below { (files : Files) → (node_of node.old files).next_number < 2 ^ 32 - 1 }
    ensures did { Did (T.rows space.now.table) node.old mem.old node.new mem.new (clones t.0 (slice_index args.now 0) (slice_index args.now 1) (slice_index args.now 2) (slice_index args.now 3) (slice_index args.now 4)) }
    ensures processes { node.old.processes.spare ≤ node.new.processes.spare }
    ensures threads { node.old.threads.spare ≤ node.new.threads.spare + 1 }
    ensures sleepers { node.old.sleepers.spare ≤ node.new.sleepers.spare }
{
    let number = node.clone_thread(t, args);
    let parent_asks = has_bit(PARENT_SETTID, args[0]);
    tells_number(space, mem, parent_asks, args[2], number.0);
    let child_asks = has_bit(CHILD_SETTID, args[0]);
    tells_number(space, mem, child_asks, args[4], number.0);
    node.answered(t, number.0 as i64);
}

/// clone, where the flags aren't those of a fork: a thread begins beside the caller, by the arguments flags, stack,
/// parent tid, tls and child tid.
pub fn clone<T: PageTable>(
    node: &mut KernelTables,
    space: &Space<T>,
    mem: &mut FrameMem,
    t: Tid,
    args: &[u64; 6],
)
    requires frames { FramesIn (T.rows space.now.table) mem.old }
    requires apart { FramesApart (T.rows space.now.table) }
    requires room { 1 ≤ node.old.threads.spare }
    requires lives { (files : Files) → IsTrue (has_thread (node_of node.old files) t.0) }
    requires below { (files : Files) → (node_of node.old files).next_number < 2 ^ 32 - 1 }
    ensures did { Did (T.rows space.now.table) node.old mem.old node.new mem.new (clone t.0 (slice_index args.now 0) (slice_index args.now 1) (slice_index args.now 2) (slice_index args.now 3) (slice_index args.now 4)) }
    ensures processes { node.old.processes.spare ≤ node.new.processes.spare }
    ensures threads { node.old.threads.spare ≤ node.new.threads.spare + 1 }
    ensures sleepers { node.old.sleepers.spare ≤ node.new.sleepers.spare }
{
    let p = node.process_of_thread(t);
    let threads = node.live_threads(p);
    match clone_refusal(args[0], threads) {
        Some(answer) => answers(node, t, answer),
        None => clones(node, space, mem, t, args),
    }
}

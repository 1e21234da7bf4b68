// clone: a thread beside the caller.
ghost use Rattle.file_model.specs.Files.{Files};
ghost use Rattle.kernel_model.specs.CloneCalls.{are_clone_flags, clone, clones};
ghost use Rattle.kernel_model.specs.Nodes.{most_threads, thread_of, threads_of};
ghost use Rattle.kernel_tables.specs.Shown.{node_of};
ghost use Rattle.one_calls.specs.Resting.{MayClone};
ghost use Rattle.one_calls.specs.Views.{Did};
ghost use Rattle.std.specs.Prelude.{◌≡◌, ◌<◌, length, slice_index};

use crate::bits::{has_bit, minus};
use crate::numbers::tells_number;
use kernel_tables::KernelTables;
use mck_word::Tid;
use one_memory::PageRows;
use system_calls::errors::{EAGAIN, EINVAL};

const MOST_THREADS: u32 = 16;

// The flags that have to stand, SYSVSEM, SETTLS, PARENT_SETTID, CHILD_CLEARTID, one that is ignored, and CHILD_SETTID.
const KNOWN_FLAGS: u64 = 0x17d_0f00;

// Bits of the flags.
pub const PARENT_SETTID: u32 = 20;

pub const CHILD_SETTID: u32 = 24;

/// Whether the flags are those of a clone that makes a thread: VM, FS, FILES, SIGHAND and THREAD stand, and nothing
/// unknown.
fn are_clone_flags(flags: u64) -> bool
    ensures { result ≡ are_clone_flags flags }
{
    has_bit(8, flags)
        && has_bit(9, flags)
        && has_bit(10, flags)
        && has_bit(11, flags)
        && has_bit(16, flags)
        && minus(flags, KNOWN_FLAGS) == 0
}

/// A clone that isn't refused, by the arguments flags, stack, parent tid, tls and child tid.
fn clones(node: &mut KernelTables, memory: &mut PageRows, t: Tid, args: &[u64; 6])
    requires may { MayClone node.old t.0 }
    requires few { (files : Files) → length (threads_of (node_of node.old files) (thread_of (node_of node.old files) t.0).process) < most_threads }
    ensures { Did node.old memory.old.map node.new memory.new.map (clones t.0 (slice_index args.now 0) (slice_index args.now 1) (slice_index args.now 2) (slice_index args.now 3) (slice_index args.now 4)) }
{
    let number = node.clone_thread(t, args);
    let parent_asks = has_bit(PARENT_SETTID, args[0]);
    tells_number(memory, parent_asks, args[2], number.0);
    let child_asks = has_bit(CHILD_SETTID, args[0]);
    tells_number(memory, child_asks, args[4], number.0);
    node.answered(t, number.0 as i64);
}

/// clone, where the flags aren't those of a fork: a thread begins beside the caller, by the arguments flags, stack,
/// parent tid, tls and child tid.
pub fn clone(node: &mut KernelTables, memory: &mut PageRows, t: Tid, args: &[u64; 6])
    requires { MayClone node.old t.0 }
    ensures { Did node.old memory.old.map node.new memory.new.map (clone t.0 (slice_index args.now 0) (slice_index args.now 1) (slice_index args.now 2) (slice_index args.now 3) (slice_index args.now 4)) }
{
    let p = node.process_of_thread(t);
    if !are_clone_flags(args[0]) {
        node.answered(t, EINVAL);
    } else if node.live_threads(p) >= MOST_THREADS {
        node.answered(t, EAGAIN);
    } else {
        clones(node, memory, t, args);
    }
}

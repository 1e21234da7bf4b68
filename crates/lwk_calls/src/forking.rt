// fork: a process beside the caller's. Its memory is made elsewhere, and so is the sharing of its files.
ghost use Rattle.file_model.specs.Files.{Files, share};
ghost use Rattle.hybrid_model.specs.Spaces.{written_back};
ghost use Rattle.kernel_model.specs.CloneCalls.{are_fork_flags};
ghost use Rattle.kernel_model.specs.Nodes.{has_process, has_thread, thread_of};
ghost use Rattle.kernel_model.specs.Signals.{stored_all};
ghost use Rattle.lwk_calls.specs.Forks.{begins_child, fork_refusal};
ghost use Rattle.lwk_calls.specs.Words.{told};
ghost use Rattle.kernel_tables.specs.Shown.{node_of};
ghost use Rattle.lwk_space.specs.Frames.{frames_map};
ghost use Rattle.lwk_space.specs.Lacks.{OthersStay, memory};
ghost use Rattle.lwk_space.specs.Rows.{FramesApart, FramesIn};
ghost use Rattle.lwk_views.specs.Views.{seen};
ghost use Rattle.mck_word.specs.Words.{has_bit};
ghost use Rattle.std.specs.Prelude.{◌≡◌, ◌≤◌, ◌<◌, ◌-◌, ◌^◌, IsTrue, length, slice_index};

use crate::answering::{has_bit, minus};
use crate::numbers::tells_number;
use frame_mem::FrameMem;
use kernel_tables::KernelTables;
use lwk_space::Space;
use mck_word::{Pid, Tid};
use page_map::PageTable;
use system_calls::errors::{EAGAIN, ENOMEM};

const MOST_PROCESSES: usize = 1024;

// The signal of a fork, which stands in the low eight bits of its flags.
const SIGNAL: u64 = 17;

// SETTLS, PARENT_SETTID, CHILD_CLEARTID and CHILD_SETTID, beside the signal.
const KNOWN_FLAGS: u64 = 0x138_0011;

// Bits of the flags.
const PARENT_SETTID: u32 = 20;

const CHILD_SETTID: u32 = 24;

/// Whether the flags are those of a clone that makes a process.
pub fn are_fork_flags(flags: u64) -> bool
    ensures { result ≡ are_fork_flags flags }
{
    flags % 256 == SIGNAL && minus(flags, KNOWN_FLAGS) == 0
}

/// Why a fork is refused with so many processes, where so many frames are free and the caller has so many pages.
pub fn fork_refusal(processes: usize, free: u64, pages: u64) -> Option<i64>
    ensures { result ≡ fork_refusal processes free pages }
{
    if MOST_PROCESSES <= processes {
        Some(EAGAIN)
    } else if free < pages {
        Some(ENOMEM)
    } else {
        None
    }
}

/// A fork that isn't refused, by the arguments flags, stack, parent tid, tls and child tid: a process and its first
/// thread begin, the parent is told the number, and the caller is answered it.
pub fn begins_child<T: PageTable>(
    node: &mut KernelTables,
    space: &Space<T>,
    mem: &mut FrameMem,
    t: Tid,
    args: &[u64; 6],
) -> Pid
    requires inside { FramesIn (T.rows space.now.table) mem.old }
    requires apart { FramesApart (T.rows space.now.table) }
    requires process_room { 1 ≤ node.old.processes.spare }
    requires thread_room { 1 ≤ node.old.threads.spare }
    requires lives { (files : Files) → IsTrue (has_thread (node_of node.old files) t.0) }
    requires there { (files : Files) → IsTrue (has_process (node_of node.old files) (thread_of (node_of node.old files) t.0).process) }
    requires below { (files : Files) → (node_of node.old files).next_number < 2 ^ 32 - 1 }
    ensures number { (files : Files) → result.0 ≡ (node_of node.old files).next_number }
    ensures node { (files : Files) → node_of node.new (share (thread_of (node_of node.old files) t.0).process result.0 files)
        ≡ (begins_child t.0 (slice_index args.now 0) (slice_index args.now 1) (slice_index args.now 2) (slice_index args.now 3) (slice_index args.now 4) (seen (T.rows space.now.table) node.old mem.old files)).node }
    ensures frames { (files : Files) → frames_map mem.new
        ≡ written_back (T.rows space.now.table) (stored_all (begins_child t.0 (slice_index args.now 0) (slice_index args.now 1) (slice_index args.now 2) (slice_index args.now 3) (slice_index args.now 4) (seen (T.rows space.now.table) node.old mem.old files)).stores
        (memory (T.rows space.now.table) mem.old)) (frames_map mem.old) }
    ensures count { length mem.new ≡ length mem.old }
{
    let number = node.next_number();
    let asked = has_bit(PARENT_SETTID, args[0]);
    tells_number(space, mem, asked, args[2], number);
    let child = node.fork(t, args);
    node.answered(t, child.0 as i64);
    child
}

/// A child is told its number in its own memory, where its parent's arguments ask for it.
pub fn tells_child<T: PageTable>(space: &Space<T>, mem: &mut FrameMem, args: &[u64; 6], child: Pid)
    requires inside { FramesIn (T.rows space.now.table) mem.old }
    requires apart { FramesApart (T.rows space.now.table) }
    ensures memory { memory (T.rows space.now.table) mem.new ≡ told (has_bit 24 (slice_index args.now 0)) (slice_index args.now 4) child.0 (memory (T.rows space.now.table) mem.old) }
    ensures others { OthersStay (T.rows space.now.table) mem.old mem.new }
    ensures count { length mem.new ≡ length mem.old }
{
    let asked = has_bit(CHILD_SETTID, args[0]);
    tells_number(space, mem, asked, args[4], child.0);
}

// fork: a process beside the caller's. The copy of its memory is made elsewhere, and so is the sharing of its files.
ghost use Rattle.file_model.specs.Files.{Files, share};
ghost use Rattle.kernel_model.specs.CloneCalls.{are_fork_flags};
ghost use Rattle.kernel_model.specs.Nodes.{thread_of};
ghost use Rattle.kernel_model.specs.Signals.{stored_all};
ghost use Rattle.kernel_tables.specs.Shown.{node_of};
ghost use Rattle.mck_word.specs.Words.{has_bit};
ghost use Rattle.one_calls.specs.Resting.{MayFork};
ghost use Rattle.one_calls.specs.Views.{seen};
ghost use Rattle.one_calls.specs.Words.{begins_child, fork_refusal, told};
ghost use Rattle.std.specs.Prelude.{◌≡◌, slice_index};

use crate::bits::{has_bit, minus};
use crate::cloning::{CHILD_SETTID, PARENT_SETTID};
use crate::numbers::tells_number;
use kernel_tables::KernelTables;
use mck_word::{Pid, Tid};
use one_memory::PageRows;
use system_calls::errors::{EAGAIN, ENOMEM};

const MOST_PROCESSES: usize = 1024;

// The signal of a fork, which stands in the low eight bits of its flags.
const SIGNAL: u64 = 17;

// SETTLS, PARENT_SETTID, CHILD_CLEARTID and CHILD_SETTID, beside the signal.
const KNOWN_FLAGS: u64 = 0x138_0011;

/// Whether the flags are those of a clone that makes a process.
pub fn are_fork_flags(flags: u64) -> bool
    ensures { result ≡ are_fork_flags flags }
{
    flags % 256 == SIGNAL && minus(flags, KNOWN_FLAGS) == 0
}

/// Why a fork is refused with so many processes, where so many frames are free and the caller has so many pages.
pub fn fork_refusal(processes: usize, free: u64, pages: u64) -> Option<i64>
    ensures { result ≡ fork_refusal processes free pages }
{
    if MOST_PROCESSES <= processes {
        Some(EAGAIN)
    } else if free < pages {
        Some(ENOMEM)
    } else {
        None
    }
}

/// A fork that isn't refused, by the arguments flags, stack, parent tid, tls and child tid: a process and its first
/// thread begin, the parent is told the number, and the caller is answered it.
pub fn begins_child(node: &mut KernelTables, memory: &mut PageRows, t: Tid, args: &[u64; 6]) -> Pid
    requires { MayFork node.old t.0 }
    ensures number { (files : Files) → result.0 ≡ (node_of node.old files).next_number }
    ensures node { (files : Files) → node_of node.new (share (thread_of (node_of node.old files) t.0).process result.0 files)
        ≡ (begins_child t.0 (slice_index args.now 0) (slice_index args.now 1) (slice_index args.now 2) (slice_index args.now 3) (slice_index args.now 4) (seen node.old memory.old.map files)).node }
    ensures stored { (files : Files) → memory.new.map
        ≡ stored_all (begins_child t.0 (slice_index args.now 0) (slice_index args.now 1) (slice_index args.now 2) (slice_index args.now 3) (slice_index args.now 4) (seen node.old memory.old.map files)).stores memory.old.map }
{
    let number = node.next_number();
    let asked = has_bit(PARENT_SETTID, args[0]);
    tells_number(memory, asked, args[2], number);
    let child = node.fork(t, args);
    node.answered(t, child.0 as i64);
    child
}

/// A child is told its number in its own memory, where its parent's arguments ask for it.
pub fn tells_child(memory: &mut PageRows, args: &[u64; 6], child: Pid)
    ensures { memory.new.map ≡ told (has_bit 24 (slice_index args.now 0)) (slice_index args.now 4) child.0 memory.old.map }
{
    let asked = has_bit(CHILD_SETTID, args[0]);
    tells_number(memory, asked, args[4], child.0);
}

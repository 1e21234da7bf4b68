// Forks, whole: a process begins, with a copy of its parent's memory, or the call is refused.
ghost use Rattle.file_model.specs.Files.{Files};
ghost use Rattle.kernel_model.specs.CloneCalls.{forks};
ghost use Rattle.kernel_model.specs.LocalCalls.{answers};
ghost use Rattle.kernel_model.specs.Nodes.{thread_of};
ghost use Rattle.kernel_model.specs.Steps.{one_trap, one_trapped, one_view};
ghost use Rattle.kernel_model.specs.Traps.{cloned, past_ecall};
ghost use Rattle.kernel_tables.specs.Shown.{node_of};
ghost use Rattle.mck_word.specs.Maps.{count, no_rows};
ghost use Rattle.one_calls.specs.Here.{Rest, here, here_with};
ghost use Rattle.one_calls.specs.LocalTraps.{calls_fork};
ghost use Rattle.one_calls.specs.Resting.{MayFork};
ghost use Rattle.one_calls.specs.Views.{DidAlone};
ghost use Rattle.std.specs.Prelude.{◌≡◌, ◌≤◌, Some, slice_index, true};

use crate::forking::{begins_child, fork_refusal, tells_child};
use kernel_tables::{KernelTables, arguments_of};
use mck_word::{Pid, Tid};
use one_memory::PageRows;

/// A fork that isn't refused: a process begins with a copy of the memory, and with its own stores.
fn forks(
    node: &mut KernelTables,
    memory: &mut PageRows,
    unborn: &mut PageRows,
    p: Pid,
    t: Tid,
    args: &[u64; 6],
) -> Pid
    requires may { MayFork node.old t.0 }
    requires own { (files : Files) → (thread_of (node_of node.old files) t.0).process ≡ p.0 }
    requires empty { unborn.old.map ≡ no_rows }
    requires pages { count memory.old.map ≤ unborn.old.spare }
    ensures { (r : Rest) → here_with node.new memory.new.map unborn.new.map (count memory.old.map) p.0 (Some result) r ≡ (let h = here node.old memory.old.map r in
        one_trapped p.0 t.0 (cloned (forks t.0 (slice_index args.now 0) (slice_index args.now 1) (slice_index args.now 2) (slice_index args.now 3) (slice_index args.now 4) (past_ecall t.0 (one_view h)))) h) }
{
    node.past_ecall(t);
    let child = begins_child(node, memory, t, args);
    unborn.copy_from(memory);
    tells_child(unborn, args, child);
    child
}

/// A fork that is refused is answered so, behind its ecall.
fn refuses_fork(node: &mut KernelTables, t: Tid, answer: i64)
    ensures { DidAlone node.old node.new (λ v. answers t.0 answer (past_ecall t.0 v)) }
{
    node.past_ecall(t);
    node.answered(t, answer);
}

/// The trap of a thread of the process that is a fork, with so many frames free. It answers the number of the process
/// that begins, whose memory is then `unborn`, and None where the fork is refused.
pub fn fork(
    node: &mut KernelTables,
    memory: &mut PageRows,
    unborn: &mut PageRows,
    p: Pid,
    t: Tid,
    free: u64,
) -> Option<Pid>
    requires may { MayFork node.old t.0 }
    requires own { (files : Files) → (thread_of (node_of node.old files) t.0).process ≡ p.0 }
    requires fork { (files : Files) → calls_fork (node_of node.old files) t.0 ≡ true }
    requires empty { unborn.old.map ≡ no_rows }
    requires pages { count memory.old.map ≤ unborn.old.spare }
    ensures { (r : Rest) → r.free ≡ free → here_with node.new memory.new.map unborn.new.map (count memory.old.map) p.0 result r ≡ one_trap p.0 t.0 (here node.old memory.old.map r) }
{
    let pages = memory.count() as u64;
    match fork_refusal(node.process_count(), free, pages) {
        Some(answer) => {
            refuses_fork(node, t, answer);
            None
        }
        None => {
            let args = arguments_of(&node.regs(t));
            let child = forks(node, memory, unborn, p, t, &args);
            Some(child)
        }
    }
}

// Traps of stopped threads that are local.
ghost use Rattle.file_model.specs.Files.{Files};
ghost use Rattle.isa_model.specs.declared.stops.Stop.TheVariants as stops;
ghost use Rattle.kernel_model.specs.Nodes.{thread_of};
ghost use Rattle.kernel_model.specs.Steps.{one_trap, one_trapped, one_view};
ghost use Rattle.kernel_model.specs.Traps.{call_named as call_in, called, past_ecall, trap_of_stop};
ghost use Rattle.kernel_tables.specs.Shown.{node_of};
ghost use Rattle.one_calls.specs.Here.{Rest, here};
ghost use Rattle.one_calls.specs.LocalTraps.{calls_fork, names_fork, names_local, stops_locally, traps_locally};
ghost use Rattle.one_calls.specs.Resting.{MayClone, MayRest};
ghost use Rattle.std.specs.Prelude.{◌≡◌, Some, true, ℕ};
ghost use Rattle.system_calls.specs.declared.LocalCall.TheVariants.{Futex};
ghost use Rattle.system_calls.specs.declared.SystemCall.TheVariants.{Clone, Local};

use crate::calls::{calls_clone, calls_locally, refuses_call};
use crate::forking::are_fork_flags;
use crate::raising::raises;
use isa_model::Stop;
use kernel_model::Does;
use kernel_tables::{KernelTables, arguments_of, call_named};
use mck_word::{Regs, Tid};
use one_memory::PageRows;
use system_calls::SystemCall;

/// Whether the call that the registers name is a fork.
pub fn names_fork(regs: &Regs) -> bool
    ensures { result ≡ names_fork regs.now }
{
    matches!(call_named(regs), Some(SystemCall::Clone)) && are_fork_flags(arguments_of(regs)[0])
}

/// Whether the trap of the thread is a fork.
pub fn calls_fork(node: &KernelTables, t: Tid) -> bool
    ensures { (files : Files) → result ≡ calls_fork (node_of node.now files) t.0 }
{
    match node.does(t) {
        Does::Stopped(Stop::Ecall) => names_fork(&node.regs(t)),
        _ => false,
    }
}

/// Whether the call that the registers name isn't known, or is local, or a clone that is no fork.
fn names_local(regs: &Regs) -> bool
    ensures { result ≡ names_local regs.now }
{
    match call_named(regs) {
        None | Some(SystemCall::Local(_)) => true,
        Some(SystemCall::Clone) => !are_fork_flags(arguments_of(regs)[0]),
        Some(SystemCall::Memory(_) | SystemCall::File(_)) => false,
    }
}

/// Whether the trap of the thread is local, and no fork.
pub fn traps_locally(node: &KernelTables, t: Tid) -> bool
    ensures { (files : Files) → result ≡ traps_locally (node_of node.now files) t.0 }
{
    match node.does(t) {
        Does::Stopped(Stop::Ecall) => names_local(&node.regs(t)),
        Does::Stopped(_) => true,
        _ => false,
    }
}

/// The call that the registers of the thread name, where it isn't known, or is local, or a clone that is no fork.
fn call(node: &mut KernelTables, memory: &mut PageRows, t: Tid, regs: &Regs)
    requires local { names_local regs.now ≡ true }
    requires rest { call_in regs.now ≡ Some (Local Futex) → MayRest node.old t.0 }
    requires clone { call_in regs.now ≡ Some Clone → MayClone node.old t.0 }
    ensures { (p : ℕ) (r : Rest) → here node.new memory.new.map r ≡ (let h = here node.old memory.old.map r in
        one_trapped p t.0 (called t.0 h.free regs.now (past_ecall t.0 (one_view h)) (call_in regs.now)) h) }
{
    match call_named(regs) {
        None => refuses_call(node, t),
        Some(SystemCall::Clone) => calls_clone(node, memory, t, &arguments_of(regs)),
        Some(SystemCall::Local(call)) => calls_locally(node, memory, t, call, &arguments_of(regs)),
        Some(SystemCall::Memory(_) | SystemCall::File(_)) => unreachable!(),
    }
}

/// The local trap of a thread that stopped so.
fn trap_of_stop(node: &mut KernelTables, memory: &mut PageRows, t: Tid, stop: Stop)
    requires local { (files : Files) → stops_locally (thread_of (node_of node.old files) t.0).regs (Some stop) ≡ true }
    requires rest { (files : Files) → call_in (thread_of (node_of node.old files) t.0).regs ≡ Some (Local Futex) → MayRest node.old t.0 }
    requires clone { (files : Files) → call_in (thread_of (node_of node.old files) t.0).regs ≡ Some Clone → MayClone node.old t.0 }
    ensures { (p : ℕ) (r : Rest) → here node.new memory.new.map r ≡ (let h = here node.old memory.old.map r in
        one_trapped p t.0 (trap_of_stop t.0 h.free (one_view h) (Some stop)) h) }
{
    match stop {
        Stop::Ecall => {
            let regs = node.regs(t);
            call(node, memory, t, &regs);
        }
        stop => raises(node, t, stop),
    }
}

/// The trap of a thread, where it is local and no fork.
pub fn trap(node: &mut KernelTables, memory: &mut PageRows, t: Tid)
    requires local { (files : Files) → traps_locally (node_of node.old files) t.0 ≡ true }
    requires rest { (files : Files) → call_in (thread_of (node_of node.old files) t.0).regs ≡ Some (Local Futex) → MayRest node.old t.0 }
    requires clone { (files : Files) → call_in (thread_of (node_of node.old files) t.0).regs ≡ Some Clone → MayClone node.old t.0 }
    ensures { (p : ℕ) (r : Rest) → here node.new memory.new.map r ≡ one_trap p t.0 (here node.old memory.old.map r) }
{
    let Does::Stopped(stop) = node.does(t) else {
        return;
    };
    trap_of_stop(node, memory, t, stop);
}

// Which traps begin delegated calls, and which are memory calls.
ghost use Rattle.file_model.specs.Files.{Files};
ghost use Rattle.kernel_model.specs.Traps.{call_named};
ghost use Rattle.kernel_tables.specs.Shown.{node_of};
ghost use Rattle.one_kernel.specs.Trapping.{begins_call, calls_memory, is_delegated, is_on_memory};
ghost use Rattle.std.specs.Prelude.{◌≡◌, Some, true};
ghost use Rattle.system_calls.specs.declared.SystemCall.TheVariants.{File};

use isa_model::Stop;
use kernel_model::Does;
use kernel_tables::{KernelTables, call_named};
use mck_word::{Regs, Tid};
use system_calls::{FileCall, SystemCall};

/// Whether the call that the registers name is delegated.
fn names_delegated(regs: &Regs) -> bool
    ensures { result ≡ is_delegated (call_named regs.now) }
{
    matches!(call_named(regs), Some(SystemCall::File(_)))
}

/// The delegated call that the registers name.
pub(crate) fn delegated_call(regs: &Regs) -> FileCall
    requires { is_delegated (call_named regs.now) ≡ true }
    ensures { Some (File result) ≡ call_named regs.now }
{
    match call_named(regs) {
        Some(SystemCall::File(call)) => call,
        None | Some(SystemCall::Clone | SystemCall::Local(_) | SystemCall::Memory(_)) => {
            unreachable!()
        }
    }
}

/// Whether the call that the registers name is a memory call.
fn names_memory(regs: &Regs) -> bool
    ensures { result ≡ is_on_memory (call_named regs.now) }
{
    matches!(call_named(regs), Some(SystemCall::Memory(_)))
}

/// Whether the trap of the thread begins a delegated call.
pub(crate) fn begins_call(node: &KernelTables, t: Tid) -> bool
    ensures { (files : Files) → result ≡ begins_call (node_of node.now files) t.0 }
{
    match node.does(t) {
        Does::Stopped(Stop::Ecall) => names_delegated(&node.regs(t)),
        _ => false,
    }
}

/// Whether the trap of the thread is a memory call.
pub(crate) fn calls_memory(node: &KernelTables, t: Tid) -> bool
    ensures { (files : Files) → result ≡ calls_memory (node_of node.now files) t.0 }
{
    match node.does(t) {
        Does::Stopped(Stop::Ecall) => names_memory(&node.regs(t)),
        _ => false,
    }
}

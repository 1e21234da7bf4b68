// The delivery of a signal to a thread, and its return from a handler.
ghost use Rattle.isa_model.specs.Memory.{may_access, write_bytes};
ghost use Rattle.isa_model.specs.Registers.{reg};
ghost use Rattle.kernel_model.specs.Signals.{deliver, deliver_signal, enter_handler, frame_bytes, frame_size, return_from_handler};
ghost use Rattle.mck_word.specs.declared.Access.TheVariants.{Write};
ghost use Rattle.one_calls.specs.Views.{Did};
ghost use Rattle.std.specs.Prelude.{◌≡◌, ◌≤◌, cond};

use kernel_model::Action;
use kernel_tables::KernelTables;
use lwk_signals::{FRAME_SIZE, frame_address, interrupted_regs, pop_frame, push_frame};
use mck_flags::SigSet;
use mck_word::{End, Regs, Tid};
use one_memory::PageRows;

const SIGSEGV: u32 = 11;

const DEFAULT: u64 = 0;

/// Stores a frame where the process may write it, and tells whether it does.
fn store_frame(memory: &mut PageRows, sp: u64, r: &Regs, mask: SigSet) -> bool
    ensures may { result ≡ may_access memory.old.map Write sp frame_size }
    ensures stored { memory.new.map ≡ cond result (write_bytes memory.old.map sp (frame_bytes r.now mask.0)) memory.old.map }
{
    let mut bytes = [0; FRAME_SIZE];
    push_frame(r, mask, &mut bytes);
    memory.try_store(sp, &bytes)
}

/// The thread begins the handler of the action, behind its frame; where that can't be stored, its process is killed.
fn enter_handler(node: &mut KernelTables, memory: &mut PageRows, t: Tid, signal: u32, a: &Action)
    requires least { 1 ≤ signal }
    requires most { signal ≤ 64 }
    ensures { Did node.old memory.old.map node.new memory.new.map (enter_handler t.0 signal a.now) }
{
    let p = node.process_of_thread(t);
    let r = interrupted_regs(node.stands_back(t), a, &node.regs(t));
    let sp = frame_address(&r);
    let mask = node.mask(t);
    if store_frame(memory, sp, &r, mask) {
        node.enters_handler(t, a, signal, sp, &r);
        node.after_reset(p, signal, a);
    } else {
        node.stands_in_front(t, r);
        node.dies(p, End::Killed(SIGSEGV));
    }
}

/// The signal, which was taken, is delivered: it kills the process of the thread, or the thread begins its handler.
fn deliver_signal(node: &mut KernelTables, memory: &mut PageRows, t: Tid, signal: u32)
    requires least { 1 ≤ signal }
    requires most { signal ≤ 64 }
    ensures { Did node.old memory.old.map node.new memory.new.map (deliver_signal t.0 signal) }
{
    let p = node.process_of_thread(t);
    let a = node.action(p, signal);
    if a.handler == DEFAULT {
        node.interrupted(t, &a);
        node.dies(p, End::Killed(signal));
    } else {
        enter_handler(node, memory, t, signal, &a);
    }
}

/// The next signal of the thread, where there is one, is taken and delivered.
pub fn deliver(node: &mut KernelTables, memory: &mut PageRows, t: Tid)
    ensures { Did node.old memory.old.map node.new memory.new.map (deliver t.0) }
{
    if let Some(signal) = node.next_signal(t) {
        node.taken(t, signal);
        deliver_signal(node, memory, t, signal);
    }
}

/// The stack pointer of these registers.
fn stack_pointer(r: &Regs) -> u64
    ensures { result ≡ reg r.now 2 }
{
    r.x[2]
}

/// rt_sigreturn: the registers and the mask come back from the frame at the stack pointer; where that can't be read,
/// 11 is raised.
pub fn return_from_handler(node: &mut KernelTables, memory: &PageRows, t: Tid)
    ensures { Did node.old memory.now.map node.new memory.now.map (return_from_handler t.0) }
{
    let sp = stack_pointer(&node.regs(t));
    let mut bytes = [0; FRAME_SIZE];
    if memory.read_into(sp, &mut bytes) {
        let (regs, mask) = pop_frame(&bytes);
        node.returns_from_handler(t, regs, mask);
    } else {
        node.raised(t, SIGSEGV);
    }
}

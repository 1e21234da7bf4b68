// The delivery of a signal to a thread, and its return from a handler.
ghost use Rattle.isa_model.specs.Memory.{may_access};
ghost use Rattle.isa_model.specs.Registers.{reg};
ghost use Rattle.kernel_model.specs.Signals.{deliver, deliver_signal, enter_handler, frame_size, return_from_handler};
ghost use Rattle.lwk_calls.specs.SignalWords.{framed};
ghost use Rattle.kernel_tables.specs.Room.{KeepsRoom};
ghost use Rattle.lwk_space.specs.Lacks.{OthersStay, memory};
ghost use Rattle.lwk_space.specs.Rows.{FramesApart, FramesIn};
ghost use Rattle.lwk_views.specs.Views.{Did};
ghost use Rattle.mck_word.specs.declared.Access.TheVariants.{Write};
ghost use Rattle.std.specs.Prelude.{◌≡◌, ◌≤◌, length};

use frame_mem::FrameMem;
use kernel_model::Action;
use kernel_tables::KernelTables;
use lwk_signals::{FRAME_SIZE, frame_address, interrupted_regs, pop_frame, push_frame};
use lwk_space::Space;
use lwk_views::{read_into, try_store};
use mck_flags::SigSet;
use mck_word::{End, Regs, Tid};
use page_map::PageTable;

const SIGSEGV: u32 = 11;

const DEFAULT: u64 = 0;

/// Stores a frame where the process may write it, and tells whether it does.
fn store_frame<T: PageTable>(
    space: &Space<T>,
    mem: &mut FrameMem,
    sp: u64,
    r: &Regs,
    mask: SigSet,
) -> bool
    requires frames { FramesIn (T.rows space.now.table) mem.old }
    requires apart { FramesApart (T.rows space.now.table) }
    ensures may { result ≡ may_access (memory (T.rows space.now.table) mem.old) Write sp frame_size }
    ensures memory { memory (T.rows space.now.table) mem.new ≡ framed sp r.now mask.0 (memory (T.rows space.now.table) mem.old) }
    ensures others { OthersStay (T.rows space.now.table) mem.old mem.new }
    ensures count { length mem.new ≡ length mem.old }
{
    let mut bytes = [0; FRAME_SIZE];
    push_frame(r, mask, &mut bytes);
    try_store(space, mem, sp, &bytes)
}

/// The thread begins the handler of the action, behind its frame; where that can't be stored, its process is killed.
fn enter_handler<T: PageTable>(
    node: &mut KernelTables,
    space: &Space<T>,
    mem: &mut FrameMem,
    t: Tid,
    signal: u32,
    a: &Action,
)
    requires frames { FramesIn (T.rows space.now.table) mem.old }
    requires apart { FramesApart (T.rows space.now.table) }
    requires least { 1 ≤ signal }
    requires most { signal ≤ 64 }
    ensures did { Did (T.rows space.now.table) node.old mem.old node.new mem.new (enter_handler t.0 signal a.now) }
    ensures room { KeepsRoom node.old node.new }
{
    let p = node.process_of_thread(t);
    let r = interrupted_regs(node.stands_back(t), a, &node.regs(t));
    let sp = frame_address(&r);
    let mask = node.mask(t);
    if store_frame(space, mem, sp, &r, mask) {
        node.enters_handler(t, a, signal, sp, &r);
        node.after_reset(p, signal, a);
    } else {
        node.stands_in_front(t, r);
        node.dies(p, End::Killed(SIGSEGV));
    }
}

/// The signal, which was taken, is delivered: it kills the process of the thread, or the thread begins its handler.
fn deliver_signal<T: PageTable>(
    node: &mut KernelTables,
    space: &Space<T>,
    mem: &mut FrameMem,
    t: Tid,
    signal: u32,
)
    requires frames { FramesIn (T.rows space.now.table) mem.old }
    requires apart { FramesApart (T.rows space.now.table) }
    requires least { 1 ≤ signal }
    requires most { signal ≤ 64 }
    ensures did { Did (T.rows space.now.table) node.old mem.old node.new mem.new (deliver_signal t.0 signal) }
    ensures room { KeepsRoom node.old node.new }
{
    let p = node.process_of_thread(t);
    let a = node.action(p, signal);
    if a.handler == DEFAULT {
        node.interrupted(t, &a);
        node.dies(p, End::Killed(signal));
    } else {
        enter_handler(node, space, mem, t, signal, &a);
    }
}

/// The next signal of the thread, where there is one, is taken and delivered.
pub fn deliver<T: PageTable>(node: &mut KernelTables, space: &Space<T>, mem: &mut FrameMem, t: Tid)
    requires frames { FramesIn (T.rows space.now.table) mem.old }
    requires apart { FramesApart (T.rows space.now.table) }
    ensures did { Did (T.rows space.now.table) node.old mem.old node.new mem.new (deliver t.0) }
    ensures room { KeepsRoom node.old node.new }
{
    match node.next_signal(t) {
        Some(signal) => {
            node.taken(t, signal);
            deliver_signal(node, space, mem, t, signal);
        }
        None => {}
    }
}

/// The stack pointer of these registers.
fn stack_pointer(r: &Regs) -> u64
    ensures { result ≡ reg r.now 2 }
{
    r.x[2]
}

/// rt_sigreturn: the registers and the mask come back from the frame at the stack pointer; where that can't be read,
/// 11 is raised.
pub fn return_from_handler<T: PageTable>(
    node: &mut KernelTables,
    space: &Space<T>,
    mem: &FrameMem,
    t: Tid,
)
    requires frames { FramesIn (T.rows space.now.table) mem.now }
    ensures did { Did (T.rows space.now.table) node.old mem.now node.new mem.now (return_from_handler t.0) }
    ensures room { KeepsRoom node.old node.new }
{
    let sp = stack_pointer(&node.regs(t));
    let mut bytes = [0; FRAME_SIZE];
    if read_into(space, mem, sp, &mut bytes) {
        let (regs, mask) = pop_frame(&bytes);
        node.returns_from_handler(t, regs, mask);
    } else {
        node.raised(t, SIGSEGV);
    }
}

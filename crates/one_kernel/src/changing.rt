// Changes of a process's memory: what a memory call comes to, what the end of a change comes to, and the change made.
ghost use Rattle.file_model.specs.Files.{Files};
ghost use Rattle.isa_model.specs.declared.stops.Stop.TheVariants.{Ecall};
ghost use Rattle.kernel_model.specs.MemoryCalls.{answer_of_change, decide, effect_of, refusal_at_end};
ghost use Rattle.kernel_model.specs.Nodes.{Process, process_of, thread_of};
ghost use Rattle.kernel_model.specs.Steps.{one_changed, one_effect, one_trap, one_trapped, one_view};
ghost use Rattle.kernel_model.specs.Traps.{arguments_of, called, decided, past_ecall};
ghost use Rattle.kernel_model.specs.declared.Does.TheVariants.{Stopped};
ghost use Rattle.kernel_tables.specs.Shown.{node_of};
ghost use Rattle.mck_word.specs.Maps.{count};
ghost use Rattle.offer_laws.specs.ChangeFits.{ChangeFits, DecisionFits};
ghost use Rattle.one_calls.specs.Here.{Rest, here};
ghost use Rattle.one_kernel.specs.Due.{HasRoomFor, HeapFits, at_once, due, due_by, unless_refused};
ghost use Rattle.one_kernel.specs.Trapping.{calls_memory};
ghost use Rattle.std.specs.Prelude.{◌≡◌, ◌<◌, ◌+◌, ◌^◌, Some, true};
ghost use Rattle.system_calls.specs.declared.SystemCall.TheVariants.{Memory};
ghost use Rattle.vm_calls.specs.Facts.{decision, refusal};

use isa_model::Stop;
use kernel_model::{Change, Does};
use kernel_tables::{KernelTables, arguments_of, call_named};
use mck_word::{Pid, Regs, Tid};
use one_changes::{decide, finish, make};
use one_memory::PageRows;
use system_calls::{MemoryCall, SystemCall};
use vm_calls::{AtEnd, VmPlan};

/// What the call answers once its change is made.
fn answer_of(change: &Change) -> i64
    requires { ChangeFits change.now }
    ensures { result ≡ answer_of_change change.now }
{
    match *change {
        Change::Map { range, .. } => (range.lo * 4096) as i64,
        Change::Brk(a) => a as i64,
        Change::Unmap(_) | Change::Protect { .. } => 0,
    }
}

/// The break once the change is made, where it is `brk` before.
fn break_after(brk: u64, change: &Change) -> u64
    ensures { (p : Process) → brk ≡ p.program_break → result ≡ (effect_of p change.now).program_break }
{
    match *change {
        Change::Brk(a) => a,
        Change::Map { .. } | Change::Unmap(_) | Change::Protect { .. } => brk,
    }
}

/// A change of the process is made: its pages go and come, the break is set, and the thread has its answer.
fn make_change(
    node: &mut KernelTables,
    memory: &mut PageRows,
    free: &mut u64,
    p: Pid,
    t: Tid,
    change: &Change,
)
    requires fits { ChangeFits change.now }
    requires small { free.old + count memory.old.map < 2 ^ 64 }
    requires room { (files : Files) → HasRoomFor memory.old.spare (process_of (node_of node.old files) p.0).program_break (Some change.now) }
    ensures { (r : Rest) → here node.new memory.new.map (record r { free = free.new })
        ≡ (let h = here node.old memory.old.map (record r { free = free.old }) in
        one_effect p.0 t.0 (answer_of_change change.now) (effect_of (process_of h.node p.0) change.now) h) }
{
    let brk = node.program_break(p);
    make(memory, free, brk, change);
    node.set_break(p, break_after(brk, change));
    node.finishes(t, answer_of(change));
}

/// What a memory call of the process decides.
fn plan_call(
    node: &KernelTables,
    memory: &PageRows,
    free: u64,
    p: Pid,
    call: MemoryCall,
    args: &[u64; 6],
) -> VmPlan
    requires { (files : Files) → HeapFits (process_of (node_of node.now files) p.0) }
    ensures fits { DecisionFits (decision result) }
    ensures is { (files : Files) → decision result ≡ decide (process_of (node_of node.now files) p.0) memory.now.map free call args.now }
{
    let brk = node.program_break(p);
    let base = node.heap_base(p);
    decide(memory, brk, base, free, call, args)
}

/// The thread has its answer, its change is made, or it waits until its change may be made.
fn does_as_planned(
    node: &mut KernelTables,
    memory: &mut PageRows,
    free: &mut u64,
    p: Pid,
    t: Tid,
    plan: &VmPlan,
)
    requires fits { DecisionFits (decision plan.now) }
    requires small { free.old + count memory.old.map < 2 ^ 64 }
    requires room { (files : Files) → HasRoomFor memory.old.spare (process_of (node_of node.old files) p.0).program_break (at_once (decision plan.now)) }
    ensures { (r : Rest) → here node.new memory.new.map (record r { free = free.new })
        ≡ (let h = here node.old memory.old.map (record r { free = free.old }) in
        one_trapped p.0 t.0 (decided t.0 (one_view h) (decision plan.now)) h) }
{
    match *plan {
        VmPlan::Reply(answer) => node.answered(t, answer),
        VmPlan::Now(change) => make_change(node, memory, free, p, t, &change),
        VmPlan::Round(_, change) => node.set_does(t, Does::InVm(change)),
    }
}

/// The memory call of the thread, with the arguments of its registers, is made, behind its ecall.
fn calls_for_memory(
    node: &mut KernelTables,
    memory: &mut PageRows,
    free: &mut u64,
    p: Pid,
    t: Tid,
    call: MemoryCall,
    regs: &Regs,
)
    requires own { (files : Files) → (thread_of (node_of node.old files) t.0).process ≡ p.0 }
    requires heap { (files : Files) → HeapFits (process_of (node_of node.old files) p.0) }
    requires small { free.old + count memory.old.map < 2 ^ 64 }
    requires room { (files : Files) → HasRoomFor memory.old.spare (process_of (node_of node.old files) p.0).program_break
        (at_once (decide (process_of (node_of node.old files) p.0) memory.old.map free.old call (arguments_of regs.now))) }
    ensures { (r : Rest) → here node.new memory.new.map (record r { free = free.new })
        ≡ (let h = here node.old memory.old.map (record r { free = free.old }) in
        one_trapped p.0 t.0 (called t.0 free.old regs.now (past_ecall t.0 (one_view h)) (Some (Memory call))) h) }
{
    node.past_ecall(t);
    let plan = plan_call(node, memory, *free, p, call, &arguments_of(regs));
    does_as_planned(node, memory, free, p, t, &plan);
}

/// The trap of the thread, which stopped at a memory call.
pub fn trap_memory(node: &mut KernelTables, memory: &mut PageRows, free: &mut u64, p: Pid, t: Tid)
    requires own { (files : Files) → (thread_of (node_of node.old files) t.0).process ≡ p.0 }
    requires memory { (files : Files) → calls_memory (node_of node.old files) t.0 ≡ true }
    requires heap { (files : Files) → HeapFits (process_of (node_of node.old files) p.0) }
    requires small { free.old + count memory.old.map < 2 ^ 64 }
    requires room { (files : Files) → HasRoomFor memory.old.spare (process_of (node_of node.old files) p.0).program_break (due (node_of node.old files) t.0 memory.old.map free.old) }
    ensures { (r : Rest) → here node.new memory.new.map (record r { free = free.new })
        ≡ one_trap p.0 t.0 (here node.old memory.old.map (record r { free = free.old })) }
{
    let regs = node.regs(t);
    let Some(SystemCall::Memory(call)) = call_named(&regs) else {
        return;
    };
    calls_for_memory(node, memory, free, p, t, call, &regs);
}

/// What is decided at the end of the change, for which the thread has waited.
fn plan_end(node: &KernelTables, memory: &PageRows, free: u64, p: Pid, change: &Change) -> AtEnd
    requires { (files : Files) → HeapFits (process_of (node_of node.now files) p.0) }
    ensures { (files : Files) → refusal result ≡ refusal_at_end (process_of (node_of node.now files) p.0) memory.now.map free change.now }
{
    finish(memory, node.program_break(p), free, change)
}

/// The change of the thread is refused or made.
pub fn finish_change(
    node: &mut KernelTables,
    memory: &mut PageRows,
    free: &mut u64,
    p: Pid,
    t: Tid,
    change: &Change,
)
    requires heap { (files : Files) → HeapFits (process_of (node_of node.old files) p.0) }
    requires fits { ChangeFits change.now }
    requires small { free.old + count memory.old.map < 2 ^ 64 }
    requires room { (files : Files) → HasRoomFor memory.old.spare (process_of (node_of node.old files) p.0).program_break (unless_refused change.now (refusal_at_end (process_of (node_of node.old files) p.0) memory.old.map free.old change.now)) }
    ensures { (r : Rest) → here node.new memory.new.map (record r { free = free.new })
        ≡ (let h = here node.old memory.old.map (record r { free = free.old }) in
        one_changed p.0 t.0 change.now (refusal_at_end (process_of h.node p.0) h.own.memory h.free change.now) h) }
{
    match plan_end(node, memory, *free, p, change) {
        AtEnd::Reply(answer) => node.finishes(t, answer),
        AtEnd::Make => make_change(node, memory, free, p, t, change),
    }
}

/// The change that the call of the registers makes at once, where it is a memory call.
fn change_at_once(
    node: &KernelTables,
    memory: &PageRows,
    free: u64,
    p: Pid,
    regs: &Regs,
) -> Option<Change>
    requires { (files : Files) → HeapFits (process_of (node_of node.now files) p.0) }
    ensures { (files : Files) → result ≡ due_by (Stopped Ecall) regs.now (process_of (node_of node.now files) p.0) memory.now.map free }
{
    let plan = match call_named(regs) {
        Some(SystemCall::Memory(call)) => {
            plan_call(node, memory, free, p, call, &arguments_of(regs))
        }
        None | Some(SystemCall::Clone | SystemCall::Local(_) | SystemCall::File(_)) => return None,
    };
    match plan {
        VmPlan::Now(change) => Some(change),
        VmPlan::Reply(_) | VmPlan::Round(..) => None,
    }
}

/// The change, where its end doesn't refuse it.
fn change_at_end(
    node: &KernelTables,
    memory: &PageRows,
    free: u64,
    p: Pid,
    change: &Change,
) -> Option<Change>
    requires { (files : Files) → HeapFits (process_of (node_of node.now files) p.0) }
    ensures { (files : Files) → result ≡ unless_refused change.now (refusal_at_end (process_of (node_of node.now files) p.0) memory.now.map free change.now) }
{
    match plan_end(node, memory, free, p, change) {
        AtEnd::Make => Some(*change),
        AtEnd::Reply(_) => None,
    }
}

/// The change that the thread makes next, at a memory call or at the end of its wait.
pub fn due(node: &KernelTables, memory: &PageRows, free: u64, p: Pid, t: Tid) -> Option<Change>
    requires own { (files : Files) → (thread_of (node_of node.now files) t.0).process ≡ p.0 }
    requires heap { (files : Files) → HeapFits (process_of (node_of node.now files) p.0) }
    ensures { (files : Files) → result ≡ due (node_of node.now files) t.0 memory.now.map free }
{
    match node.does(t) {
        Does::Stopped(Stop::Ecall) => change_at_once(node, memory, free, p, &node.regs(t)),
        Does::InVm(change) => change_at_end(node, memory, free, p, &change),
        _ => None,
    }
}

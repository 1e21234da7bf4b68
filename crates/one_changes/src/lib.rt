//! The memory calls of a process over its plain pages: what one decides, what is decided again at its end, and its
//! change.
//!
//! Promises: `decide` is `decide` of the definitions and `finish` is `refusal_at_end` (kernel_model's
//! specs/MemoryCalls), for each process with the given break and heap's base, and the memory that the pages show;
//! `make` leaves the pages and the number of free frames as `after_effect` of kernel_model's specs/Spaces does. Pages
//! are counted and compared in one walk over those that are present, and a gap is looked for from the top, from one
//! present page down to the next. No call but `make_room_for` takes memory or fails.
#![tactic(auto)]

mod changes;
mod counts;
mod gaps;

ghost use Rattle.job_model.specs.Images.{highest};
ghost use Rattle.kernel_model.specs.MemoryCalls.{decide, refusal_at_end};
ghost use Rattle.kernel_model.specs.Nodes.{Process};
ghost use Rattle.offer_laws.specs.ChangeFits.{DecisionFits};
ghost use Rattle.std.specs.Option.{ForSome};
ghost use Rattle.std.specs.Prelude.{◌≡◌, ◌<◌, ◌≤◌, ◌^◌};
ghost use Rattle.vm_calls.specs.Facts.{Describes, DescribesAtEnd, decision, refusal};

pub use changes::{make, make_room_for};
use counts::{call_lessens, count_present, rights_of};
use gaps::gap_for;
use kernel_model::Change;
use one_memory::PageRows;
use system_calls::MemoryCall;
use vm_calls::{AtEnd, Facts, VmPlan, call_range, change_range};

/// What the call has to know of the process's memory.
fn facts_for_call(
    memory: &PageRows,
    brk: u64,
    base: u64,
    free: u64,
    call: MemoryCall,
    args: &[u64; 6],
) -> Facts
    ensures brk { result.brk ≡ brk }
    ensures base { result.base ≡ base }
    ensures free { result.free ≡ free }
    ensures gap { ForSome result.gap (λ low. low < 2 ^ 52) }
    ensures describes { (p : Process) → brk ≡ p.program_break → base ≡ p.heap_base → Describes result call args.now p memory.now.map }
{
    let range = call_range(brk, call, args);
    let rights = rights_of(args[2] % (1 << 32));
    Facts {
        brk,
        base,
        free,
        gap: gap_for(memory, free, call, args),
        present: count_present(memory, &range),
        lessens: call_lessens(memory, call, &range, rights),
    }
}

/// What the end of a change has to know of the process's memory.
fn facts_at_end(memory: &PageRows, brk: u64, free: u64, change: &Change) -> Facts
    ensures brk { result.brk ≡ brk }
    ensures free { result.free ≡ free }
    ensures describes { (p : Process) → brk ≡ p.program_break → DescribesAtEnd result change.now p memory.now.map }
{
    Facts {
        brk,
        base: 0,
        free,
        gap: None,
        present: count_present(memory, &change_range(brk, change)),
        lessens: false,
    }
}

/// What a call decides, and that its change fits.
pub fn decide(
    memory: &PageRows,
    brk: u64,
    base: u64,
    free: u64,
    call: MemoryCall,
    args: &[u64; 6],
) -> VmPlan
    requires small { brk < 2 ^ 63 }
    requires heap { base ≤ highest }
    ensures fits { DecisionFits (decision result) }
    ensures decides { (p : Process) → brk ≡ p.program_break → base ≡ p.heap_base → decision result ≡ decide p memory.now.map free call args.now }
{
    let facts = facts_for_call(memory, brk, base, free, call, args);
    vm_calls::decide(&facts, call, args)
}

/// What is decided at the end of a change that had to wait.
pub fn finish(memory: &PageRows, brk: u64, free: u64, change: &Change) -> AtEnd
    requires { brk < 2 ^ 63 }
    ensures { (p : Process) → brk ≡ p.program_break → refusal result ≡ refusal_at_end p memory.now.map free change.now }
{
    vm_calls::finish(&facts_at_end(memory, brk, free, change), change)
}

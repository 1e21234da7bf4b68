//! The memory calls of a process over its space: what one decides, what is decided again at the end of a round, and
//! its change.
//!
//! Promises: `decide` is `decide` of the definitions and `finish` is `refusal_at_end` (kernel_model's
//! specs/MemoryCalls), for each process with the given break and heap's base, and the memory that its table shows;
//! `make` leaves the space, the frames and the free ones as `after_effect` of hybrid_model's specs/Spaces does. Pages
//! are counted and compared in one walk over those that are present. No call but `make_room_for` takes memory or
//! fails. What has to hold before a change stands in specs/Conditions.
#![tactic(auto)]

mod changes;
mod counts;
mod gaps;

ghost use Rattle.isa_model.specs.Memory.{Memory};
ghost use Rattle.job_model.specs.Images.{highest};
ghost use Rattle.kernel_model.specs.MemoryCalls.{decide, refusal_at_end};
ghost use Rattle.kernel_model.specs.Nodes.{Process};
ghost use Rattle.lwk_changes.specs.Conditions.{ClosesBy};
ghost use Rattle.lwk_space.specs.Lacks.{memory};
ghost use Rattle.offer_laws.specs.ChangeFits.{DecisionFits};
ghost use Rattle.std.specs.Option.{ForSome};
ghost use Rattle.std.specs.Prelude.{◌≡◌, ◌<◌, ◌≤◌, ◌^◌, ℕ, List};
ghost use Rattle.vm_calls.specs.Facts.{Describes, DescribesAtEnd, decision, refusal};

pub use changes::{make, make_room_for};
use counts::{call_lessens, count_present, rights_of};
use gaps::gap_for;
use kernel_model::Change;
use lwk_space::Space;
use page_map::PageTable;
use system_calls::MemoryCall;
use vm_calls::{AtEnd, Facts, VmPlan, call_range, change_range};

/// What the call has to know of the process's memory.
pub fn facts_for_call<T: PageTable>(
    own: &Space<T>,
    brk: u64,
    base: u64,
    free: u64,
    call: MemoryCall,
    args: &[u64; 6],
) -> Facts
    ensures brk { result.brk ≡ brk }
    ensures base { result.base ≡ base }
    ensures free { result.free ≡ free }
    ensures gap { ForSome result.gap (λ low. low < 2 ^ 52) }
    ensures describes { (p : Process) (m : Memory) (pages : List (List ℕ)) → brk ≡ p.program_break → base ≡ p.heap_base → m ≡ memory (T.rows own.now.table) pages → Describes result call args.now p m }
{
    let range = call_range(brk, call, args);
    let rights = rights_of(args[2] % (1 << 32));
    Facts {
        brk,
        base,
        free,
        gap: gap_for(own, free, call, args),
        present: count_present(own.table(), &range),
        lessens: call_lessens(own.table(), call, &range, rights),
    }
}

/// What the end of a round over a change has to know of the process's memory.
pub fn facts_at_end<T: PageTable>(
    own: &Space<T>,
    brk: u64,
    base: u64,
    free: u64,
    change: &Change,
) -> Facts
    ensures brk { result.brk ≡ brk }
    ensures free { result.free ≡ free }
    ensures describes { (p : Process) (m : Memory) (pages : List (List ℕ)) → brk ≡ p.program_break → m ≡ memory (T.rows own.now.table) pages → DescribesAtEnd result change.now p m }
{
    Facts {
        brk,
        base,
        free,
        gap: None,
        present: count_present(own.table(), &change_range(brk, change)),
        lessens: false,
    }
}

/// What a call decides, and that its change fits.
pub fn decide<T: PageTable>(
    own: &Space<T>,
    brk: u64,
    base: u64,
    free: u64,
    call: MemoryCall,
    args: &[u64; 6],
) -> VmPlan
    requires small { brk < 2 ^ 63 }
    requires heap { base ≤ highest }
    ensures closing { ClosesBy base result }
    ensures fits { DecisionFits (decision result) }
    ensures decides { (p : Process) (m : Memory) (pages : List (List ℕ)) → brk ≡ p.program_break → base ≡ p.heap_base → m ≡ memory (T.rows own.now.table) pages → decision result ≡ decide p m free call args.now }
{
    let facts = facts_for_call(own, brk, base, free, call, args);
    vm_calls::decide(&facts, call, args)
}

/// What is decided at the end of a round over a change.
pub fn finish<T: PageTable>(
    own: &Space<T>,
    brk: u64,
    base: u64,
    free: u64,
    change: &Change,
) -> AtEnd
    requires { brk < 2 ^ 63 }
    ensures { (p : Process) (m : Memory) (pages : List (List ℕ)) → brk ≡ p.program_break → m ≡ memory (T.rows own.now.table) pages → refusal result ≡ refusal_at_end p m free change.now }
{
    vm_calls::finish(&facts_at_end(own, brk, base, free, change), change)
}

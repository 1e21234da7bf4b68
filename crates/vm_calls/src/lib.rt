//! The memory calls mmap, munmap, mprotect and brk: what each decides from a few facts on the process's memory, and
//! what is decided again at the end of a round.
//!
//! Promises: `decide` is `decide` of the definitions and `finish` is `refusal_at_end` (kernel_model's
//! specs/MemoryCalls), for each process and memory that the facts describe (specs/Facts); a round has the range that
//! it closes. specs/Deciding has the calls over the facts. The orders of checks are those of Linux on RISC-V with this
//! project's bounds (man-pages section 2).
#![tactic(auto)]

mod arguments;
mod deciding;

ghost use Rattle.isa_model.specs.Memory.{Memory};
ghost use Rattle.kernel_model.specs.MemoryCalls.{closing_range, decide, refusal_at_end};
ghost use Rattle.kernel_model.specs.Nodes.{Process};
ghost use Rattle.std.specs.Prelude.{◌≡◌, ◌<◌, ◌^◌, ℕ, [], ◌∷◌};
ghost use Rattle.std.specs.Option.{ForSome};
ghost use Rattle.vm_calls.specs.Facts.{Closes, Describes, DescribesAtEnd, decision, refusal};
ghost use Rattle.vm_calls.specs.Deciding.{call_range, change_range, closes};

use arguments::{heap_range, range_for};
use kernel_model::Change;
use mck_word::PageRange;
use system_calls::MemoryCall;

/// What a memory call has to know: the break and the heap's base in bytes, the free frames, the first page of the
/// highest gap of the call's length where it looks for one, how many of the call's pages are present, and whether one
/// of them would lose a right.
#[derive(Clone, Copy, PartialEq, Eq, Debug)]
pub struct Facts {
    pub brk: u64,
    pub base: u64,
    pub free: u64,
    pub gap: Option<u64>,
    pub present: u64,
    pub lessens: bool,
}

/// A call is answered at once, or its change is made at once, or at the end of a round that closes the range.
#[derive(Clone, Copy, PartialEq, Eq, Debug)]
pub enum VmPlan {
    Reply(i64),
    Now(Change),
    Round(PageRange, Change),
}

/// At the end of a round the call is refused, or its change is made.
#[derive(Clone, Copy, PartialEq, Eq, Debug)]
pub enum AtEnd {
    Reply(i64),
    Make,
}

/// The pages of which a call speaks: those for which `Facts` counts.
pub fn call_range(brk: u64, call: MemoryCall, args: &[u64; 6]) -> PageRange
    ensures { result ≡ call_range brk call args.now }
{
    match call {
        MemoryCall::Brk => heap_range(brk, args[0]),
        MemoryCall::Mmap | MemoryCall::Munmap | MemoryCall::Mprotect => range_for(args[0], args[1]),
    }
}

/// The pages of which a change speaks, at its end.
pub fn change_range(brk: u64, c: &Change) -> PageRange
    ensures { result ≡ change_range brk c.now }
{
    match *c {
        Change::Map { range, .. } => range,
        Change::Unmap(range) => range,
        Change::Protect { range, .. } => range,
        Change::Brk(a) => heap_range(brk, a),
    }
}

/// What a call decides.
pub fn decide(f: &Facts, call: MemoryCall, args: &[u64; 6]) -> VmPlan
    requires small { f.now.brk < 2 ^ 63 }
    requires heap { f.now.base < 2 ^ 63 }
    requires gap { ForSome f.now.gap (λ low. low < 2 ^ 52) }
    ensures closing { Closes f.now result }
    ensures decides { (p : Process) (m : Memory) → Describes f.now call args.now p m → decision result ≡ decide p m f.now.free call args.now }
{
    deciding::decide(f, call, args)
}

/// What is decided at the end of a round over a change.
pub fn finish(f: &Facts, c: &Change) -> AtEnd
    requires { f.now.brk < 2 ^ 63 }
    ensures { (p : Process) (m : Memory) → DescribesAtEnd f.now c.now p m → refusal result ≡ refusal_at_end p m f.now.free c.now }
{
    deciding::at_end(f, c)
}

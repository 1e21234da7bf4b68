// Slots that lie one behind the other in a code page.
ghost use Rattle.std.specs.Prelude.{◌≡◌, ◌≤◌, ◌<◌, ◌+◌, ◌*◌, ◌%◌, ◌^◌, ◌/◌, ℕ, length, slice_index_or, true, if◌then◌else◌};
ghost use Rattle.isa_model.specs.declared.stops.Stop.TheVariants.{On};
ghost use Rattle.rv64i_user.specs.Places.{bytes_of, word_in};
ghost use Rattle.rv64i_user.specs.Runs.{Leads};
ghost use Rattle.rv64i_user.specs.Slots.{HasZero, at_pc};
ghost use Rattle.rv64i_user.specs.Stopping.{is_on};
ghost use Rattle.rv64i_user.specs.declared.slots.Slot.{Slot};

use crate::kept::Kept;
use crate::page_memory::PageMem;
use crate::slot_steps::one;
use crate::slots::{Next, Slot};
use isa_model::Stop;

// One for an instruction that went on.
#[inline(always)]
fn gone(stop: &Stop) -> u32
    ensures { result ≡ (if is_on stop.now then 1 else 0) }
{
    match stop {
        Stop::On => 1,
        _ => 0,
    }
}

// Does the slots of the code page that is kept, from `from` on and below `end`, and takes those that went on from what is
// left to do. Answers whether the code is still known.
#[inline(always)]
pub fn run_slots<P: PageMem>(
    x: &mut [u64; 32],
    pc: &mut u64,
    mem: &mut Kept<P>,
    stop: &mut Stop,
    slots: &[Slot],
    from: usize,
    end: usize,
    left: &mut u32,
) -> bool
    requires on { stop.old ≡ On }
    requires zero { HasZero x.old }
    requires low { mem.old.page < 2 ^ 52 }
    requires place { pc.old ≡ mem.old.page * 4096 + 4 * from }
    requires some { from < end }
    requires inside { end ≤ 1024 }
    requires long { end ≤ length slots.now }
    requires few { end ≤ from + left.old }
    requires words { (k : ℕ) (d : Slot) → from ≤ k → k < end → (slice_index_or slots.now k d).word ≡ word_in (bytes_of (P.memory mem.old.mem) mem.old.page) (4 * k) }
    ensures leads { Leads left.old (at_pc pc.old x.old) (P.memory mem.old.mem) left.new (at_pc pc.new x.new) (P.memory mem.new.mem) stop.new }
    ensures on { result ≡ true → stop.new ≡ On }
    ensures fewer { stop.new ≡ On → left.new < left.old }
    ensures aligned { result ≡ true → pc.new % 4 ≡ 0 }
    ensures zero { result ≡ true → HasZero x.new }
    ensures page { result ≡ true → mem.new.page ≡ mem.old.page }
    ensures code { result ≡ true → bytes_of (P.memory mem.new.mem) mem.old.page ≡ bytes_of (P.memory mem.old.mem) mem.old.page }
{
    for k in from..end {
        match one(x, pc, mem, stop, &slots[k]) {
            Next::Straight => {}
            Next::Elsewhere => {
                *left -= (k - from) as u32 + 1;
                return true;
            }
            Next::Leave => {
                *left -= (k - from) as u32 + gone(stop);
                return false;
            }
        }
    }
    *left -= (end - from) as u32;
    true
}

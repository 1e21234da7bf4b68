// Atomic operations as slots: a load and a store of one aligned number, in one step.
ghost use Rattle.std.specs.Prelude.{◌≡◌, ◌<◌, true, if◌then◌else◌};
ghost use Rattle.isa_model.specs.Instr.{do_atomic, gives};
ghost use Rattle.isa_model.specs.declared.stops.Stop.TheVariants.{On};
ghost use Rattle.rv64i_user.specs.Places.{bytes_of};
ghost use Rattle.rv64i_user.specs.Slots.{Ends, HasZero, at_pc, stays};
ghost use Rattle.rv64i_user.specs.Stopping.{is_on};
ghost use Rattle.rv_am.specs.Words.{am};

use crate::flat::{get, put};
use crate::kept::Kept;
use crate::memory::UserMem;
use crate::page_memory::PageMem;
use crate::slots::{Next, Slot};
use isa_model::{AmOp, Lack, Stop};
use mck_word::Access;
use rv_am::{old_value, result_of, size_of_access};

// After a store that may have been made: then its old value goes into a register, and control on, to the slot behind where
// the store left the code as it was.
#[inline(always)]
fn after_store(x: &mut [u64; 32], pc: &mut u64, stop: &Stop, to: u8, old: u64, aside: bool) -> Next
    requires small { to < 32 }
    requires zero { HasZero x.old }
    ensures did { at_pc pc.new x.new ≡ (if is_on stop.now then gives (at_pc pc.old x.old) to old else at_pc pc.old x.old) }
    ensures ends { Ends result pc.old pc.new stop.now }
    ensures zero { HasZero x.new }
    ensures aside { stays result ≡ true → aside ≡ true }
{
    match stop {
        Stop::On => {
            if to != 0 {
                put(x, to, old);
            }
            *pc = pc.wrapping_add(4);
            if aside { Next::Straight } else { Next::Leave }
        }
        _ => Next::Leave,
    }
}

// Does an atomic operation, with the old value into the register `to`.
#[inline(never)]
pub fn atomic<P: PageMem>(
    x: &mut [u64; 32],
    pc: &mut u64,
    mem: &mut Kept<P>,
    stop: &mut Stop,
    slot: &Slot,
    op: AmOp,
    to: u8,
) -> Next
    requires on { stop.old ≡ On }
    requires zero { HasZero x.old }
    requires small { to < 32 }
    ensures did { record { regs = at_pc pc.new x.new; memory = P.memory mem.new.mem; stop = stop.new }
        ≡ do_atomic (am op to slot.now.rs1 slot.now.rs2 0) (at_pc pc.old x.old) (P.memory mem.old.mem) }
    ensures ends { Ends result pc.old pc.new stop.new }
    ensures zero { HasZero x.new }
    ensures page { stays result ≡ true → mem.new.page ≡ mem.old.page }
    ensures code { stays result ≡ true → bytes_of (P.memory mem.new.mem) mem.old.page ≡ bytes_of (P.memory mem.old.mem) mem.old.page }
{
    let addr = get(x, slot.rs1);
    let size = size_of_access(op);
    if addr % u64::from(size) != 0 {
        *stop = Stop::Misaligned;
        return Next::Leave;
    }
    match mem.load_to(addr, size, stop) {
        Some(old) => {
            let v = result_of(op, old, get(x, slot.rs2));
            let aside = mem.store_aside(addr, size, v, stop);
            after_store(x, pc, stop, to, old_value(op, old), aside)
        }
        None => {
            *stop = Stop::Fault(Lack {
                page: addr / 4096,
                access: Access::Write,
            });
            Next::Leave
        }
    }
}

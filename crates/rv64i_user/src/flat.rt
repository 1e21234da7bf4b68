// What slots do to the registers, with the place in the code beside them and register 0 holding 0.
ghost use Rattle.std.specs.Prelude.{◌≡◌, ◌<◌, ◌*◌, ◌%◌, ◌^◌, ◌/◌, ◌+◌, slice_set};
ghost use Rattle.isa_model.specs.Arith.{computed};
ghost use Rattle.isa_model.specs.Instr.{do_arith, do_b, do_r, do_u, gives, jumps, wide_of};
ghost use Rattle.isa_model.specs.Registers.{reg};
ghost use Rattle.isa_model.specs.declared.stops.Stop.TheVariants.{On};
ghost use Rattle.rv64i_user.specs.Slots.{Ends, HasZero, at_pc};
ghost use Rattle.std.specs.Int.{cast_unsigned, w32};
ghost use Rattle.rv_am.specs.Words.{am};

use crate::arith::{compute, taken, wide};
use crate::slots::{Next, Slot};
use isa_model::{AmOp, Op, Stop};
use mck_word::sext;
use rv_am::result_of;

// A register's value.
#[inline(always)]
pub fn get(x: &[u64; 32], k: u8) -> u64
    requires small { k < 32 }
    requires zero { HasZero x.now }
    ensures { result ≡ reg (at_pc 0 x.now) k }
{
    x[k as usize]
}

// Writes a register other than 0.
#[inline(always)]
pub fn put(x: &mut [u64; 32], rd: u8, v: u64)
    requires written { 0 < rd }
    requires small { rd < 32 }
    requires zero { HasZero x.old }
    ensures value { x.new ≡ slice_set x.old rd v }
    ensures zero { HasZero x.new }
{
    x[rd as usize] = v;
}

// Goes on to the slot behind.
#[inline(always)]
pub fn advance(pc: &mut u64) -> Next
    ensures place { pc.new ≡ (pc.old + 4) % 2 ^ 64 }
    ensures ends { Ends result pc.old pc.new On }
{
    *pc = pc.wrapping_add(4);
    Next::Straight
}

// Puts a result into the register of a slot, and goes on.
#[inline(always)]
pub fn give(x: &mut [u64; 32], pc: &mut u64, slot: &Slot, v: u64) -> Next
    requires zero { HasZero x.old }
    ensures given { at_pc pc.new x.new ≡ gives (at_pc pc.old x.old) slot.now.rd v }
    ensures ends { Ends result pc.old pc.new On }
    ensures zero { HasZero x.new }
{
    put(x, slot.rd, v);
    advance(pc)
}

// Computes from two registers.
#[inline(always)]
#[tactic(auto, unfolding(isa_model::specs::Instr::do_r))]
pub fn by_registers(x: &mut [u64; 32], pc: &mut u64, slot: &Slot, op: Op) -> Next
    requires zero { HasZero x.old }
    ensures did { at_pc pc.new x.new ≡ do_r op slot.now.rd slot.now.rs1 slot.now.rs2 (at_pc pc.old x.old) }
    ensures ends { Ends result pc.old pc.new On }
    ensures zero { HasZero x.new }
{
    let v = compute(op, get(x, slot.rs1), get(x, slot.rs2));
    give(x, pc, slot, v)
}

// Multiplies or divides.
#[inline(always)]
pub fn by_product(x: &mut [u64; 32], pc: &mut u64, slot: &Slot, op: AmOp) -> Next
    requires zero { HasZero x.old }
    ensures did { at_pc pc.new x.new ≡ do_arith (am op slot.now.rd slot.now.rs1 slot.now.rs2 0) (at_pc pc.old x.old) }
    ensures ends { Ends result pc.old pc.new On }
    ensures zero { HasZero x.new }
{
    let v = result_of(op, get(x, slot.rs1), get(x, slot.rs2));
    give(x, pc, slot, v)
}

// Computes from a register and the immediate.
#[inline(always)]
pub fn by_immediate(x: &mut [u64; 32], pc: &mut u64, slot: &Slot, op: Op) -> Next
    requires zero { HasZero x.old }
    ensures did { at_pc pc.new x.new ≡ gives (at_pc pc.old x.old) slot.now.rd (computed op (reg (at_pc pc.old x.old) slot.now.rs1) (wide_of slot.now.imm)) }
    ensures ends { Ends result pc.old pc.new On }
    ensures zero { HasZero x.new }
{
    let v = compute(op, get(x, slot.rs1), wide(slot.imm));
    give(x, pc, slot, v)
}

// Makes the upper bits of a number, or of an address.
#[inline(always)]
#[tactic(auto, unfolding(isa_model::specs::Instr::do_u))]
pub fn upper(x: &mut [u64; 32], pc: &mut u64, slot: &Slot, op: Op) -> Next
    requires zero { HasZero x.old }
    ensures did { at_pc pc.new x.new ≡ do_u op slot.now.rd (cast_unsigned w32 slot.now.imm) (at_pc pc.old x.old) }
    ensures ends { Ends result pc.old pc.new On }
    ensures zero { HasZero x.new }
{
    let v = sext(u64::from(slot.imm.cast_unsigned()) * 4096, 32);
    let v = match op {
        Op::Lui => v,
        _ => pc.wrapping_add(v),
    };
    give(x, pc, slot, v)
}

// Goes to a target, with the address of the slot behind into the slot's register.
#[inline(always)]
pub fn link(x: &mut [u64; 32], pc: &mut u64, stop: &mut Stop, slot: &Slot, target: u64) -> Next
    requires on { stop.old ≡ On }
    requires zero { HasZero x.old }
    ensures did { (at_pc pc.new x.new, stop.new) ≡ jumps (at_pc pc.old x.old) slot.now.rd target }
    ensures ends { Ends result pc.old pc.new stop.new }
    ensures zero { HasZero x.new }
{
    let after = pc.wrapping_add(4);
    if target % 4 != 0 {
        *stop = Stop::Misaligned;
        return Next::Leave;
    }
    *pc = target;
    put(x, slot.rd, after);
    Next::Elsewhere
}

// Goes to a target.
#[inline(always)]
pub fn jump(x: &[u64; 32], pc: &mut u64, stop: &mut Stop, target: u64) -> Next
    requires on { stop.old ≡ On }
    ensures did { (at_pc pc.new x.now, stop.new) ≡ jumps (at_pc pc.old x.now) 0 target }
    ensures ends { Ends result pc.old pc.new stop.new }
{
    if target % 4 != 0 {
        *stop = Stop::Misaligned;
        return Next::Leave;
    }
    *pc = target;
    Next::Elsewhere
}

// Goes to a target where a test holds, and on otherwise.
#[inline(always)]
#[tactic(auto, unfolding(isa_model::specs::Instr::do_b))]
pub fn branch(x: &[u64; 32], pc: &mut u64, stop: &mut Stop, slot: &Slot, op: Op) -> Next
    requires on { stop.old ≡ On }
    requires zero { HasZero x.now }
    ensures did { (at_pc pc.new x.now, stop.new) ≡ do_b op slot.now.rs1 slot.now.rs2 slot.now.imm (at_pc pc.old x.now) }
    ensures ends { Ends result pc.old pc.new stop.new }
{
    if !taken(op, get(x, slot.rs1), get(x, slot.rs2)) {
        return advance(pc);
    }
    let target = pc.wrapping_add(wide(slot.imm));
    if target % 4 != 0 {
        *stop = Stop::Misaligned;
        return Next::Leave;
    }
    *pc = target;
    Next::Elsewhere
}

// What one slot does.
ghost use Rattle.std.specs.Prelude.{◌≡◌, ◌+◌, ◌%◌, ◌^◌, false, true, if◌then◌else◌};
ghost use Rattle.isa_model.specs.Arith.{add_of};
ghost use Rattle.isa_model.specs.Instr.{do_load, do_s, instr, wide_of};
ghost use Rattle.isa_model.specs.Registers.{reg};
ghost use Rattle.isa_model.specs.declared.stops.Stop.TheVariants.{On};
ghost use Rattle.rv64i_user.specs.Places.{bytes_of};
ghost use Rattle.rv64i_user.specs.Slots.{Ends, HasZero, at_pc, does, stays};
ghost use Rattle.rv64i_user.specs.Stopping.{is_on};

use crate::acts::Act;
use crate::arith::{bytes_loaded, bytes_stored, extended, wide};
use crate::flat::{
    advance, branch, by_immediate, by_product, by_registers, get, give, jump, link, upper,
};
use crate::kept::Kept;
use crate::memory::UserMem;
use crate::page_memory::PageMem;
use crate::slot_atomics::atomic;
use crate::slots::{Next, Slot};
use crate::steps::step_to;
use isa_model::{AmOp, Op, Stop};
use mck_word::Regs;

// The address that a slot names.
#[inline(always)]
fn address(x: &[u64; 32], slot: &Slot) -> u64
    requires zero { HasZero x.now }
    ensures { result ≡ add_of (reg (at_pc 0 x.now) slot.now.rs1) (wide_of slot.now.imm) }
{
    get(x, slot.rs1).wrapping_add(wide(slot.imm))
}

#[inline(always)]
#[tactic(auto, unfolding(isa_model::specs::Instr::do_load))]
fn load<P: PageMem>(
    x: &mut [u64; 32],
    pc: &mut u64,
    mem: &Kept<P>,
    stop: &mut Stop,
    slot: &Slot,
    op: Op,
) -> Next
    requires on { stop.old ≡ On }
    requires zero { HasZero x.old }
    ensures did { (at_pc pc.new x.new, stop.new)
        ≡ do_load op slot.now.rd (add_of (reg (at_pc 0 x.old) slot.now.rs1) (wide_of slot.now.imm)) (at_pc pc.old x.old) (P.memory mem.now.mem) }
    ensures ends { Ends result pc.old pc.new stop.new }
    ensures zero { stays result ≡ true → HasZero x.new }
{
    match mem.load_to(address(x, slot), bytes_loaded(op), stop) {
        Some(v) => give(x, pc, slot, extended(op, v)),
        None => Next::Leave,
    }
}

// A load whose value goes nowhere.
#[inline(never)]
#[tactic(auto, unfolding(isa_model::specs::Instr::do_load))]
fn touch<P: PageMem>(
    x: &[u64; 32],
    pc: &mut u64,
    mem: &Kept<P>,
    stop: &mut Stop,
    slot: &Slot,
    op: Op,
) -> Next
    requires on { stop.old ≡ On }
    requires zero { HasZero x.now }
    ensures did { (at_pc pc.new x.now, stop.new)
        ≡ do_load op 0 (add_of (reg (at_pc 0 x.now) slot.now.rs1) (wide_of slot.now.imm)) (at_pc pc.old x.now) (P.memory mem.now.mem) }
    ensures ends { Ends result pc.old pc.new stop.new }
{
    match mem.load_to(address(x, slot), bytes_loaded(op), stop) {
        Some(_value) => advance(pc),
        None => Next::Leave,
    }
}

// After a store that left the code that is known: on to the slot behind, if it was made.
#[cold]
#[inline(never)]
fn leave(pc: &mut u64, stop: &Stop) -> Next
    ensures ends { Ends result pc.old pc.new stop.now }
    ensures leaves { stays result ≡ false }
    ensures place { pc.new ≡ (if is_on stop.now then (pc.old + 4) % 2 ^ 64 else pc.old) }
{
    if let Stop::On = stop {
        *pc = pc.wrapping_add(4);
    }
    Next::Leave
}

#[inline(always)]
#[tactic(auto, unfolding(isa_model::specs::Instr::do_s))]
fn store<P: PageMem>(
    x: &[u64; 32],
    pc: &mut u64,
    mem: &mut Kept<P>,
    stop: &mut Stop,
    slot: &Slot,
    op: Op,
) -> Next
    requires on { stop.old ≡ On }
    requires zero { HasZero x.now }
    ensures did { record { regs = at_pc pc.new x.now; memory = P.memory mem.new.mem; stop = stop.new }
        ≡ do_s op slot.now.rs1 slot.now.rs2 slot.now.imm (at_pc pc.old x.now) (P.memory mem.old.mem) }
    ensures ends { Ends result pc.old pc.new stop.new }
    ensures page { stays result ≡ true → mem.new.page ≡ mem.old.page }
    ensures code { stays result ≡ true → bytes_of (P.memory mem.new.mem) mem.old.page ≡ bytes_of (P.memory mem.old.mem) mem.old.page }
{
    let v = get(x, slot.rs2);
    if mem.store_aside(address(x, slot), bytes_stored(op), v, stop) {
        advance(pc)
    } else {
        leave(pc, stop)
    }
}

// Does the instruction there, whatever it is, and leaves the code that is known.
#[cold]
#[inline(never)]
fn other<P: PageMem>(x: &mut [u64; 32], pc: &mut u64, mem: &mut Kept<P>, stop: &mut Stop) -> Next
    requires on { stop.old ≡ On }
    ensures did { record { regs = at_pc pc.new x.new; memory = P.memory mem.new.mem; stop = stop.new }
        ≡ instr (at_pc pc.old x.old) (P.memory mem.old.mem) }
    ensures ends { Ends result pc.old pc.new stop.new }
    ensures leaves { stays result ≡ false }
{
    let mut r = Regs { pc: *pc, x: *x };
    let _went = step_to(&mut r, mem, stop);
    *pc = r.pc;
    *x = r.x;
    Next::Leave
}

// Does what a slot says. While the code stays known, register 0 stays 0, and the bytes of the code page stay.
#[inline(always)]
#[tactic(auto, unfolding(isa_model::specs::Instr::do_i, isa_model::specs::Instr::do_j))]
pub fn one<P: PageMem>(
    x: &mut [u64; 32],
    pc: &mut u64,
    mem: &mut Kept<P>,
    stop: &mut Stop,
    slot: &Slot,
) -> Next
    requires on { stop.old ≡ On }
    requires zero { HasZero x.old }
    ensures did { record { regs = at_pc pc.new x.new; memory = P.memory mem.new.mem; stop = stop.new }
        ≡ does slot.now.act slot.now.rd slot.now.rs1 slot.now.rs2 slot.now.imm (at_pc pc.old x.old) (P.memory mem.old.mem) }
    ensures ends { Ends result pc.old pc.new stop.new }
    ensures zero { stays result ≡ true → HasZero x.new }
    ensures page { stays result ≡ true → mem.new.page ≡ mem.old.page }
    ensures code { stays result ≡ true → bytes_of (P.memory mem.new.mem) mem.old.page ≡ bytes_of (P.memory mem.old.mem) mem.old.page }
{
    match slot.act {
        Act::Lui => upper(x, pc, slot, Op::Lui),
        Act::Auipc => upper(x, pc, slot, Op::Auipc),
        Act::Jal => {
            let target = pc.wrapping_add(wide(slot.imm));
            link(x, pc, stop, slot, target)
        }
        Act::Jump => {
            let target = pc.wrapping_add(wide(slot.imm));
            jump(x, pc, stop, target)
        }
        Act::Jalr => {
            let target = address(x, slot) / 2 * 2;
            link(x, pc, stop, slot, target)
        }
        Act::JumpTo => {
            let target = address(x, slot) / 2 * 2;
            jump(x, pc, stop, target)
        }
        Act::Beq => branch(x, pc, stop, slot, Op::Beq),
        Act::Bne => branch(x, pc, stop, slot, Op::Bne),
        Act::Blt => branch(x, pc, stop, slot, Op::Blt),
        Act::Bge => branch(x, pc, stop, slot, Op::Bge),
        Act::Bltu => branch(x, pc, stop, slot, Op::Bltu),
        Act::Bgeu => branch(x, pc, stop, slot, Op::Bgeu),
        Act::Lb => load(x, pc, mem, stop, slot, Op::Lb),
        Act::Lh => load(x, pc, mem, stop, slot, Op::Lh),
        Act::Lw => load(x, pc, mem, stop, slot, Op::Lw),
        Act::Ld => load(x, pc, mem, stop, slot, Op::Ld),
        Act::Lbu => load(x, pc, mem, stop, slot, Op::Lbu),
        Act::Lhu => load(x, pc, mem, stop, slot, Op::Lhu),
        Act::Lwu => load(x, pc, mem, stop, slot, Op::Lwu),
        Act::Sb => store(x, pc, mem, stop, slot, Op::Sb),
        Act::Sh => store(x, pc, mem, stop, slot, Op::Sh),
        Act::Sw => store(x, pc, mem, stop, slot, Op::Sw),
        Act::Sd => store(x, pc, mem, stop, slot, Op::Sd),
        Act::Addi => by_immediate(x, pc, slot, Op::Addi),
        Act::Slti => by_immediate(x, pc, slot, Op::Slti),
        Act::Sltiu => by_immediate(x, pc, slot, Op::Sltiu),
        Act::Xori => by_immediate(x, pc, slot, Op::Xori),
        Act::Ori => by_immediate(x, pc, slot, Op::Ori),
        Act::Andi => by_immediate(x, pc, slot, Op::Andi),
        Act::Slli => by_immediate(x, pc, slot, Op::Slli),
        Act::Srli => by_immediate(x, pc, slot, Op::Srli),
        Act::Srai => by_immediate(x, pc, slot, Op::Srai),
        Act::Addiw => by_immediate(x, pc, slot, Op::Addiw),
        Act::Slliw => by_immediate(x, pc, slot, Op::Slliw),
        Act::Srliw => by_immediate(x, pc, slot, Op::Srliw),
        Act::Sraiw => by_immediate(x, pc, slot, Op::Sraiw),
        Act::Add => by_registers(x, pc, slot, Op::Add),
        Act::Sub => by_registers(x, pc, slot, Op::Sub),
        Act::Sll => by_registers(x, pc, slot, Op::Sll),
        Act::Slt => by_registers(x, pc, slot, Op::Slt),
        Act::Sltu => by_registers(x, pc, slot, Op::Sltu),
        Act::Xor => by_registers(x, pc, slot, Op::Xor),
        Act::Srl => by_registers(x, pc, slot, Op::Srl),
        Act::Sra => by_registers(x, pc, slot, Op::Sra),
        Act::Or => by_registers(x, pc, slot, Op::Or),
        Act::And => by_registers(x, pc, slot, Op::And),
        Act::Addw => by_registers(x, pc, slot, Op::Addw),
        Act::Subw => by_registers(x, pc, slot, Op::Subw),
        Act::Sllw => by_registers(x, pc, slot, Op::Sllw),
        Act::Srlw => by_registers(x, pc, slot, Op::Srlw),
        Act::Sraw => by_registers(x, pc, slot, Op::Sraw),
        Act::Mul => by_product(x, pc, slot, AmOp::Mul),
        Act::Mulh => by_product(x, pc, slot, AmOp::Mulh),
        Act::Mulhsu => by_product(x, pc, slot, AmOp::Mulhsu),
        Act::Mulhu => by_product(x, pc, slot, AmOp::Mulhu),
        Act::Div => by_product(x, pc, slot, AmOp::Div),
        Act::Divu => by_product(x, pc, slot, AmOp::Divu),
        Act::Rem => by_product(x, pc, slot, AmOp::Rem),
        Act::Remu => by_product(x, pc, slot, AmOp::Remu),
        Act::Mulw => by_product(x, pc, slot, AmOp::Mulw),
        Act::Divw => by_product(x, pc, slot, AmOp::Divw),
        Act::Divuw => by_product(x, pc, slot, AmOp::Divuw),
        Act::Remw => by_product(x, pc, slot, AmOp::Remw),
        Act::Remuw => by_product(x, pc, slot, AmOp::Remuw),
        Act::Amo(op) => atomic(x, pc, mem, stop, slot, op, slot.rd),
        Act::Update(op) => atomic(x, pc, mem, stop, slot, op, 0),
        Act::Touch(op) => touch(x, pc, mem, stop, slot, op),
        Act::Nothing => advance(pc),
        Act::Ecall => {
            *stop = Stop::Ecall;
            Next::Leave
        }
        Act::Ebreak => {
            *stop = Stop::Break;
            Next::Leave
        }
        Act::Other => other(x, pc, mem, stop),
    }
}

// The instructions of RV64I.
ghost use Rattle.std.specs.Prelude.{◌≡◌, ◌<◌, ◌*◌, ◌%◌, ◌^◌, ◌/◌, ◌+◌};
ghost use Rattle.isa_model.specs.Decode.{AreRegisters};
ghost use Rattle.isa_model.specs.declared.stops.Stop.TheVariants.{On};
ghost use Rattle.isa_model.specs.Instr.{jumps, do_r, do_u, do_j, do_b, do_load, do_i, do_s, execute};
ghost use Rattle.rv64i_user.specs.Stopping.{is_on};

use crate::arith::{bytes_loaded, bytes_stored, compute, extended, taken, wide};
use crate::memory::UserMem;
use crate::registers::{advance, get, set};
use isa_model::kinds::{Kind, kind_for};
use isa_model::{Form, Op, Stop};
use mck_word::{Regs, sext};

// The functions here leave `stop` at `On` and answer true, or put the stop there and answer false: a `Stop` that is
// handed back by value is copied with its padding after each instruction, which costs more than the instruction.

// Goes to a target, with the address of the next instruction into a register.
#[inline(always)]
fn jump(r: &mut Regs, stop: &mut Stop, rd: u8, target: u64) -> bool
    requires rd { rd < 32 }
    requires on { stop.old ≡ On }
    ensures did { (r.new, stop.new) ≡ jumps r.old rd target }
    ensures went { result ≡ is_on stop.new }
{
    let after = r.pc.wrapping_add(4);
    if target % 4 != 0 {
        *stop = Stop::Misaligned;
        return false;
    }
    r.pc = target;
    set(r, rd, after);
    true
}

#[inline(always)]
#[tactic(auto, unfolding(isa_model::specs::Instr::do_r))]
fn run_r(r: &mut Regs, op: Op, rd: u8, rs1: u8, rs2: u8)
    requires { AreRegisters (Form.R op rd rs1 rs2) }
    ensures { r.new ≡ do_r op rd rs1 rs2 r.old }
{
    let v = compute(op, get(r, rs1), get(r, rs2));
    set(r, rd, v);
    advance(r);
}

#[inline(always)]
#[tactic(auto, unfolding(isa_model::specs::Instr::do_u))]
fn run_u(r: &mut Regs, op: Op, rd: u8, imm: u32)
    requires { AreRegisters (Form.U op rd imm) }
    ensures { r.new ≡ do_u op rd imm r.old }
{
    let v = sext(u64::from(imm) * 4096, 32);
    let v = match op {
        Op::Lui => v,
        _ => r.pc.wrapping_add(v),
    };
    set(r, rd, v);
    advance(r);
}

#[inline(always)]
#[tactic(auto, unfolding(isa_model::specs::Instr::do_j))]
fn run_j(r: &mut Regs, stop: &mut Stop, op: Op, rd: u8, imm: i32) -> bool
    requires registers { AreRegisters (Form.J op rd imm) }
    requires on { stop.old ≡ On }
    ensures did { (r.new, stop.new) ≡ do_j rd imm r.old }
    ensures went { result ≡ is_on stop.new }
{
    let target = r.pc.wrapping_add(wide(imm));
    jump(r, stop, rd, target)
}

#[inline(always)]
#[tactic(auto, unfolding(isa_model::specs::Instr::do_b))]
fn run_b(r: &mut Regs, stop: &mut Stop, op: Op, rs1: u8, rs2: u8, imm: i32) -> bool
    requires registers { AreRegisters (Form.B op rs1 rs2 imm) }
    requires on { stop.old ≡ On }
    ensures did { (r.new, stop.new) ≡ do_b op rs1 rs2 imm r.old }
    ensures went { result ≡ is_on stop.new }
{
    if !taken(op, get(r, rs1), get(r, rs2)) {
        advance(r);
        return true;
    }
    let target = r.pc.wrapping_add(wide(imm));
    if target % 4 != 0 {
        *stop = Stop::Misaligned;
        return false;
    }
    r.pc = target;
    true
}

#[inline(always)]
#[tactic(auto, unfolding(isa_model::specs::Instr::do_load))]
fn run_load<M: UserMem>(r: &mut Regs, mem: &M, stop: &mut Stop, op: Op, rd: u8, addr: u64) -> bool
    requires rd { rd < 32 }
    requires on { stop.old ≡ On }
    ensures did { (r.new, stop.new) ≡ do_load op rd addr r.old (M.memory mem.now) }
    ensures went { result ≡ is_on stop.new }
{
    match mem.load_to(addr, bytes_loaded(op), stop) {
        Some(v) => {
            set(r, rd, extended(op, v));
            advance(r);
            true
        }
        None => false,
    }
}

#[inline(always)]
#[tactic(auto, unfolding(isa_model::specs::Instr::do_i))]
fn run_i<M: UserMem>(
    r: &mut Regs,
    mem: &M,
    stop: &mut Stop,
    op: Op,
    rd: u8,
    rs1: u8,
    imm: i32,
) -> bool
    requires registers { AreRegisters (Form.I op rd rs1 imm) }
    requires on { stop.old ≡ On }
    ensures did { (r.new, stop.new) ≡ do_i op rd rs1 imm r.old (M.memory mem.now) }
    ensures went { result ≡ is_on stop.new }
{
    let a = get(r, rs1);
    let b = wide(imm);
    match kind_for(op) {
        Kind::Load => run_load(r, mem, stop, op, rd, a.wrapping_add(b)),
        Kind::Jump => jump(r, stop, rd, a.wrapping_add(b) / 2 * 2),
        Kind::Nothing => {
            advance(r);
            true
        }
        Kind::Call => {
            *stop = Stop::Ecall;
            false
        }
        Kind::Break => {
            *stop = Stop::Break;
            false
        }
        Kind::Compute => {
            set(r, rd, compute(op, a, b));
            advance(r);
            true
        }
    }
}

#[inline(always)]
#[tactic(auto, unfolding(isa_model::specs::Instr::do_s))]
fn run_s<M: UserMem>(
    r: &mut Regs,
    mem: &mut M,
    stop: &mut Stop,
    op: Op,
    rs1: u8,
    rs2: u8,
    imm: i32,
) -> bool
    requires registers { AreRegisters (Form.S op rs1 rs2 imm) }
    requires on { stop.old ≡ On }
    ensures did { record { regs = r.new; memory = M.memory mem.new; stop = stop.new }
        ≡ do_s op rs1 rs2 imm r.old (M.memory mem.old) }
    ensures went { result ≡ is_on stop.new }
{
    let addr = get(r, rs1).wrapping_add(wide(imm));
    let v = get(r, rs2);
    let went = mem.store_to(addr, bytes_stored(op), v, stop);
    if went {
        advance(r);
    }
    went
}

// Does what an instruction says.
#[inline(always)]
pub fn run<M: UserMem>(r: &mut Regs, mem: &mut M, stop: &mut Stop, form: &Form) -> bool
    requires registers { AreRegisters form.now }
    requires on { stop.old ≡ On }
    ensures did { record { regs = r.new; memory = M.memory mem.new; stop = stop.new }
        ≡ execute form.now r.old (M.memory mem.old) }
    ensures went { result ≡ is_on stop.new }
{
    match *form {
        Form::R { op, rd, rs1, rs2 } => {
            run_r(r, op, rd, rs1, rs2);
            true
        }
        Form::I { op, rd, rs1, imm } => run_i(r, mem, stop, op, rd, rs1, imm),
        Form::S { op, rs1, rs2, imm } => run_s(r, mem, stop, op, rs1, rs2, imm),
        Form::B { op, rs1, rs2, imm } => run_b(r, stop, op, rs1, rs2, imm),
        Form::U { op, rd, imm } => {
            run_u(r, op, rd, imm);
            true
        }
        Form::J { op, rd, imm } => run_j(r, stop, op, rd, imm),
    }
}

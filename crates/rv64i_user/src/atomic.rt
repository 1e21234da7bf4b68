// The instructions of M, and the atomic ones.
ghost use Rattle.std.specs.Prelude.{◌≡◌, ◌<◌};
ghost use Rattle.isa_model.specs.Atomics.{am_decoded};
ghost use Rattle.isa_model.specs.Instr.{do_arith, do_atomic, do_am, execute_am};
ghost use Rattle.isa_model.specs.declared.stops.Stop.TheVariants.{On};
ghost use Rattle.rv64i_user.specs.Stopping.{is_on};
ghost use Rattle.rv_am.specs.Words.{am};

use crate::memory::UserMem;
use crate::registers::{advance, get, set};
use isa_model::{Lack, Stop};
use mck_word::{Access, Regs};
use rv_am::{AmIns, arith, decode, is_atomic, old_value, size_of_access};

// A multiplication or division.
#[inline(always)]
fn run_arith(r: &mut Regs, i: &AmIns)
    requires rd { i.now.rd < 32 }
    requires rs1 { i.now.rs1 < 32 }
    requires rs2 { i.now.rs2 < 32 }
    ensures { r.new ≡ do_arith (am i.now.op i.now.rd i.now.rs1 i.now.rs2 i.now.order) r.old }
{
    let v = arith(i, get(r, i.rs1), get(r, i.rs2));
    set(r, i.rd, v);
    advance(r);
}

// An atomic operation: a load and a store of one aligned number, in one step.
fn run_atomic<M: UserMem>(r: &mut Regs, mem: &mut M, stop: &mut Stop, i: &AmIns) -> bool
    requires rd { i.now.rd < 32 }
    requires rs1 { i.now.rs1 < 32 }
    requires rs2 { i.now.rs2 < 32 }
    requires on { stop.old ≡ On }
    ensures did { record { regs = r.new; memory = M.memory mem.new; stop = stop.new }
        ≡ do_atomic (am i.now.op i.now.rd i.now.rs1 i.now.rs2 i.now.order) r.old (M.memory mem.old) }
    ensures went { result ≡ is_on stop.new }
{
    let addr = get(r, i.rs1);
    let size = size_of_access(i.op);
    if addr % u64::from(size) != 0 {
        *stop = Stop::Misaligned;
        return false;
    }
    match mem.load_to(addr, size, stop) {
        Some(old) => {
            let v = arith(i, old, get(r, i.rs2));
            let went = mem.store_to(addr, size, v, stop);
            if went {
                set(r, i.rd, old_value(i.op, old));
                advance(r);
            }
            went
        }
        None => {
            *stop = Stop::Fault(Lack {
                page: addr / 4096,
                access: Access::Write,
            });
            false
        }
    }
}

#[tactic(auto, unfolding(isa_model::specs::Instr::do_am))]
fn run_am<M: UserMem>(r: &mut Regs, mem: &mut M, stop: &mut Stop, i: &AmIns) -> bool
    requires rd { i.now.rd < 32 }
    requires rs1 { i.now.rs1 < 32 }
    requires rs2 { i.now.rs2 < 32 }
    requires on { stop.old ≡ On }
    ensures did { record { regs = r.new; memory = M.memory mem.new; stop = stop.new }
        ≡ do_am (am i.now.op i.now.rd i.now.rs1 i.now.rs2 i.now.order) r.old (M.memory mem.old) }
    ensures went { result ≡ is_on stop.new }
{
    if is_atomic(i.op) {
        return run_atomic(r, mem, stop, i);
    }
    run_arith(r, i);
    true
}

// Does what a word says that is none of RV64I.
pub fn run_am_word<M: UserMem>(r: &mut Regs, mem: &mut M, stop: &mut Stop, w: u32) -> bool
    requires on { stop.old ≡ On }
    ensures did { record { regs = r.new; memory = M.memory mem.new; stop = stop.new }
        ≡ execute_am (am_decoded w) r.old (M.memory mem.old) }
    ensures went { result ≡ is_on stop.new }
{
    match decode(w) {
        Some(i) => run_am(r, mem, stop, &i),
        None => {
            *stop = Stop::Illegal;
            false
        }
    }
}

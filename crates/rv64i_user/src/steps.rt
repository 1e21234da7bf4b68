// One instruction.
ghost use Rattle.std.specs.Prelude.{◌≡◌};
ghost use Rattle.isa_model.specs.declared.stops.Stop.TheVariants.{On};
ghost use Rattle.isa_model.specs.Instr.{instr};
ghost use Rattle.rv64i_user.specs.Stopping.{is_on};

use crate::atomic::run_am_word;
use crate::memory::UserMem;
use crate::running::run;
use isa_model::Stop;
use mck_word::Regs;
use rv_code::decode;

/// Executes one instruction and answers whether it went on. Where it stops, `stop` says how, and registers and memory are as they were.
///
/// For a caller that goes on from there: it copies no `Stop`. The order is the address, the fetch, the word, and what it does.
#[inline(always)]
#[tactic(auto, unfolding(isa_model::specs::Instr::instr))]
pub fn step_to<M: UserMem>(r: &mut Regs, mem: &mut M, stop: &mut Stop) -> bool
    requires on { stop.old ≡ On }
    ensures did { record { regs = r.new; memory = M.memory mem.new; stop = stop.new }
        ≡ instr r.old (M.memory mem.old) }
    ensures went { result ≡ is_on stop.new }
{
    if r.pc % 4 != 0 {
        *stop = Stop::Misaligned;
        return false;
    }
    match mem.fetch(r.pc) {
        Ok(w) => match decode(w) {
            Some(ins) => run(r, mem, stop, &ins.form),
            None => run_am_word(r, mem, stop, w),
        },
        Err(lack) => {
            *stop = Stop::Fault(lack);
            false
        }
    }
}

/// Executes one instruction. Where it stops, registers and memory are as they were.
pub fn step<M: UserMem>(r: &mut Regs, mem: &mut M) -> Stop
    ensures { record { regs = r.new; memory = M.memory mem.new; stop = result }
        ≡ instr r.old (M.memory mem.old) }
{
    let mut stop = Stop::On;
    let _went = step_to(r, mem, &mut stop);
    stop
}

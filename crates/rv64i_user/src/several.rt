// Several instructions.
ghost use Rattle.std.specs.Prelude.{◌≡◌};
ghost use Rattle.rv64i_user.specs.Runs.{instrs, count_on};
ghost use Rattle.isa_model.specs.declared.stops.Stop.TheVariants.{On};

use crate::kept::Kept;
use crate::page_memory::PageMem;
use crate::steps::step_to;
use isa_model::Stop;
use mck_word::Regs;

/// Executes at most `most` instructions, up to and with the first that stops, and answers how many went on.
///
/// The one that stopped has changed nothing; `stop` says how it did, and stays `On` where none stopped.
#[inline(never)]
pub fn run_most<P: PageMem>(r: &mut Regs, mem: &mut Kept<P>, stop: &mut Stop, most: u32) -> u32
    requires on { stop.old ≡ On }
    ensures did { record { regs = r.new; memory = P.memory mem.new.mem; stop = stop.new }
        ≡ instrs most r.old (P.memory mem.old.mem) }
    ensures count { result ≡ count_on most r.old (P.memory mem.old.mem) }
{
    for k in 0..most {
        mem.look(r.pc);
        if !step_to(r, mem, stop) {
            return k;
        }
    }
    most
}

// Instructions of one code page, as slots.
ghost use Rattle.std.specs.Prelude.{◌≡◌, ◌<◌, ◌%◌, ◌/◌};
ghost use Rattle.isa_model.specs.declared.stops.Stop.TheVariants.{On};
ghost use Rattle.rv64i_user.specs.Runs.{Leads};
ghost use Rattle.rv64i_user.specs.Slots.{HasZero};

use crate::kept::Kept;
use crate::known::KnownWords;
use crate::page_memory::PageMem;
use crate::slot_runs::run_slots;
use isa_model::Stop;
use mck_word::Regs;

// Executes at most `most` instructions of the code page that is kept, as long as control is in it and its code is known.
// Answers how many are left to do. A line of 16 words is compared with its slots when control comes to it first. A store into
// the page makes its code unknown, so each line is compared again afterwards.
#[inline(always)]
pub fn run_page<P: PageMem>(
    r: &mut Regs,
    mem: &mut Kept<P>,
    words: &mut KnownWords,
    stop: &mut Stop,
    most: u32,
) -> u32
    requires on { stop.old ≡ On }
    requires zero { HasZero r.old.x }
    requires page { mem.old.page ≡ r.old.pc / 4096 }
    requires aligned { r.old.pc % 4 ≡ 0 }
    requires some { 0 < most }
    ensures leads { Leads most r.old (P.memory mem.old.mem) result r.new (P.memory mem.new.mem) stop.new }
    ensures fewer { stop.new ≡ On → result < most }
{
    let mut pc = r.pc;
    let page = pc / 4096;
    let mut left = most;
    let mut marked = [false; 64];
    while left != 0 && pc / 4096 == page {
        let at = (pc / 4 % 1024) as usize;
        let line = at / 16;
        if !marked[line] {
            words.check_line(line, mem.code());
            marked[line] = true;
        }
        let end = (line * 16 + 16).min(at + left as usize);
        if !run_slots(
            &mut r.x,
            &mut pc,
            mem,
            stop,
            &words.slots,
            at,
            end,
            &mut left,
        ) {
            break;
        }
    }
    r.pc = pc;
    left
}

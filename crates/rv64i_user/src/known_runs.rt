// Instructions executed with those that were decoded before.
ghost use Rattle.std.specs.Prelude.{◌≡◌, ◌<◌, ◌%◌, ◌/◌, true};
ghost use Rattle.isa_model.specs.Instr.{instr};
ghost use Rattle.isa_model.specs.declared.stops.Stop.TheVariants.{On};
ghost use Rattle.rv64i_user.specs.Runs.{Leads, count_on, instrs};
ghost use Rattle.rv64i_user.specs.Slots.{HasZero};
ghost use Rattle.rv64i_user.specs.Stopping.{is_on};

use crate::atomic::run_am_word;
use crate::kept::Kept;
use crate::known::KnownWords;
use crate::memory::UserMem;
use crate::page_memory::PageMem;
use crate::page_runs::run_page;
use crate::running::run;
use isa_model::Stop;
use mck_word::Regs;

/// `step_to` with the instructions that were decoded before. It does the same.
#[inline(always)]
#[tactic(auto, unfolding(isa_model::specs::Instr::instr))]
pub fn step_known<M: UserMem>(
    r: &mut Regs,
    mem: &mut M,
    words: &mut KnownWords,
    stop: &mut Stop,
) -> bool
    requires on { stop.old ≡ On }
    ensures did { record { regs = r.new; memory = M.memory mem.new; stop = stop.new }
        ≡ instr r.old (M.memory mem.old) }
    ensures went { result ≡ is_on stop.new }
{
    if r.pc % 4 != 0 {
        *stop = Stop::Misaligned;
        return false;
    }
    match mem.fetch(r.pc) {
        Ok(w) => match words.form(r.pc, w) {
            Some(form) => run(r, mem, stop, &form),
            None => run_am_word(r, mem, stop, w),
        },
        Err(lack) => {
            *stop = Stop::Fault(lack);
            false
        }
    }
}

// Whether the last instruction went on.
#[inline(always)]
fn went_on(stop: &Stop) -> bool
    ensures { result ≡ is_on stop.now }
{
    match stop {
        Stop::On => true,
        _ => false,
    }
}

// Keeps the code page that control is in; answers whether instructions may run there as slots: register 0 holds 0, and the
// page may be executed.
#[inline(always)]
fn is_in_code<P: PageMem>(r: &Regs, mem: &mut Kept<P>) -> bool
    ensures same { mem.new.mem ≡ mem.old.mem }
    ensures zero { result ≡ true → HasZero r.now.x }
    ensures aligned { result ≡ true → r.now.pc % 4 ≡ 0 }
    ensures page { result ≡ true → mem.new.page ≡ r.now.pc / 4096 }
{
    r.x[0] == 0 && r.pc % 4 == 0 && mem.find_code(r.pc)
}

// Executes some of at most `most` instructions, and at least one that goes on or stops: many where control is in a code
// page, and one in the odd cases. Answers how many are left to do.
#[inline(always)]
fn run_some<P: PageMem>(
    r: &mut Regs,
    mem: &mut Kept<P>,
    words: &mut KnownWords,
    stop: &mut Stop,
    most: u32,
) -> u32
    requires on { stop.old ≡ On }
    requires some { 0 < most }
    ensures leads { Leads most r.old (P.memory mem.old.mem) result r.new (P.memory mem.new.mem) stop.new }
    ensures fewer { stop.new ≡ On → result < most }
{
    if is_in_code(r, mem) {
        return run_page(r, mem, words, stop, most);
    }
    if step_known(r, mem, words, stop) {
        most - 1
    } else {
        most
    }
}

/// `run_most` with the instructions that were decoded before. It does the same, and faster where instructions come again.
#[inline(never)]
pub fn run_known<P: PageMem>(
    r: &mut Regs,
    mem: &mut Kept<P>,
    words: &mut KnownWords,
    stop: &mut Stop,
    most: u32,
) -> u32
    requires on { stop.old ≡ On }
    ensures did { record { regs = r.new; memory = P.memory mem.new.mem; stop = stop.new }
        ≡ instrs most r.old (P.memory mem.old.mem) }
    ensures count { result ≡ count_on most r.old (P.memory mem.old.mem) }
{
    let mut left = most;
    while left != 0 {
        left = run_some(r, mem, words, stop, left);
        if !went_on(stop) {
            return most - left;
        }
    }
    most
}

// Instructions over the pages of a process.
ghost use Rattle.isa_model.specs.declared.stops.Stop.TheVariants.{On};
ghost use Rattle.mck_word.specs.Maps.{at};
ghost use Rattle.one_memory.specs.Counts.{executed_count, stopped_one};
ghost use Rattle.rv64i_user.specs.Runs.{instrs};
ghost use Rattle.std.specs.Prelude.{◌≡◌, ◌≤◌, is_some};

use crate::PageRows;
use mck_word::{Access, Regs};
use rv64i_user::{Kept, KnownWords, PageMem, Stop, run_known};

/// A place of any number has the page that is asked for.
impl PageMem for PageRows {
    ghost memory = { λ s. s.map };

    ghost holds = { λ s k page. is_some (at s.map page) };

    #[inline(always)]
    fn place(&self, page: u64, access: Access) -> Option<usize> {
        if self.has_right(access, page) {
            Some(0)
        } else {
            None
        }
    }

    #[inline(always)]
    fn bytes(&self, k: usize, page: u64) -> &[u8; 4096] {
        self.array(page)
    }

    #[inline(always)]
    fn set_some(&mut self, k: usize, page: u64, off: usize, size: u32, v: u64) {
        self.put_number(page, off, size, v);
    }
}

/// One for an instruction that stopped.
fn stopped(stop: &Stop) -> u32
    ensures { result ≡ stopped_one stop.now }
{
    match stop {
        Stop::On => 0,
        _ => 1,
    }
}

/// Executes at most `most` instructions over the pages, up to and with the first that stops, and hands the pages back with their number.
///
/// The one that stopped is counted and has changed nothing else; `stop` says how it did, and stays `On` where none stopped.
pub fn run(
    regs: &mut Regs,
    memory: PageRows,
    known: &mut KnownWords,
    most: u32,
    stop: &mut Stop,
) -> (PageRows, u32)
    requires { stop.old ≡ On }
    ensures did { record { regs = regs.new; memory = result.0.map; stop = stop.new } ≡ instrs most regs.old memory.map }
    ensures count { result.1 ≡ executed_count most regs.old memory.map }
    ensures most { result.1 ≤ most }
{
    let mut kept = Kept::over(memory);
    let went = run_known(regs, &mut kept, known, stop, most);
    (kept.into_mem(), went + stopped(stop))
}

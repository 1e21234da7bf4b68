// Instructions over the pages of a space.
ghost use Rattle.isa_model.specs.declared.stops.Stop.TheVariants.{On};
ghost use Rattle.lwk_run.specs.Counts.{executed_count, stopped_one};
ghost use Rattle.lwk_run.specs.Lent.{Stays, StoredTo};
ghost use Rattle.lwk_space.specs.Lacks.{memory};
ghost use Rattle.lwk_space.specs.Rows.{FramesApart, FramesIn};
ghost use Rattle.rv64i_user.specs.Runs.{instrs};
ghost use Rattle.std.specs.Prelude.{◌≡◌, ◌≤◌};

use crate::pages::{Begun, Frames, UserPages};
use frame_mem::FrameMem;
use lwk_space::Space;
use mck_word::Regs;
use page_map::PageTable;
use rv64i_user::{Kept, KnownWords, Stop, run_known};
use std::marker::Brand;

// One for an instruction that stopped.
fn stopped(stop: &Stop) -> u32
    ensures { result ≡ stopped_one stop.now }
{
    match stop {
        Stop::On => 0,
        _ => 1,
    }
}

// The run over lent frames, which are handed back.
fn run_lent<'f, T: PageTable, B: Begun>(
    regs: &mut Regs,
    space: &Space<T>,
    frames: Frames<'f>,
    known: &mut KnownWords,
    most: u32,
    stop: &mut Stop,
) -> (u32, Frames<'f>)
    requires on { stop.old ≡ On }
    requires rows { T.rows space.now.table ≡ B.rows }
    requires frames { frames.mem.now ≡ B.frames }
    requires name { frames.mem.ghost_name ≡ B.name }
    requires inside { FramesIn B.rows B.frames }
    requires apart { FramesApart B.rows }
    ensures did { record { regs = regs.new; memory = memory B.rows result.1.mem.now; stop = stop.new } ≡ instrs most regs.old (memory B.rows B.frames) }
    ensures count { result.0 ≡ executed_count most regs.old (memory B.rows B.frames) }
    ensures most { result.0 ≤ most }
    ensures stays { Stays B.rows B.frames result.1.mem.now }
    ensures stored { StoredTo B.rows B.frames result.1.mem.now }
    ensures name { result.1.mem.ghost_name ≡ B.name }
{
    let pages: UserPages<'_, 'f, T, B> = UserPages::over(space, frames);
    let mut mem = Kept::over(pages);
    let went = run_known(regs, &mut mem, known, stop, most);
    (went + stopped(stop), mem.into_mem().into_frames())
}

/// Executes at most `most` instructions over the pages of a space, up to and with the first that stops, and answers how many.
///
/// The one that stopped is counted and has changed nothing else; `stop` says how it did, and stays `On` where none stopped.
pub fn run<T: PageTable>(
    regs: &mut Regs,
    space: &Space<T>,
    frames: &mut FrameMem,
    known: &mut KnownWords,
    most: u32,
    stop: &mut Stop,
) -> u32
    requires on { stop.old ≡ On }
    requires inside { FramesIn (T.rows space.now.table) frames.old }
    requires apart { FramesApart (T.rows space.now.table) }
    ensures did { record { regs = regs.new; memory = memory (T.rows space.now.table) frames.new; stop = stop.new } ≡ instrs most regs.old (memory (T.rows space.now.table) frames.old) }
    ensures count { result ≡ executed_count most regs.old (memory (T.rows space.now.table) frames.old) }
    ensures most { result ≤ most }
    ensures stays { Stays (T.rows space.now.table) frames.old frames.new }
    ensures stored { StoredTo (T.rows space.now.table) frames.old frames.new }
{
    let (count, Frames { mem: _ }) = run_lent::<T, Brand>(
        regs,
        space,
        Frames { mem: frames },
        known,
        most,
        stop,
    );
    count
}

// What the calls on a space ask for, tested where they run.
ghost use Rattle.lwk_space.specs.Rows.{AbsentIn, FramesIn, PresentIn};
ghost use Rattle.mck_word.specs.Maps.{at};
ghost use Rattle.std.specs.Prelude.{◌≡◌, ◌≤◌, ◌<◌, ◌^◌, IsTrue, length};

use frame_mem::FrameMem;
use frame_pool::FramePool;
use lwk_space::Space;
use mck_flags::Rights;
use mck_word::PageRange;
use page_map::PageTable;

/// Whether no page of the range has a row.
pub fn all_absent<T: PageTable>(table: &T, r: &PageRange) -> bool
    ensures { IsTrue result → AbsentIn (T.rows table.now) r.now }
{
    for page in r.lo..r.hi {
        if table.get(page).is_some() {
            return false;
        }
    }
    true
}

/// Whether each page of the range has a row.
pub fn all_present<T: PageTable>(table: &T, r: &PageRange) -> bool
    ensures { IsTrue result → PresentIn (T.rows table.now) r.now }
{
    for page in r.lo..r.hi {
        if table.get(page).is_none() {
            return false;
        }
    }
    true
}

/// Whether each frame that the table has is one of the memory's.
pub fn frames_in<T: PageTable>(table: &T, mem: &FrameMem) -> bool
    ensures { IsTrue result → FramesIn (T.rows table.now) mem.now }
{
    let mut from = 0;
    while let Some(page) = table.next(from) {
        if let Some((f, _)) = table.get(page) {
            if f.0 as usize >= mem.len() {
                return false;
            }
            from = page + 1;
        } else {
            return false;
        }
    }
    true
}

/// Maps a range where its pages are absent and the frames and the memory suffice.
pub fn map_new<T: PageTable>(
    space: &mut Space<T>,
    r: PageRange,
    rights: Rights,
    mem: &mut FrameMem,
    pool: &mut FramePool,
) -> bool
    requires { pool.old.frames ≡ length mem.old }
    ensures { pool.new.frames ≡ length mem.new }
{
    let fits = r.lo <= r.hi && r.hi <= 1 << 27 && r.hi - r.lo <= pool.free();
    if fits
        && space.make_room(&[r]).is_ok()
        && space.reserve(1).is_ok()
        && all_absent(space.table(), &r)
    {
        space.map(&r, rights, mem, pool);
        true
    } else {
        false
    }
}

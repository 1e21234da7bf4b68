// Pages added to a table with the bytes of a part of an image.
ghost use Rattle.kernel_model.specs.Pages.{pages_count};
ghost use Rattle.kernel_model.specs.Spaces.{each_in};
ghost use Rattle.lwk_space.specs.Fills.{fill_page, placed};
ghost use Rattle.lwk_space.specs.Frames.{space};
ghost use Rattle.lwk_space.specs.Rows.{AbsentIn, LiesIn, RoomFor};
ghost use Rattle.mck_word.specs.Maps.{at};
ghost use Rattle.mck_word.specs.Pages.{in_range};
ghost use Rattle.mck_word.specs.declared.PageRange.{PageRange as range};
ghost use Rattle.std.specs.Prelude.{◌≡◌, ◌≤◌, ◌<◌, ◌^◌, ◌||◌, ℕ, List, is_some, length, slice_set};

use frame_mem::FrameMem;
use frame_pool::FramePool;
use mck_flags::Rights;
use mck_word::{Frame, PageRange};
use page_map::PageTable;

/// Gives a frame the bytes of a page: those from the address `start` on that lie in the page, and zeros.
fn fill_frame(mem: &mut FrameMem, f: Frame, page: u64, start: u64, bytes: &[u8])
    requires frame { f.0 < length mem.old }
    requires below { page < 2 ^ 27 }
    ensures { mem.new ≡ slice_set mem.old f.0 (placed start bytes.now page) }
{
    let low = page * 4096;
    let off = start.saturating_sub(low).min(4096) as usize;
    let from = low.saturating_sub(start).min(bytes.len() as u64) as usize;
    let len = (bytes.len() - from).min(4096 - off);
    mem.zero(f);
    mem.copy_in(f, off as u32, &bytes[from..from + len]);
}

/// Adds the pages of a range at the lowest free frames, with the bytes from the address `start` on and zeros around them.
pub fn fill_pages<T: PageTable>(
    table: &mut T,
    r: &PageRange,
    rights: Rights,
    start: u64,
    bytes: &[u8],
    mem: &mut FrameMem,
    pool: &mut FramePool,
)
    requires order { r.now.lo ≤ r.now.hi }
    requires below { r.now.hi ≤ 2 ^ 27 }
    requires absent { AbsentIn (T.rows table.old) r.now }
    requires room { RoomFor (T.has_room table.old) r.now }
    requires enough { pages_count r.now ≤ length pool.old.free }
    requires frames { pool.old.frames ≡ length mem.old }
    ensures after { space (T.rows table.new) mem.new pool.new ≡ each_in (fill_page rights start bytes.now) r.now (space (T.rows table.old) mem.old pool.old) }
    ensures pages { (p : ℕ) → is_some (at (T.rows table.new) p) ≡ (is_some (at (T.rows table.old) p) || in_range r.now p) }
    ensures keeps { (rs : List range) → LiesIn r.now rs → T.has_room table.old rs → T.has_room table.new rs }
    ensures pool { pool.new.frames ≡ pool.old.frames }
    ensures mem { length mem.new ≡ length mem.old }
{
    for page in r.lo..r.hi {
        let Some(f) = pool.take() else {
            unreachable!();
        };
        fill_frame(mem, f, page, start, bytes);
        table.insert(page, f, rights);
    }
}

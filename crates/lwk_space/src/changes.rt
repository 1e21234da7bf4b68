// Pages of a table added, dropped and protected, one by one.
ghost use Rattle.frame_pool.specs.Pools.{Pool};
ghost use Rattle.hybrid_model.specs.Spaces.{add_page, drop_page, protect_page};
ghost use Rattle.kernel_model.specs.Pages.{pages_count};
ghost use Rattle.kernel_model.specs.Spaces.{each_in};
ghost use Rattle.lwk_space.specs.Frames.{space};
ghost use Rattle.lwk_space.specs.Rows.{AbsentIn, FramesApart, FramesTaken, LiesIn, PresentIn, RoomFor};
ghost use Rattle.mck_word.specs.Maps.{Map, at};
ghost use Rattle.mck_word.specs.Pages.{in_range};
ghost use Rattle.mck_word.specs.declared.PageRange.{PageRange as range};
ghost use Rattle.std.specs.Prelude.{◌≡◌, ◌≤◌, ◌<◌, ◌+◌, ◌^◌, ◌||◌, ◌&&◌, ℕ, List, is_some, length, not};

use frame_mem::FrameMem;
use frame_pool::FramePool;
use mck_flags::Rights;
use mck_word::PageRange;
use page_map::PageTable;

/// Adds the pages of a range, zero, at the lowest free frames.
pub fn add_pages<T: PageTable>(
    table: &mut T,
    r: &PageRange,
    rights: Rights,
    mem: &mut FrameMem,
    pool: &mut FramePool,
)
    requires order { r.now.lo ≤ r.now.hi }
    requires below { r.now.hi ≤ 2 ^ 27 }
    requires absent { AbsentIn (T.rows table.old) r.now }
    requires room { RoomFor (T.has_room table.old) r.now }
    requires enough { pages_count r.now ≤ length pool.old.free }
    requires frames { pool.old.frames ≡ length mem.old }
    ensures after { space (T.rows table.new) mem.new pool.new ≡ each_in (add_page rights) r.now (space (T.rows table.old) mem.old pool.old) }
    ensures pages { (p : ℕ) → is_some (at (T.rows table.new) p) ≡ (is_some (at (T.rows table.old) p) || in_range r.now p) }
    ensures keeps { (rs : List range) → LiesIn r.now rs → T.has_room table.old rs → T.has_room table.new rs }
    ensures pool { pool.new.frames ≡ pool.old.frames }
    ensures mem { length mem.new ≡ length mem.old }
{
    for page in r.lo..r.hi {
        let Some(f) = pool.take() else {
            unreachable!();
        };
        mem.zero(f);
        table.insert(page, f, rights);
    }
}

/// Drops the pages of a range that are present, and gives their frames back.
pub fn drop_pages<T: PageTable>(table: &mut T, r: &PageRange, pool: &mut FramePool)
    requires order { r.now.lo ≤ r.now.hi }
    requires taken { FramesTaken (T.rows table.old) pool.old }
    requires apart { FramesApart (T.rows table.old) }
    ensures after { (pages : List (List ℕ)) → space (T.rows table.new) pages pool.new ≡ each_in drop_page r.now (space (T.rows table.old) pages pool.old) }
    ensures pages { (p : ℕ) → is_some (at (T.rows table.new) p) ≡ (is_some (at (T.rows table.old) p) && not (in_range r.now p)) }
    ensures keeps { (rs : List range) → T.has_room table.old rs → T.has_room table.new rs }
    ensures pool { pool.new.frames ≡ pool.old.frames }
{
    let mut from = r.lo;
    while let Some(page) = table.next(from) {
        if page >= r.hi {
            break;
        }
        let f = table.remove(page);
        pool.give(f);
        from = page + 1;
    }
}

/// Gives the pages of a range other rights.
pub fn protect_pages<T: PageTable>(table: &mut T, r: &PageRange, rights: Rights)
    requires order { r.now.lo ≤ r.now.hi }
    requires present { PresentIn (T.rows table.old) r.now }
    ensures after { (pages : List (List ℕ)) (pool : Pool) → space (T.rows table.new) pages pool ≡ each_in (protect_page rights) r.now (space (T.rows table.old) pages pool) }
    ensures pages { (p : ℕ) → is_some (at (T.rows table.new) p) ≡ is_some (at (T.rows table.old) p) }
    ensures keeps { (rs : List range) → T.has_room table.old rs → T.has_room table.new rs }
{
    for page in r.lo..r.hi {
        table.set_rights(page, rights);
    }
}

// A copy of the pages of a table, and of a space.
ghost use Rattle.hybrid_model.specs.Spaces.{copied_pages};
ghost use Rattle.lwk_space.specs.Copies.{HasCopyRoom, RoomForRows};
ghost use Rattle.lwk_space.specs.Frames.{space};
ghost use Rattle.lwk_space.specs.Lacks.{memory};
ghost use Rattle.lwk_space.specs.Rows.{FramesIn, FramesTaken};
ghost use Rattle.mck_word.specs.Maps.{at, count, entries, no_rows};
ghost use Rattle.page_map.specs.Tables.{AreRanges};
ghost use Rattle.std.specs.Prelude.{◌≡◌, ◌≤◌, ◌<◌, ℕ, OnOk, [], is_some, length, slice_index_or, slice_set};

use crate::Space;
use frame_mem::FrameMem;
use frame_pool::FramePool;
use mck_word::{Frame, NoMemory, PageRange};
use page_map::PageTable;

/// Copies the bytes of a frame to another one.
fn copy_frame(mem: &mut FrameMem, from: Frame, to: Frame)
    requires from { from.0 < length mem.old }
    requires to { to.0 < length mem.old }
    ensures { mem.new ≡ slice_set mem.old to.0 (slice_index_or mem.old from.0 []) }
{
    let mut bytes = [0; 4096];
    mem.copy_out(from, 0, &mut bytes);
    mem.copy_in(to, 0, &bytes);
}

/// Copies the pages of a table into one that has none, from the lowest page on, each to the lowest free frame, with its rights.
fn copy_pages<T: PageTable>(from: &T, table: &mut T, mem: &mut FrameMem, pool: &mut FramePool)
    requires empty { T.rows table.old ≡ no_rows }
    requires room { RoomForRows (T.has_room table.old) (T.rows from.now) }
    requires inside { FramesIn (T.rows from.now) mem.old }
    requires taken { FramesTaken (T.rows from.now) pool.old }
    requires enough { count (T.rows from.now) ≤ length pool.old.free }
    requires frames { pool.old.frames ≡ length mem.old }
    ensures after { space (T.rows table.new) mem.new pool.new ≡ copied_pages (entries (memory (T.rows from.now) mem.old)) (space no_rows mem.old pool.old) }
    ensures pages { (p : ℕ) → is_some (at (T.rows table.new) p) ≡ is_some (at (T.rows from.now) p) }
    ensures inside { FramesIn (T.rows table.new) mem.new }
    ensures pool { pool.new.frames ≡ pool.old.frames }
    ensures mem { length mem.new ≡ length mem.old }
{
    let mut low = 0;
    while let Some(page) = from.next(low) {
        let Some((f, rights)) = from.get(page) else {
            unreachable!();
        };
        let Some(to) = pool.take() else {
            unreachable!();
        };
        copy_frame(mem, f, to);
        table.insert(page, to, rights);
        low = page + 1;
    }
}

/// How many pages a table has.
fn count_rows<T: PageTable>(table: &T) -> u64
    ensures { result ≡ count (T.rows table.now) }
{
    let mut pages = 0;
    let mut from = 0;
    while let Some(page) = table.next(from) {
        // A page that is present is below 2^27.
        let _row = table.get(page);
        pages += 1;
        from = page + 1;
    }
    pages
}

impl<T: PageTable> Space<T> {
    /// How many pages there are.
    pub fn count_pages(&self) -> u64
        ensures { result ≡ count (T.rows self.now.table) }
    {
        count_rows(&self.table)
    }

    /// The mapped pages as ranges. They end at 2^27 at most, since the last page of each has a row.
    fn mapped(&self) -> &[PageRange]
        ensures same { result.now ≡ self.now.areas.ranges }
        ensures are { AreRanges result.now }
    {
        let ranges = self.areas.ranges();
        if let Some(last) = ranges.last() {
            let _row = self.table.get(last.hi - 1);
        }
        ranges
    }

    /// Makes room for a copy of another space. The pages stay, also where memory lacks.
    pub fn reserve_copy(&mut self, from: &Space<T>) -> Result<(), NoMemory>
        ensures same { T.rows self.new.table ≡ T.rows self.old.table }
        ensures ranges { self.new.areas.ranges ≡ self.old.areas.ranges }
        ensures brk { self.new.areas.program_break ≡ self.old.areas.program_break }
        ensures room { OnOk result (HasCopyRoom T.rows T.has_room from.now self.new) }
    {
        self.table.reserve(from.mapped())?;
        self.areas.reserve_copy(&from.areas)
    }

    /// Copies the pages of another space into this one, which has none: from the lowest page on, each to the lowest free frame, with its
    /// rights and its bytes. It has the other's break.
    pub fn copy_space(&mut self, from: &Space<T>, mem: &mut FrameMem, pool: &mut FramePool)
        requires empty { T.rows self.old.table ≡ no_rows }
        requires room { HasCopyRoom T.rows T.has_room from.now self.old }
        requires inside { FramesIn (T.rows from.now.table) mem.old }
        requires taken { FramesTaken (T.rows from.now.table) pool.old }
        requires enough { count (T.rows from.now.table) ≤ length pool.old.free }
        requires frames { pool.old.frames ≡ length mem.old }
        ensures after { space (T.rows self.new.table) mem.new pool.new ≡ copied_pages (entries (memory (T.rows from.now.table) mem.old)) (space no_rows mem.old pool.old) }
        ensures areas { self.new.areas.ranges ≡ from.now.areas.ranges }
        ensures brk { self.new.areas.program_break ≡ from.now.areas.program_break }
        ensures inside { FramesIn (T.rows self.new.table) mem.new }
        ensures pool { pool.new.frames ≡ pool.old.frames }
        ensures mem { length mem.new ≡ length mem.old }
    {
        // No page is mapped here, so there is no range.
        let _ranges = self.areas.ranges();
        copy_pages(&from.table, &mut self.table, mem, pool);
        self.areas.copy_from(&from.areas);
    }
}

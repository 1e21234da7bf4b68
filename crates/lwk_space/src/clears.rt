// A space emptied, whose frames come free.
ghost use Rattle.hybrid_model.specs.Spaces.{freed};
ghost use Rattle.lwk_space.specs.Rows.{FramesApart, FramesTaken};
ghost use Rattle.mck_word.specs.Maps.{no_rows};
ghost use Rattle.std.specs.Prelude.{◌≡◌, []};

use crate::Space;
use frame_pool::FramePool;
use page_map::PageTable;
use std::alloc::Global;
use vm_areas::Areas;

/// Takes the pages out of the table, from the lowest on, and gives their frames back.
fn clear_pages<T: PageTable>(table: &mut T, pool: &mut FramePool)
    requires taken { FramesTaken (T.rows table.old) pool.old }
    requires apart { FramesApart (T.rows table.old) }
    ensures rows { T.rows table.new ≡ no_rows }
    ensures free { pool.new.free ≡ freed (T.rows table.old) pool.old.free }
    ensures pool { pool.new.frames ≡ pool.old.frames }
{
    while let Some(page) = table.next(0) {
        let f = table.remove(page);
        pool.give(f);
    }
}

impl<T: PageTable> Space<T> {
    /// Takes all pages out, and gives their frames back. No page is mapped then, and the break is 0. It can't fail.
    pub fn clear(&mut self, alloc: Global, pool: &mut FramePool)
        requires taken { FramesTaken (T.rows self.old.table) pool.old }
        requires apart { FramesApart (T.rows self.old.table) }
        ensures rows { T.rows self.new.table ≡ no_rows }
        ensures areas { self.new.areas ≡ record { ranges = []; spare = 0; program_break = 0 } }
        ensures free { pool.new.free ≡ freed (T.rows self.old.table) pool.old.free }
        ensures pool { pool.new.frames ≡ pool.old.frames }
    {
        clear_pages(&mut self.table, pool);
        self.areas = Areas::new(alloc);
    }
}

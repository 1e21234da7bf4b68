// A space with room for the pages of a guest.
ghost use Rattle.job_model.specs.Images.{IsImage};
ghost use Rattle.kernel_model.specs.Layout.{heap_base_of};
ghost use Rattle.lwk_boot.specs.Rooms.{HasRoom, LieIn};
ghost use Rattle.mck_word.specs.Maps.{no_rows};
ghost use Rattle.page_map.specs.Tables.{AreRanges};
ghost use Rattle.std.specs.Prelude.{◌≡◌, ◌≤◌, ◌+◌, IfOk, length};

use crate::order::next_segment;
use crate::sizes::{heap_base, segment_range};
use job_model::Image;
use lwk_space::Space;
use mck_word::{NoMemory, PageRange};
use page_map::PageTable;
use std::alloc::Global;

/// The ranges of a guest's pages in rising order.
fn guest_ranges(alloc: Global, image: &Image) -> Result<Vec<PageRange>, NoMemory>
    requires { IsImage image.now }
    ensures rise { IfOk result (λ rs. AreRanges rs.items) }
    ensures lie { IfOk result (λ rs. LieIn image.now.segments rs.items) }
{
    let segments = image.segments.as_slice();
    let mut ranges = Vec::new(alloc);
    let mut from = 0;
    while let Some(k) = next_segment(segments, from) {
        let range = segment_range(&segments[k]);
        from = range.hi;
        ranges.push(range)?;
    }
    ranges.push(PageRange {
        lo: 0x3ff_ffef,
        hi: 0x400_0000,
    })?;
    Ok(ranges)
}

/// An empty space with room for a guest's pages, and its break.
pub fn made_room<T: PageTable + Drop>(alloc: Global, image: &Image) -> Result<Space<T>, NoMemory>
    requires { IsImage image.now }
    ensures empty { IfOk result (λ s. T.rows s.table ≡ no_rows) }
    ensures room { IfOk result (λ s. HasRoom (T.has_room s.table) image.now.segments) }
    ensures spare { IfOk result (λ s. length image.now.segments + 3 ≤ s.areas.spare) }
    ensures brk { IfOk result (λ s. s.areas.program_break ≡ heap_base_of image.now) }
{
    let ranges = guest_ranges(alloc, image)?;
    let mut space = Space::new(alloc, T::empty(alloc)?);
    space.make_room(&ranges)?;
    space.reserve(image.segments.len() as u32 + 3)?;
    space.set_brk(heap_base(image));
    Ok(space)
}

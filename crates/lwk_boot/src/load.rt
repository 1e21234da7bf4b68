// A guest's pages put in, in rising order.
ghost use Rattle.hybrid_model.specs.Spaces.{copied_pages};
ghost use Rattle.isa_model.specs.Memory.{Memory};
ghost use Rattle.job_model.specs.Images.{IsImage};
ghost use Rattle.kernel_model.specs.Layout.{guest_memory, heap_base_of, needed_frames};
ghost use Rattle.kernel_model.specs.Pages.{pages_count};
ghost use Rattle.lwk_boot.specs.Guests.{AreArguments, HasSegments, from_page, stack_first};
ghost use Rattle.lwk_boot.specs.Loads.{HasIn, HasTop, NoneFrom};
ghost use Rattle.lwk_boot.specs.Order.{left, pages_each};
ghost use Rattle.lwk_boot.specs.Rooms.{HasRoom};
ghost use Rattle.lwk_space.specs.Frames.{space};
ghost use Rattle.lwk_space.specs.Rows.{LiesIn, RoomFor};
ghost use Rattle.mck_word.specs.Maps.{entries, no_rows};
ghost use Rattle.mck_word.specs.declared.PageRange.{PageRange as range};
ghost use Rattle.std.specs.Prelude.{◌≡◌, ◌≤◌, ◌+◌, ◌^◌, List, IfOk, OnErr, OnOk, length};

use crate::order::next_segment;
use crate::room::made_room;
use crate::sizes::segment_range;
use crate::stack::{TOP_ADDRESS, stack_top};
use frame_mem::FrameMem;
use frame_pool::FramePool;
use job_model::Image;
use lwk_space::Space;
use mck_flags::Rights;
use mck_word::{Bytes, NoMemory, PageRange};
use page_map::PageTable;
use std::alloc::Global;

/// The pages of the stack but its last one.
const STACK: PageRange = PageRange {
    lo: 0x3ff_ffef,
    hi: 0x3ff_fffe,
};

/// The stack's last page.
const STACK_LAST: PageRange = PageRange {
    lo: 0x3ff_fffe,
    hi: 0x3ff_ffff,
};

/// The trampoline's page.
const TRAMPOLINE: PageRange = PageRange {
    lo: 0x3ff_ffff,
    hi: 0x400_0000,
};

/// The address of the trampoline.
const TRAMPOLINE_ADDRESS: u64 = 0x3f_ffff_f000;

/// Maps a range that lies behind all pages that are there, at the lowest free frames.
fn map_next<T: PageTable>(
    guest: &mut Space<T>,
    r: &PageRange,
    rights: Rights,
    start: u64,
    bytes: &[u8],
    mem: &mut FrameMem,
    pool: &mut FramePool,
)
    requires spare { 1 ≤ guest.old.areas.spare }
    requires order { r.now.lo ≤ r.now.hi }
    requires below { r.now.hi ≤ 2 ^ 27 }
    requires behind { NoneFrom (T.rows guest.old.table) r.now.lo }
    requires room { RoomFor (T.has_room guest.old.table) r.now }
    requires enough { pages_count r.now ≤ length pool.old.free }
    requires frames { pool.old.frames ≡ length mem.old }
    ensures left { (m : Memory) → HasIn r.now rights start bytes.now m → copied_pages (entries (from_page m r.now.lo)) (space (T.rows guest.old.table) mem.old pool.old) ≡ copied_pages (entries (from_page m r.now.hi)) (space (T.rows guest.new.table) mem.new pool.new) }
    ensures behind { NoneFrom (T.rows guest.new.table) r.now.hi }
    ensures free { length pool.new.free + pages_count r.now ≡ length pool.old.free }
    ensures brk { guest.new.areas.program_break ≡ guest.old.areas.program_break }
    ensures spare { guest.old.areas.spare ≤ guest.new.areas.spare + 1 }
    ensures keeps { (rs : List range) → LiesIn r.now rs → T.has_room guest.old.table rs → T.has_room guest.new.table rs }
    ensures pool { pool.new.frames ≡ pool.old.frames }
    ensures mem { length mem.new ≡ length mem.old }
{
    guest.map_bytes(r, rights, start, bytes, mem, pool);
}

/// Puts the segments in.
fn load_segments<T: PageTable>(
    guest: &mut Space<T>,
    image: &Image,
    mem: &mut FrameMem,
    pool: &mut FramePool,
)
    requires image { IsImage image.now }
    requires empty { T.rows guest.old.table ≡ no_rows }
    requires room { HasRoom (T.has_room guest.old.table) image.now.segments }
    requires spare { length image.now.segments + 3 ≤ guest.old.areas.spare }
    requires enough { left pages_each 0 image.now.segments + 17 ≤ length pool.old.free }
    requires frames { pool.old.frames ≡ length mem.old }
    ensures left { (m : Memory) → HasSegments image.now.segments m → copied_pages (entries m) (space (T.rows guest.old.table) mem.old pool.old) ≡ copied_pages (entries (from_page m stack_first)) (space (T.rows guest.new.table) mem.new pool.new) }
    ensures behind { NoneFrom (T.rows guest.new.table) stack_first }
    ensures room { HasRoom (T.has_room guest.new.table) image.now.segments }
    ensures spare { 3 ≤ guest.new.areas.spare }
    ensures free { length pool.new.free + left pages_each 0 image.now.segments ≡ length pool.old.free }
    ensures brk { guest.new.areas.program_break ≡ guest.old.areas.program_break }
    ensures pool { pool.new.frames ≡ pool.old.frames }
    ensures mem { length mem.new ≡ length mem.old }
{
    let segments = image.segments.as_slice();
    let mut from = 0;
    while let Some(k) = next_segment(segments, from) {
        let s = &segments[k];
        let range = segment_range(s);
        map_next(
            guest,
            &range,
            s.rights,
            s.addr,
            s.bytes.as_slice(),
            mem,
            pool,
        );
        from = range.hi;
    }
}

/// Puts the stack and the trampoline in.
fn load_top<T: PageTable>(
    guest: &mut Space<T>,
    image: &Image,
    arguments: &[Bytes],
    mem: &mut FrameMem,
    pool: &mut FramePool,
)
    requires arguments { AreArguments arguments.now }
    requires behind { NoneFrom (T.rows guest.old.table) stack_first }
    requires room { HasRoom (T.has_room guest.old.table) image.now.segments }
    requires spare { 3 ≤ guest.old.areas.spare }
    requires enough { 17 ≤ length pool.old.free }
    requires frames { pool.old.frames ≡ length mem.old }
    ensures left { (m : Memory) → HasTop image.now arguments.now m → copied_pages (entries (from_page m stack_first)) (space (T.rows guest.old.table) mem.old pool.old) ≡ space (T.rows guest.new.table) mem.new pool.new }
    ensures free { length pool.new.free + 17 ≡ length pool.old.free }
    ensures brk { guest.new.areas.program_break ≡ guest.old.areas.program_break }
    ensures pool { pool.new.frames ≡ pool.old.frames }
    ensures mem { length mem.new ≡ length mem.old }
{
    let top = stack_top(image, arguments);
    map_next(guest, &STACK, Rights(3), 0, &[], mem, pool);
    map_next(guest, &STACK_LAST, Rights(3), TOP_ADDRESS, &top, mem, pool);
    map_next(
        guest,
        &TRAMPOLINE,
        Rights(5),
        TRAMPOLINE_ADDRESS,
        &[0x93, 0x08, 0xb0, 0x08, 0x73, 0, 0, 0],
        mem,
        pool,
    );
}

/// The space of a guest: its pages in rising order, each at the lowest free frame. Where memory for the table lacks, no frame has changed.
pub fn load_guest<T: PageTable + Drop>(
    alloc: Global,
    image: &Image,
    arguments: &[Bytes],
    mem: &mut FrameMem,
    pool: &mut FramePool,
) -> Result<Space<T>, NoMemory>
    requires image { IsImage image.now }
    requires arguments { AreArguments arguments.now }
    requires enough { needed_frames image.now ≤ length pool.old.free }
    requires frames { pool.old.frames ≡ length mem.old }
    ensures loaded { IfOk result (λ s. space (T.rows s.table) mem.new pool.new ≡ copied_pages (entries (guest_memory image.now arguments.now)) (space no_rows mem.old pool.old)) }
    ensures brk { IfOk result (λ s. s.areas.program_break ≡ heap_base_of image.now) }
    ensures used { OnOk result (length pool.new.free + needed_frames image.now ≡ length pool.old.free) }
    ensures pool { pool.new.frames ≡ pool.old.frames }
    ensures mem { length mem.new ≡ length mem.old }
    ensures same_mem { OnErr result (mem.new ≡ mem.old) }
    ensures same_pool { OnErr result (pool.new ≡ pool.old) }
{
    let mut guest = made_room(alloc, image)?;
    load_segments(&mut guest, image, mem, pool);
    load_top(&mut guest, image, arguments, mem, pool);
    Ok(guest)
}

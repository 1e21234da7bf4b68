// A guest's memory at the boot.
ghost use Rattle.isa_model.specs.Memory.{Memory};
ghost use Rattle.job_model.specs.Images.{IsImage, IsSegment};
ghost use Rattle.kernel_model.specs.Layout.{add_segment, add_stack, add_trampoline, guest_memory, heap_base_of, page_with, segment_page};
ghost use Rattle.kernel_model.specs.Pages.{pages_count, pages_in, pages_of, zero_page};
ghost use Rattle.mck_word.specs.Maps.{put};
ghost use Rattle.one_memory.specs.Guests.{AreArguments};
ghost use Rattle.one_memory.specs.Pages.{written};
ghost use Rattle.std.specs.Prelude.{◌≡◌, ◌≤◌, ◌<◌, ◌+◌, ◌^◌, ℕ, All, IfOk, OnOk, fold, length};

use crate::PageRows;
use crate::stack::put_top;
use job_model::{Image, Segment};
use mck_flags::Rights;
use mck_word::{Bytes, NoMemory, PageRange};
use std::alloc::Global;

/// The pages of the stack.
const STACK: PageRange = PageRange {
    lo: 0x3ff_ffef,
    hi: 0x3ff_ffff,
};

/// The trampoline's page.
const TRAMPOLINE: u64 = 0x3ff_ffff;

/// How many pages the stack and the trampoline have.
const TOP_PAGES: usize = 17;

/// The pages of a segment.
fn segment_range(s: &Segment) -> PageRange
    requires { IsSegment s.now }
    ensures pages { result ≡ pages_of s.now.addr s.now.mem }
    ensures order { result.lo ≤ result.hi }
    ensures below { result.hi ≤ 2 ^ 27 }
{
    PageRange {
        lo: s.addr / 4096,
        hi: (s.addr + s.mem + 4095) / 4096,
    }
}

/// Adds a page of a segment.
fn add_page(memory: &mut PageRows, s: &Segment, page: u64)
    requires room { 1 ≤ memory.old.spare }
    requires below { page < 2 ^ 27 }
    ensures page { memory.new.map ≡ put memory.old.map page (page_with s.now.rights (segment_page s.now page)) }
    ensures spare { memory.new.spare + 1 ≡ memory.old.spare }
{
    let low = page * 4096;
    let bytes = s.bytes.as_slice();
    let off = s.addr.saturating_sub(low).min(4096) as usize;
    let from = low.saturating_sub(s.addr).min(bytes.len() as u64) as usize;
    let len = (bytes.len() - from).min(4096 - off);
    memory.add_page(page, s.rights, off, &bytes[from..from + len]);
}

/// Adds the pages of a segment that lie in a range.
fn add_pages(memory: &mut PageRows, s: &Segment, r: &PageRange)
    requires room { pages_count r.now ≤ memory.old.spare }
    requires below { r.now.hi ≤ 2 ^ 27 }
    ensures { memory.new.map ≡ fold (λ (m : Memory) page. put m page (page_with s.now.rights (segment_page s.now page))) memory.old.map (pages_in r.now) }
{
    for page in r.lo..r.hi {
        add_page(memory, s, page);
    }
}

/// Adds the pages of the segments.
fn load_segments(memory: &mut PageRows, alloc: Global, segments: &[Segment]) -> Result<(), NoMemory>
    requires { All IsSegment segments.now }
    ensures { OnOk result (memory.new.map ≡ fold add_segment memory.old.map segments.now) }
{
    let mut rest = segments;
    while let Some((s, more)) = rest.split_first() {
        let pages = segment_range(s);
        memory.reserve(alloc, (pages.hi - pages.lo) as usize)?;
        add_pages(memory, s, &pages);
        rest = more;
    }
    Ok(())
}

/// Adds the pages of the stack, which are zero.
fn add_stack(memory: &mut PageRows)
    requires { 16 ≤ memory.old.spare }
    ensures stack { memory.new.map ≡ add_stack memory.old.map }
    ensures spare { memory.new.spare + 16 ≡ memory.old.spare }
{
    for page in STACK.lo..STACK.hi {
        memory.add_page(page, Rights(3), 0, &[]);
    }
}

/// Adds the trampoline.
fn add_trampoline(memory: &mut PageRows)
    requires { 1 ≤ memory.old.spare }
    ensures { memory.new.map ≡ add_trampoline memory.old.map }
{
    let code = [0x93, 0x08, 0xb0, 0x08, 0x73, 0, 0, 0];
    memory.add_page(TRAMPOLINE, Rights(5), 0, &code);
}

/// The memory of a guest at the boot: its image, its stack with the arguments, and the trampoline.
pub fn guest_memory(alloc: Global, image: &Image, arguments: &[Bytes]) -> Result<PageRows, NoMemory>
    requires image { IsImage image.now }
    requires arguments { AreArguments arguments.now }
    ensures { IfOk result (λ memory. memory.map ≡ guest_memory image.now arguments.now) }
{
    let mut memory = PageRows::new(alloc);
    load_segments(&mut memory, alloc, image.segments.as_slice())?;
    memory.reserve(alloc, TOP_PAGES)?;
    add_stack(&mut memory);
    add_trampoline(&mut memory);
    put_top(&mut memory, alloc, image, arguments)?;
    Ok(memory)
}

/// Where the heap of a guest begins: the highest end of a segment, rounded up to a page.
pub fn heap_base(image: &Image) -> u64
    requires { IsImage image.now }
    ensures { result ≡ heap_base_of image.now }
{
    let mut end = 0;
    for s in image.segments.as_slice() {
        end = end.max(s.addr + s.mem);
    }
    (end + 4095) / 4096 * 4096
}

impl PageRows {
    /// Puts a page in, in place of the one that is there: zero but for these bytes from an offset on.
    pub fn add_page(&mut self, page: u64, rights: Rights, off: usize, bytes: &[u8])
        requires room { 1 ≤ self.old.spare }
        requires below { page < 2 ^ 27 }
        requires inside { off + length bytes.now ≤ 4096 }
        ensures page { self.new.map ≡ put self.old.map page (record { rights = rights; bytes = written zero_page off bytes.now }) }
        ensures spare { self.new.spare + 1 ≡ self.old.spare }
    {
        let Some(mut row) = self.free.pop() else {
            unreachable!();
        };
        row.clear(rights);
        row.copy_in(off, bytes);
        self.rows.put(page, row);
    }
}

// How many frames a guest needs, and where its heap begins.
ghost use Rattle.job_model.specs.Images.{IsImage, IsSegment};
ghost use Rattle.kernel_model.specs.Layout.{heap_base_of, needed_frames};
ghost use Rattle.kernel_model.specs.Pages.{pages_of};
ghost use Rattle.std.specs.Prelude.{◌≡◌};

use job_model::{Image, Segment};
use mck_word::PageRange;

/// The pages of the stack and the trampoline's.
const TOP_PAGES: u64 = 17;

/// The pages of a segment.
pub fn segment_range(s: &Segment) -> PageRange
    requires { IsSegment s.now }
    ensures { result ≡ pages_of s.now.addr s.now.mem }
{
    PageRange {
        lo: s.addr / 4096,
        hi: (s.addr + s.mem + 4095) / 4096,
    }
}

/// How many frames a guest's boot needs.
pub fn needed_frames(image: &Image) -> u64
    requires { IsImage image.now }
    ensures { result ≡ needed_frames image.now }
{
    let mut needed = TOP_PAGES;
    for s in image.segments.as_slice() {
        let pages = segment_range(s);
        needed += pages.hi - pages.lo;
    }
    needed
}

/// Where the heap of a guest begins: the highest end of a segment, rounded up to a page.
pub fn heap_base(image: &Image) -> u64
    requires { IsImage image.now }
    ensures { result ≡ heap_base_of image.now }
{
    let mut end = 0;
    for s in image.segments.as_slice() {
        end = end.max(s.addr + s.mem);
    }
    (end + 4095) / 4096 * 4096
}

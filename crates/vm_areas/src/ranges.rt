// Ranges that rise: one more, one less, and the highest gap.
ghost use Rattle.mck_word.specs.Pages.{in_ranges};
ghost use Rattle.std.specs.Prelude.{◌≡◌, ◌+◌, ◌<◌, ◌≤◌, [], ◌++◌, length, vec_len};
ghost use Rattle.std.specs.Vec.{vec_capacity};
ghost use Rattle.vm_areas.specs.Gaps.{IsHighestGap};
ghost use Rattle.vm_areas.specs.Ranges.{Rises, piece, with_range, without};

use mck_word::PageRange;

/// The ranges with one more.
pub fn cover_into(ranges: &[PageRange], r: PageRange, out: &mut Vec<PageRange>)
    requires empty { out.old.items ≡ [] }
    requires room { length ranges.now + 1 ≤ vec_capacity out.old }
    ensures items { out.new.items ≡ with_range r ranges.now }
    ensures capacity { vec_capacity out.new ≡ vec_capacity out.old }
{
    let mut joined = r;
    let mut placed = false;
    for x in ranges {
        if placed || x.hi < joined.lo {
            out.push_reserved(*x);
        } else if joined.hi < x.lo {
            out.push_reserved(joined);
            out.push_reserved(*x);
            placed = true;
        } else {
            joined = PageRange {
                lo: joined.lo.min(x.lo),
                hi: joined.hi.max(x.hi),
            };
        }
    }
    if !placed {
        out.push_reserved(joined);
    }
}

fn push_piece(out: &mut Vec<PageRange>, lo: u64, hi: u64)
    requires { length (out.old.items ++ piece lo hi) ≤ vec_capacity out.old }
    ensures items { out.new.items ≡ out.old.items ++ piece lo hi }
    ensures capacity { vec_capacity out.new ≡ vec_capacity out.old }
{
    if lo < hi {
        out.push_reserved(PageRange { lo, hi });
    }
}

/// The ranges without the pages of one.
pub fn split_into(ranges: &[PageRange], r: PageRange, out: &mut Vec<PageRange>)
    requires empty { out.old.items ≡ [] }
    requires some { r.lo < r.hi }
    requires rises { Rises 0 ranges.now }
    requires room { length ranges.now + 1 ≤ vec_capacity out.old }
    ensures items { out.new.items ≡ without r ranges.now }
    ensures capacity { vec_capacity out.new ≡ vec_capacity out.old }
{
    for x in ranges {
        push_piece(out, x.lo, x.hi.min(r.lo));
        push_piece(out, x.lo.max(r.hi), x.hi);
    }
}

/// The lowest page of a gap, and the page above the highest one.
const LOWEST: u64 = 0x10;

const HIGHEST: u64 = 0x3f0_0000;

/// The first page of the highest gap.
pub fn highest_gap(ranges: &[PageRange], pages: u64) -> Option<u64>
    requires some { 1 ≤ pages }
    requires rises { Rises 0 ranges.now }
    ensures { IsHighestGap (in_ranges ranges.now) pages result }
{
    let mut high = HIGHEST;
    let mut left = ranges.len();
    while left > 0 {
        let x = ranges[left - 1];
        if x.hi.saturating_add(pages) <= high {
            break;
        }
        high = high.min(x.lo);
        left -= 1;
    }
    if pages.saturating_add(LOWEST) <= high {
        Some(high - pages)
    } else {
        None
    }
}

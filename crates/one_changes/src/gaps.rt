// The highest gap for a call that maps anywhere.
ghost use Rattle.kernel_model.specs.CallPhases.{argument};
ghost use Rattle.kernel_model.specs.MemoryCalls.{highest_gap};
ghost use Rattle.kernel_model.specs.Pages.{page_end};
ghost use Rattle.one_changes.specs.Between.{gap_between};
ghost use Rattle.std.specs.Option.{ForSome};
ghost use Rattle.std.specs.Prelude.{◌≡◌, ◌+◌, ◌<◌, ◌≤◌, ◌^◌, option_map, true};
ghost use Rattle.vm_calls.specs.Deciding.{looks_for_gap};

use one_memory::PageRows;
use system_calls::MemoryCall;

/// The lowest page that may be mapped.
const LOWEST: u64 = 0x10;

/// The first page above all gaps.
const HIGHEST: u64 = 0x3f0_0000;

/// The first page at or above an address.
pub fn page_end(a: u64) -> u64
    ensures { result ≡ page_end a }
{
    if a % 4096 == 0 {
        a / 4096
    } else {
        a / 4096 + 1
    }
}

/// Whether the call is an mmap of some bytes without FIXED for which there are frames.
fn looks_for_gap(free: u64, call: MemoryCall, args: &[u64; 6]) -> bool
    ensures { result ≡ looks_for_gap free call args.now }
{
    let fixed = args[3] % (1 << 32) / 16 % 2 == 1;
    matches!(call, MemoryCall::Mmap) && args[1] != 0 && !fixed && page_end(args[1]) <= free
}

/// The first of so many pages that end at `end`, where they begin at `low` or above.
fn gap_between(low: u64, end: u64, pages: u64) -> Option<u64>
    requires { low ≤ end }
    ensures { result ≡ gap_between low end pages }
{
    if pages <= end - low {
        Some(end - pages)
    } else {
        None
    }
}

/// The first page of the highest gap of so many pages: looked for between each present page and the next one above it,
/// from the top.
fn highest_gap(memory: &PageRows, pages: u64) -> Option<u64>
    ensures low { ForSome result (λ low. low < 2 ^ 52) }
    ensures gap { option_map (λ low. low + pages) result ≡ highest_gap memory.now.map pages }
{
    let mut end = HIGHEST;
    while let Some(page) = memory.last_below(end) {
        if page < LOWEST {
            break;
        }
        let gap = gap_between(page + 1, end, pages);
        if gap.is_some() {
            return gap;
        }
        end = page;
    }
    gap_between(LOWEST, end, pages)
}

/// The first page of the highest gap, where the call looks for one.
pub fn gap_for(memory: &PageRows, free: u64, call: MemoryCall, args: &[u64; 6]) -> Option<u64>
    ensures low { ForSome result (λ low. low < 2 ^ 52) }
    ensures gap { looks_for_gap free call args.now ≡ true → option_map (λ low. low + page_end (argument args.now 1)) result ≡ highest_gap memory.now.map (page_end (argument args.now 1)) }
{
    if looks_for_gap(free, call, args) {
        highest_gap(memory, page_end(args[1]))
    } else {
        None
    }
}

// The highest gap for a call that maps anywhere.
ghost use Rattle.isa_model.specs.Memory.{Memory};
ghost use Rattle.kernel_model.specs.CallPhases.{argument};
ghost use Rattle.kernel_model.specs.MemoryCalls.{highest_gap};
ghost use Rattle.kernel_model.specs.Pages.{page_end};
ghost use Rattle.lwk_changes.specs.Shows.{Shows};
ghost use Rattle.std.specs.Option.{ForSome};
ghost use Rattle.std.specs.Prelude.{◌≡◌, ◌+◌, ◌<◌, ◌≤◌, ◌^◌, option_map, true};
ghost use Rattle.vm_calls.specs.Deciding.{looks_for_gap};

use lwk_space::Space;
use page_map::PageTable;
use system_calls::MemoryCall;

/// The first page at or above an address.
fn page_end(a: u64) -> u64
    ensures { result ≡ page_end a }
{
    if a % 4096 == 0 {
        a / 4096
    } else {
        a / 4096 + 1
    }
}

/// Whether the call is an mmap of some bytes without FIXED for which there are frames.
fn looks_for_gap(free: u64, call: MemoryCall, args: &[u64; 6]) -> bool
    ensures { result ≡ looks_for_gap free call args.now }
{
    let fixed = args[3] % (1 << 32) / 16 % 2 == 1;
    matches!(call, MemoryCall::Mmap) && args[1] != 0 && !fixed && page_end(args[1]) <= free
}

/// The first page of the highest gap of so many pages.
fn highest_gap<T: PageTable>(own: &Space<T>, pages: u64) -> Option<u64>
    requires { 1 ≤ pages }
    ensures low { ForSome result (λ low. low < 2 ^ 52) }
    ensures gap { (m : Memory) → Shows (T.rows own.now.table) m → option_map (λ low. low + pages) result ≡ highest_gap m pages }
{
    own.areas_agree();
    own.areas().gap(pages)
}

/// The first page of the highest gap, where the call looks for one.
pub fn gap_for<T: PageTable>(
    own: &Space<T>,
    free: u64,
    call: MemoryCall,
    args: &[u64; 6],
) -> Option<u64>
    ensures low { ForSome result (λ low. low < 2 ^ 52) }
    ensures gap { (m : Memory) → Shows (T.rows own.now.table) m → looks_for_gap free call args.now ≡ true → option_map (λ low. low + page_end (argument args.now 1)) result ≡ highest_gap m (page_end (argument args.now 1)) }
{
    if looks_for_gap(free, call, args) {
        highest_gap(own, page_end(args[1]))
    } else {
        None
    }
}

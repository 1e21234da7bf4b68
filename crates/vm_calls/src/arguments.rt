// The arguments of the memory calls.
ghost use Rattle.kernel_model.specs.MemoryCalls.{is_inside, range_for, rights_of_prot};
ghost use Rattle.kernel_model.specs.Pages.{page_end};
ghost use Rattle.std.specs.Prelude.{◌≡◌, ◌≤◌};
ghost use Rattle.vm_calls.specs.Deciding.{heap_range};

use mck_flags::Rights;
use mck_word::PageRange;

/// The lowest address that may be mapped, and the first above all that may be.
const LOWEST: u64 = 0x10000;

const HIGHEST: u64 = 0x3f_ffff_f000;

/// The first page at or above an address.
pub fn page_end(a: u64) -> u64
    ensures { result ≡ page_end a }
{
    if a % 4096 == 0 {
        a / 4096
    } else {
        a / 4096 + 1
    }
}

/// Whether the pages of the range lie inside the bounds.
pub fn is_inside(address: u64, len: u64) -> bool
    ensures { result ≡ is_inside address len }
{
    LOWEST <= address && address <= HIGHEST && page_end(len) <= (HIGHEST - address) / 4096
}

/// The pages from an address on, for so many bytes.
pub fn range_for(address: u64, len: u64) -> PageRange
    ensures { result ≡ range_for address len }
{
    let lo = address / 4096;
    PageRange {
        lo,
        hi: lo + page_end(len),
    }
}

/// The pages between a break and another one.
pub fn heap_range(old: u64, new: u64) -> PageRange
    ensures { result ≡ heap_range old new }
{
    if new < old {
        PageRange {
            lo: page_end(new),
            hi: page_end(old),
        }
    } else {
        PageRange {
            lo: page_end(old),
            hi: page_end(new),
        }
    }
}

/// The rights of PROT bits: a page with the write right also has the read right.
#[tactic(auto, unfolding(kernel_model::specs::MemoryCalls::rights_of_prot))]
pub fn rights_of(prot: u64) -> Rights
    ensures { result ≡ rights_of_prot prot }
{
    let write = prot / 2 % 2 == 1;
    let exec = prot / 4 % 2 == 1;
    let read = prot % 2 == 1 || write;
    Rights((if read { 1 } else { 0 }) + (if write { 2 } else { 0 }) + (if exec { 4 } else { 0 }))
}

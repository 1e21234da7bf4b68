// The present pages of a range, counted, and whether one of them would lose a right.
ghost use Rattle.isa_model.specs.Memory.{Memory};
ghost use Rattle.kernel_model.specs.MemoryCalls.{any_lessened, count_present, lacks_of, lessens, rights_of_prot};
ghost use Rattle.lwk_changes.specs.Shows.{Shows, lessened_in};
ghost use Rattle.mck_word.specs.Maps.{at};
ghost use Rattle.std.specs.Prelude.{◌≡◌};
ghost use Rattle.system_calls.specs.declared.MemoryCall.TheVariants.{Mprotect};

use isa_model::allows;
use mck_flags::Rights;
use mck_word::{Access, PageRange};
use page_map::PageTable;
use system_calls::MemoryCall;

/// How many pages of the range are present.
pub fn count_present<T: PageTable>(table: &T, r: &PageRange) -> u64
    ensures { (m : Memory) → Shows (T.rows table.now) m → result ≡ count_present m r.now }
{
    let mut count = 0;
    let mut from = r.lo;
    while let Some(page) = table.next(from) {
        if page >= r.hi {
            break;
        }
        count += 1;
        from = page + 1;
    }
    count
}

fn lacks_of(old: Rights, new: Rights, a: Access) -> bool
    ensures { result ≡ lacks_of old new a }
{
    allows(a, old) && !allows(a, new)
}

/// Whether the new rights lack one of the old ones.
fn lessens(old: Rights, new: Rights) -> bool
    ensures { result ≡ lessens old new }
{
    lacks_of(old, new, Access::Read)
        || lacks_of(old, new, Access::Write)
        || lacks_of(old, new, Access::Exec)
}

/// Whether the page is present and would lose a right.
fn is_lessened<T: PageTable>(table: &T, page: u64, rights: Rights) -> bool
    ensures { result ≡ lessened_in (at (T.rows table.now) page) rights }
{
    match table.get(page) {
        Some(row) => lessens(row.1, rights),
        None => false,
    }
}

/// Whether a page of the range would lose a right.
fn lessens_any<T: PageTable>(table: &T, r: &PageRange, rights: Rights) -> bool
    ensures { (m : Memory) → Shows (T.rows table.now) m → result ≡ any_lessened m r.now rights }
{
    let mut from = r.lo;
    while let Some(page) = table.next(from) {
        if page >= r.hi {
            break;
        }
        if is_lessened(table, page, rights) {
            return true;
        }
        from = page + 1;
    }
    false
}

/// Whether the call is an mprotect by which a page of the range would lose a right.
pub fn call_lessens<T: PageTable>(
    table: &T,
    call: MemoryCall,
    r: &PageRange,
    rights: Rights,
) -> bool
    ensures { (m : Memory) → Shows (T.rows table.now) m → call ≡ Mprotect → result ≡ any_lessened m r.now rights }
{
    match call {
        MemoryCall::Mprotect => lessens_any(table, r, rights),
        MemoryCall::Mmap | MemoryCall::Munmap | MemoryCall::Brk => false,
    }
}

/// The rights of PROT bits: a page with the write right also has the read right.
#[tactic(auto, unfolding(kernel_model::specs::MemoryCalls::rights_of_prot))]
pub fn rights_of(prot: u64) -> Rights
    ensures { result ≡ rights_of_prot prot }
{
    let write = prot / 2 % 2 == 1;
    let exec = prot / 4 % 2 == 1;
    let read = prot % 2 == 1 || write;
    Rights((if read { 1 } else { 0 }) + (if write { 2 } else { 0 }) + (if exec { 4 } else { 0 }))
}

// The present pages of a range, counted, and whether one of them would lose a right.
ghost use Rattle.kernel_model.specs.MemoryCalls.{any_lessened, count_present, lacks_of, lessens, rights_of_prot};
ghost use Rattle.mck_word.specs.Maps.{at};
ghost use Rattle.one_changes.specs.Lessened.{lessened_in};
ghost use Rattle.std.specs.Prelude.{◌≡◌};
ghost use Rattle.system_calls.specs.declared.MemoryCall.TheVariants.{Mprotect};

use isa_model::allows;
use mck_flags::Rights;
use mck_word::{Access, PageRange};
use one_memory::PageRows;
use system_calls::MemoryCall;

/// How many pages of the range are present.
pub fn count_present(memory: &PageRows, r: &PageRange) -> u64
    ensures { result ≡ count_present memory.now.map r.now }
{
    let mut count = 0;
    let mut from = r.lo;
    while let Some(page) = memory.next(from) {
        if page >= r.hi {
            break;
        }
        count += 1;
        from = page + 1;
    }
    count
}

fn lacks_of(old: Rights, new: Rights, a: Access) -> bool
    ensures { result ≡ lacks_of old new a }
{
    allows(a, old) && !allows(a, new)
}

/// Whether the new rights lack one of the old ones.
fn lessens(old: Rights, new: Rights) -> bool
    ensures { result ≡ lessens old new }
{
    lacks_of(old, new, Access::Read)
        || lacks_of(old, new, Access::Write)
        || lacks_of(old, new, Access::Exec)
}

/// Whether the page is present and would lose a right.
fn is_lessened(memory: &PageRows, page: u64, rights: Rights) -> bool
    ensures { result ≡ lessened_in (at memory.now.map page) rights }
{
    match memory.rights(page) {
        Some(old) => lessens(old, rights),
        None => false,
    }
}

/// Whether a page of the range would lose a right.
fn lessens_any(memory: &PageRows, r: &PageRange, rights: Rights) -> bool
    ensures { result ≡ any_lessened memory.now.map r.now rights }
{
    let mut from = r.lo;
    while let Some(page) = memory.next(from) {
        if page >= r.hi {
            break;
        }
        if is_lessened(memory, page, rights) {
            return true;
        }
        from = page + 1;
    }
    false
}

/// Whether the call is an mprotect by which a page of the range would lose a right.
pub fn call_lessens(memory: &PageRows, call: MemoryCall, r: &PageRange, rights: Rights) -> bool
    ensures { call ≡ Mprotect → result ≡ any_lessened memory.now.map r.now rights }
{
    match call {
        MemoryCall::Mprotect => lessens_any(memory, r, rights),
        MemoryCall::Mmap | MemoryCall::Munmap | MemoryCall::Brk => false,
    }
}

/// The rights of PROT bits: a page with the write right also has the read right.
#[tactic(auto, unfolding(kernel_model::specs::MemoryCalls::rights_of_prot))]
pub fn rights_of(prot: u64) -> Rights
    ensures { result ≡ rights_of_prot prot }
{
    let write = prot / 2 % 2 == 1;
    let exec = prot / 4 % 2 == 1;
    let read = prot % 2 == 1 || write;
    Rights((if read { 1 } else { 0 }) + (if write { 2 } else { 0 }) + (if exec { 4 } else { 0 }))
}

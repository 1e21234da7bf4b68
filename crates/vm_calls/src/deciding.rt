// The memory calls over the facts.
ghost use Rattle.kernel_model.specs.MemoryCalls.{Decision};
ghost use Rattle.std.specs.Prelude.{◌≡◌, ◌<◌, ◌≤◌, ◌^◌};
ghost use Rattle.std.specs.Option.{ForSome};
ghost use Rattle.vm_calls.specs.Facts.{Closes, decision, refusal};
ghost use Rattle.vm_calls.specs.Deciding.{brk_by, decided, finished, mmap_anywhere, mmap_by, mmap_fixed, mprotect_by, munmap_by, protect_by};

use crate::arguments::{is_inside, page_end, range_for, rights_of};
use crate::{AtEnd, Facts, VmPlan};
use kernel_model::Change;
use mck_flags::Rights;
use mck_word::PageRange;
use system_calls::MemoryCall;
use system_calls::errors::{EINVAL, ENOMEM};

/// How far a break may be above the heap's base, in bytes.
const MOST_HEAP: u64 = 0x400_0000;

fn mmap_fixed(f: &Facts, range: PageRange, rights: Rights) -> VmPlan
    requires { range.lo ≤ range.hi }
    ensures closing { Closes f.now result }
    ensures decides { decision result ≡ mmap_fixed f.now range rights }
{
    if f.present > 0 {
        VmPlan::Round(range, Change::Map { range, rights })
    } else if f.free < range.hi - range.lo {
        VmPlan::Reply(ENOMEM)
    } else {
        VmPlan::Now(Change::Map { range, rights })
    }
}

fn mmap_anywhere(f: &Facts, pages: u64, rights: Rights) -> VmPlan
    requires gap { ForSome f.now.gap (λ low. low < 2 ^ 52) }
    requires few { pages ≤ 2 ^ 52 }
    ensures closing { Closes f.now result }
    ensures decides { decision result ≡ mmap_anywhere f.now pages rights }
{
    if f.free < pages {
        return VmPlan::Reply(ENOMEM);
    }
    match f.gap {
        Some(lo) => {
            let range = PageRange { lo, hi: lo + pages };
            VmPlan::Now(Change::Map { range, rights })
        }
        None => VmPlan::Reply(ENOMEM),
    }
}

fn mmap(f: &Facts, address: u64, len: u64, prot: u64, flags: u64) -> VmPlan
    requires gap { ForSome f.now.gap (λ low. low < 2 ^ 52) }
    ensures closing { Closes f.now result }
    ensures decides { decision result ≡ mmap_by f.now address len prot flags }
{
    let fixed = flags / 16 % 2 == 1;
    if len == 0
        || prot > 7
        || flags % 4 != 2
        || flags / 32 % 2 != 1
        || (fixed && (address % 4096 != 0 || !is_inside(address, len)))
    {
        VmPlan::Reply(EINVAL)
    } else if fixed {
        mmap_fixed(f, range_for(address, len), rights_of(prot))
    } else {
        mmap_anywhere(f, page_end(len), rights_of(prot))
    }
}

fn munmap(f: &Facts, address: u64, len: u64) -> VmPlan
    ensures closing { Closes f.now result }
    ensures decides { decision result ≡ munmap_by f.now address len }
{
    if address % 4096 != 0 || len == 0 || !is_inside(address, len) {
        VmPlan::Reply(EINVAL)
    } else if f.present > 0 {
        let range = range_for(address, len);
        VmPlan::Round(range, Change::Unmap(range))
    } else {
        VmPlan::Reply(0)
    }
}

fn protect(f: &Facts, range: PageRange, rights: Rights) -> VmPlan
    requires { range.lo ≤ range.hi }
    ensures closing { Closes f.now result }
    ensures decides { decision result ≡ protect_by f.now range rights }
{
    if f.lessens {
        VmPlan::Round(range, Change::Protect { range, rights })
    } else if f.present == range.hi - range.lo {
        VmPlan::Now(Change::Protect { range, rights })
    } else {
        VmPlan::Reply(ENOMEM)
    }
}

fn mprotect(f: &Facts, address: u64, len: u64, prot: u64) -> VmPlan
    ensures closing { Closes f.now result }
    ensures decides { decision result ≡ mprotect_by f.now address len prot }
{
    if address % 4096 != 0 || prot > 7 {
        VmPlan::Reply(EINVAL)
    } else if len == 0 {
        VmPlan::Reply(0)
    } else if !is_inside(address, len) {
        VmPlan::Reply(ENOMEM)
    } else {
        protect(f, range_for(address, len), rights_of(prot))
    }
}

fn brk(f: &Facts, a: u64) -> VmPlan
    requires small { f.now.brk < 2 ^ 63 }
    requires heap { f.now.base < 2 ^ 63 }
    ensures closing { Closes f.now result }
    ensures decides { decision result ≡ brk_by f.now a }
{
    if a < f.base || f.base + MOST_HEAP < a {
        VmPlan::Reply(f.brk as i64)
    } else if a < f.brk {
        if f.present > 0 {
            let range = PageRange {
                lo: page_end(a),
                hi: (f.base + MOST_HEAP) / 4096,
            };
            VmPlan::Round(range, Change::Brk(a))
        } else {
            VmPlan::Now(Change::Brk(a))
        }
    } else if f.present > 0 || f.free < page_end(a) - page_end(f.brk) {
        VmPlan::Reply(f.brk as i64)
    } else {
        VmPlan::Now(Change::Brk(a))
    }
}

/// What a call decides.
pub fn decide(f: &Facts, call: MemoryCall, args: &[u64; 6]) -> VmPlan
    requires small { f.now.brk < 2 ^ 63 }
    requires heap { f.now.base < 2 ^ 63 }
    requires gap { ForSome f.now.gap (λ low. low < 2 ^ 52) }
    ensures closing { Closes f.now result }
    ensures decides { decision result ≡ decided f.now call args.now }
{
    match call {
        MemoryCall::Mmap => mmap(
            f,
            args[0],
            args[1],
            args[2] % (1 << 32),
            args[3] % (1 << 32),
        ),
        MemoryCall::Munmap => munmap(f, args[0], args[1]),
        MemoryCall::Mprotect => mprotect(f, args[0], args[1], args[2] % (1 << 32)),
        MemoryCall::Brk => brk(f, args[0]),
    }
}

/// What is decided at the end of a round.
pub fn at_end(f: &Facts, c: &Change) -> AtEnd
    requires { f.now.brk < 2 ^ 63 }
    ensures { refusal result ≡ finished f.now c.now }
{
    match *c {
        Change::Map { range, .. } => {
            if f.free.saturating_add(f.present) < range.hi.saturating_sub(range.lo) {
                AtEnd::Reply(ENOMEM)
            } else {
                AtEnd::Make
            }
        }
        Change::Unmap(_) => AtEnd::Make,
        Change::Protect { range, .. } => {
            if f.present == range.hi.saturating_sub(range.lo) {
                AtEnd::Make
            } else {
                AtEnd::Reply(ENOMEM)
            }
        }
        Change::Brk(a) => {
            if a < f.brk {
                AtEnd::Make
            } else {
                AtEnd::Reply(f.brk as i64)
            }
        }
    }
}

// Loads and stores that find the place of their page once.
ghost use Rattle.std.specs.Prelude.{◌≡◌, ℕ, true};
ghost use Rattle.isa_model.specs.declared.stops.Stop.TheVariants.{On};
ghost use Rattle.isa_model.specs.Memory.{IsSize, loaded, stored};
ghost use Rattle.rv64i_user.specs.Stopping.{is_on, load_case, store_outcome};

use crate::across;
use crate::page_memory::PageMem;
use crate::page_numbers::some_bytes;
use isa_model::{Lack, Stop};
use mck_word::Access;

#[cold]
#[inline(never)]
fn load_across<P: PageMem>(m: &P, addr: u64, size: u32, stop: &mut Stop) -> Option<u64>
    requires size { IsSize size }
    requires on { stop.old ≡ On }
    ensures { (result, stop.new) ≡ load_case (loaded (P.memory m.now) addr size) }
{
    match across::read(m, Access::Read, addr, size) {
        Ok(v) => Some(v),
        Err(lack) => {
            *stop = Stop::Fault(lack);
            None
        }
    }
}

// A load, with its fault put into `stop`.
#[inline(always)]
pub fn load_to<P: PageMem>(m: &P, addr: u64, size: u32, stop: &mut Stop) -> Option<u64>
    requires size { IsSize size }
    requires on { stop.old ≡ On }
    ensures { (result, stop.new) ≡ load_case (loaded (P.memory m.now) addr size) }
{
    let page = addr / 4096;
    let off = (addr % 4096) as usize;
    if off + size as usize > 4096 {
        return load_across(m, addr, size, stop);
    }
    match m.place(page, Access::Read) {
        Some(k) => Some(some_bytes(m.bytes(k, page), off, size)),
        None => {
            *stop = Stop::Fault(Lack {
                page,
                access: Access::Read,
            });
            None
        }
    }
}

#[cold]
#[inline(never)]
fn store_across<P: PageMem>(m: &mut P, addr: u64, size: u32, v: u64, stop: &mut Stop) -> bool
    requires size { IsSize size }
    requires on { stop.old ≡ On }
    ensures stored { (stop.new, P.memory m.new) ≡ store_outcome (stored (P.memory m.old) addr size v) }
    ensures went { result ≡ is_on stop.new }
    ensures held { (j p : ℕ) → P.holds m.old j p ≡ true → P.holds m.new j p ≡ true }
{
    match across::store(m, addr, size, v) {
        Ok(()) => true,
        Err(lack) => {
            *stop = Stop::Fault(lack);
            false
        }
    }
}

// A store, with its fault put into `stop`; answers whether it was made.
#[inline(always)]
pub fn store_to<P: PageMem>(m: &mut P, addr: u64, size: u32, v: u64, stop: &mut Stop) -> bool
    requires size { IsSize size }
    requires on { stop.old ≡ On }
    ensures stored { (stop.new, P.memory m.new) ≡ store_outcome (stored (P.memory m.old) addr size v) }
    ensures went { result ≡ is_on stop.new }
    ensures held { (j p : ℕ) → P.holds m.old j p ≡ true → P.holds m.new j p ≡ true }
{
    let page = addr / 4096;
    let off = (addr % 4096) as usize;
    if off + size as usize > 4096 {
        return store_across(m, addr, size, v, stop);
    }
    match m.place(page, Access::Write) {
        Some(k) => {
            m.set_some(k, page, off, size, v);
            true
        }
        None => {
            *stop = Stop::Fault(Lack {
                page,
                access: Access::Write,
            });
            false
        }
    }
}

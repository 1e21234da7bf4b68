// A memory with the place of the last code page kept.
ghost use Rattle.std.specs.Prelude.{◌≡◌, ◌<◌, ◌/◌, ◌^◌, Some, true, false};
ghost use Rattle.mck_word.specs.declared.Access.TheVariants.{Exec};
ghost use Rattle.isa_model.specs.Memory.{IsSize, fetched, lacks, stored};
ghost use Rattle.isa_model.specs.declared.stops.Stop.TheVariants.{On};
ghost use Rattle.rv64i_user.specs.Places.{bytes_of};
ghost use Rattle.rv64i_user.specs.Stopping.{store_outcome};

use crate::memory::UserMem;
use crate::page_memory::PageMem;
use crate::page_numbers::four;
use crate::{across, in_page};
use isa_model::{Lack, Stop};
use mck_word::Access;

/// A memory of places as instructions use it, with the place of the last code page kept.
///
/// `look` at an instruction's address makes its fetch cheap; without it, each call answers the same.
pub struct Kept<P: PageMem> {
    mem: P,
    // The code page, or 2^64 - 1 for none, which is no page's number.
    page: u64,
    place: usize,
    ghost held: { page < 2 ^ 52 → P.holds mem place page ≡ true },
    ghost may: { page < 2 ^ 52 → lacks (P.memory mem) Exec page ≡ false },
}

#[cold]
#[inline(never)]
fn fetch_elsewhere<P: PageMem>(m: &P, pc: u64) -> Result<u32, Lack>
    ensures { result ≡ fetched (P.memory m.now) pc }
{
    match across::read(m, Access::Exec, pc, 4) {
        Ok(w) => Ok(w as u32),
        Err(lack) => Err(lack),
    }
}

impl<P: PageMem> Kept<P> {
    /// Over a memory, with no page kept.
    pub fn over(mem: P) -> Self
        ensures { result.mem ≡ mem }
    {
        Kept {
            mem,
            page: u64::MAX,
            place: 0,
        }
    }

    /// The memory.
    pub fn into_mem(self) -> P
        ensures { result ≡ self.mem }
    {
        let Kept {
            mem,
            page: _,
            place: _,
        } = self;
        mem
    }

    /// Keeps the place of the code page of an address, if it may be executed.
    #[inline(always)]
    pub fn look(&mut self, pc: u64)
        ensures same { self.new.mem ≡ self.old.mem }
        ensures kept { lacks (P.memory self.old.mem) Exec (pc / 4096) ≡ false → self.new.page ≡ pc / 4096 }
    {
        let page = pc / 4096;
        if page != self.page {
            if let Some(k) = self.mem.place(page, Access::Exec) {
                self.page = page;
                self.place = k;
            }
        }
    }

    /// Keeps the place of the code page of an address; answers whether it may be executed.
    #[inline(always)]
    pub fn find_code(&mut self, pc: u64) -> bool
        ensures same { self.new.mem ≡ self.old.mem }
        ensures kept { result ≡ true → self.new.page ≡ pc / 4096 }
    {
        self.look(pc);
        self.page == pc / 4096
    }

    /// The bytes of the code page that is kept.
    #[inline(always)]
    pub fn code(&self) -> &[u8; 4096]
        requires { self.now.page < 2 ^ 52 }
        ensures { bytes_of (P.memory self.now.mem) self.now.page ≡ Some result.now }
    {
        self.mem.bytes(self.place, self.page)
    }

    /// A store, with its fault put into `stop`; answers whether it was made within one page that isn't the code page.
    #[inline(always)]
    pub fn store_aside(&mut self, addr: u64, size: u32, v: u64, stop: &mut Stop) -> bool
        requires size { IsSize size }
        requires on { stop.old ≡ On }
        ensures stored { (stop.new, P.memory self.new.mem) ≡ store_outcome (stored (P.memory self.old.mem) addr size v) }
        ensures page { self.new.page ≡ self.old.page }
        ensures on { result ≡ true → stop.new ≡ On }
        ensures aside { result ≡ true → bytes_of (P.memory self.new.mem) self.old.page ≡ bytes_of (P.memory self.old.mem) self.old.page }
    {
        let went = in_page::store_to(&mut self.mem, addr, size, v, stop);
        let inside = (addr % 4096) as usize + size as usize <= 4096;
        went && inside && addr / 4096 != self.page
    }
}

impl<P: PageMem> UserMem for Kept<P> {
    ghost memory = { λ s. P.memory s.mem };

    #[inline(always)]
    fn fetch(&self, pc: u64) -> Result<u32, Lack> {
        let page = pc / 4096;
        let off = (pc % 4096) as usize;
        if page == self.page && off <= 4092 {
            return Ok(four(self.mem.bytes(self.place, page), off));
        }
        fetch_elsewhere(&self.mem, pc)
    }

    fn load(&self, addr: u64, size: u32) -> Result<u64, Lack> {
        across::read(&self.mem, Access::Read, addr, size)
    }

    fn store(&mut self, addr: u64, size: u32, v: u64) -> Result<(), Lack> {
        across::store(&mut self.mem, addr, size, v)
    }

    #[inline(always)]
    fn load_to(&self, addr: u64, size: u32, stop: &mut Stop) -> Option<u64> {
        in_page::load_to(&self.mem, addr, size, stop)
    }

    #[inline(always)]
    fn store_to(&mut self, addr: u64, size: u32, v: u64, stop: &mut Stop) -> bool {
        in_page::store_to(&mut self.mem, addr, size, v, stop)
    }
}

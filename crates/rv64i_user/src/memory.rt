// What an instruction asks of memory.
ghost use Rattle.std.specs.Prelude.{◌≡◌};
ghost use Rattle.isa_model.specs.declared.stops.Stop.TheVariants.{On};
ghost use Rattle.isa_model.specs.Memory.{Memory, IsSize, fetched, loaded, stored};
ghost use Rattle.rv64i_user.specs.Stopping.{is_on, load_case, store_outcome};

use isa_model::{Lack, Stop};

/// A memory of pages with rights and 4096 bytes each.
///
/// An access answers, or names its first page that is absent or lacks the right. Addresses wrap past 2^64. Who implements `fetch`,
/// `load` and `store` has the two others; a memory that wants speed writes its own, since a `Result` with a `Lack` costs
/// copies of its padding on the way of every instruction.
pub trait UserMem {
    /// Its pages.
    ghost memory: { Self → Memory };

    /// The little-endian word of the 4 bytes from `pc` on.
    fn fetch(&self, pc: u64) -> Result<u32, Lack>
        ensures { result ≡ fetched (memory self.now) pc };

    /// The little-endian number of the `size` bytes from `addr` on.
    fn load(&self, addr: u64, size: u32) -> Result<u64, Lack>
        requires { IsSize size }
        ensures { result ≡ loaded (memory self.now) addr size };

    /// Puts the low `size` bytes of `v` there, the lowest first, or nothing.
    fn store(&mut self, addr: u64, size: u32, v: u64) -> Result<(), Lack>
        requires { IsSize size }
        ensures { (result, memory self.new) ≡ stored (memory self.old) addr size v };

    /// `load` with its fault put into `stop`.
    #[inline(always)]
    fn load_to(&self, addr: u64, size: u32, stop: &mut Stop) -> Option<u64>
        requires size { IsSize size }
        requires on { stop.old ≡ On }
        ensures { (result, stop.new) ≡ load_case (loaded (memory self.now) addr size) }
    {
        match self.load(addr, size) {
            Ok(v) => Some(v),
            Err(lack) => {
                *stop = Stop::Fault(lack);
                None
            }
        }
    }

    /// `store` with its fault put into `stop`; answers whether it was made.
    #[inline(always)]
    fn store_to(&mut self, addr: u64, size: u32, v: u64, stop: &mut Stop) -> bool
        requires size { IsSize size }
        requires on { stop.old ≡ On }
        ensures stored { (stop.new, memory self.new) ≡ store_outcome (stored (memory self.old) addr size v) }
        ensures went { result ≡ is_on stop.new }
    {
        match self.store(addr, size, v) {
            Ok(()) => true,
            Err(lack) => {
                *stop = Stop::Fault(lack);
                false
            }
        }
    }
}

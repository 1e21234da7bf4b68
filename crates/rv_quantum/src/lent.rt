// Images lent for a run, as a memory of places.
ghost use Rattle.isa_model.specs.Memory.{IsSize};
ghost use Rattle.isa_model.specs.declared.stops.Stop.TheVariants.{On};
ghost use Rattle.rv64i_user.specs.Places.{put_in};
ghost use Rattle.rv64i_user.specs.Runs.{count_on, instrs};
ghost use Rattle.rv_quantum.specs.Codes.{seen-prop};
ghost use Rattle.rv_quantum.specs.Images.{Seen, is_at, memory, seen};
ghost use Rattle.std.specs.Prelude.{ℕ, ◌≡◌, ◌≤◌, ◌+◌, List, [], map, true};

use crate::images::Images;
use mck_word::{Access, Regs};
use rv64i_user::{Kept, KnownWords, PageMem, Stop, run_known};
use std::marker::{Brand, PhantomData};

// What a run begins with, for proofs alone: the pages as they were seen.
trait Begun {
    ghost pages: { List Seen };

    ghost name: { ℕ };
}

impl Begun for Brand {
    ghost pages = { [] };

    ghost name = { 0 };
}

// Images lent for change.
#[derive(Drop)]
struct Lent<'i> {
    images: &'i mut Images,
}

impl Lent<'_> {
    // Writes the low `size` bytes of `v` into a place, from the byte `off` on.
    #[inline(always)]
    fn store(&mut self, k: usize, page: u64, off: usize, size: u32, v: u64)
        requires held { is_at self.old.images.now.rows.items k page ≡ true }
        requires size { IsSize size }
        requires inside { off + size ≤ 4096 }
        ensures memory { memory self.new.images.now.rows.items ≡ put_in (memory self.old.images.now.rows.items) page off size v }
        ensures held { (j p : ℕ) → is_at self.old.images.now.rows.items j p ≡ true → is_at self.new.images.now.rows.items j p ≡ true }
        ensures seen { map seen self.new.images.now.rows.items ≡ map seen self.old.images.now.rows.items }
        ensures same { self.new.images.ghost_name ≡ self.old.images.ghost_name }
    {
        self.images.store(k, page, off, size, v);
    }
}

// Images whose pages stay as they were seen. A place is an image's.
struct Places<'i, B: Begun> {
    lent: Lent<'i>,
    begun: PhantomData<B>,
    ghost seen: { map seen lent.images.now.rows.items ≡ B.pages } by { seen-prop (map seen lent.images.now.rows.items) B.pages },
    ghost name: { lent.images.ghost_name ≡ B.name },
}

impl<B: Begun> PageMem for Places<'_, B> {
    ghost memory = { λ s. memory s.lent.images.now.rows.items };

    ghost holds = { λ s k page. is_at s.lent.images.now.rows.items k page };

    #[inline(always)]
    fn place(&self, page: u64, access: Access) -> Option<usize> {
        self.lent.images.place(page, access)
    }

    #[inline(always)]
    fn bytes(&self, k: usize, page: u64) -> &[u8; 4096] {
        self.lent.images.bytes(k, page)
    }

    #[inline(always)]
    fn set_some(&mut self, k: usize, page: u64, off: usize, size: u32, v: u64) {
        self.lent.store(k, page, off, size, v);
    }
}

// The run over lent images, which are handed back.
fn run_lent<'i, B: Begun>(
    regs: &mut Regs,
    lent: Lent<'i>,
    known: &mut KnownWords,
    most: u32,
    stop: &mut Stop,
) -> (u32, Lent<'i>)
    requires on { stop.old ≡ On }
    requires seen { map seen lent.images.now.rows.items ≡ B.pages }
    requires name { lent.images.ghost_name ≡ B.name }
    ensures did { record { regs = regs.new; memory = memory result.1.images.now.rows.items; stop = stop.new }
        ≡ instrs most regs.old (memory lent.entry.images.now.rows.items) }
    ensures count { result.0 ≡ count_on most regs.old (memory lent.entry.images.now.rows.items) }
    ensures seen { map seen result.1.images.now.rows.items ≡ B.pages }
    ensures name { result.1.images.ghost_name ≡ B.name }
{
    let places: Places<'i, B> = Places {
        lent,
        begun: PhantomData,
    };
    let mut mem = Kept::over(places);
    let went = run_known(regs, &mut mem, known, stop, most);
    let Places { lent, begun: _ } = mem.into_mem();
    (went, lent)
}

/// Executes at most `most` instructions on the images, up to and with the first that stops, and answers how many went
/// on.
pub fn run(
    regs: &mut Regs,
    images: &mut Images,
    known: &mut KnownWords,
    most: u32,
    stop: &mut Stop,
) -> u32
    requires on { stop.old ≡ On }
    ensures did { record { regs = regs.new; memory = memory images.new.rows.items; stop = stop.new }
        ≡ instrs most regs.old (memory images.old.rows.items) }
    ensures count { result ≡ count_on most regs.old (memory images.old.rows.items) }
    ensures seen { map seen images.new.rows.items ≡ map seen images.old.rows.items }
{
    let (went, Lent { images: _ }) = run_lent::<Brand>(regs, Lent { images }, known, most, stop);
    went
}

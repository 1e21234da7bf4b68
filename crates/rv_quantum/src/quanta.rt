// Quanta, one after another.
ghost use Rattle.rv_quantum.specs.Images.{AreClean, AreFresh, are_apart, as_left, pages_of};
ghost use Rattle.rv_quantum.specs.Promised.{Led, Promised, is_count};
ghost use Rattle.rv_quantum.specs.declared.image.Image.{Image};
ghost use Rattle.rv64i_user.specs.Runs.{instrs};
ghost use Rattle.mck_word.specs.declared.Regs.{Regs};
ghost use Rattle.isa_model.specs.Memory.{Memory};
ghost use Rattle.isa_model.specs.declared.stops.Stop.{Stop};
ghost use Rattle.isa_model.specs.declared.stops.Stop.TheVariants.{On};
ghost use Rattle.std.specs.List.{list_all};
ghost use Rattle.std.specs.Prelude.{ℕ, ◌≡◌, ◌≤◌, ◌<◌, ◌∷◌, ◌++◌, List, [], IfOk, IsTrue, length, map, sum, true};

use crate::batch::Batch;
use crate::image::{Image, Pages};
use arrayvec::ArrayVec;
use mck_word::{NoMemory, Regs};
use rv64i_user::{KnownWords, Stop};
use std::alloc::Global;

/// Quanta of one thread, one after another, on the images that a core keeps: at most 32 pages, and 64 quanta of at
/// most 64 instructions.
#[derive(Drop)]
pub struct Quanta {
    batch: Batch,
    counts: ArrayVec<u32, 64>,
    ghost total: { sum counts.items ≡ batch.done },
    ghost counted: { IsTrue (list_all is_count counts.items) },
}

impl Quanta {
    /// No quantum, and no image. Takes all its memory at once.
    pub fn new(alloc: Global) -> Result<Quanta, NoMemory>
        ensures { IfOk result (λ q. q.counts.items ≡ []) }
    {
        Ok(Quanta {
            batch: Batch::new(alloc)?,
            counts: ArrayVec::new(),
        })
    }

    /// No quantum from these registers on, on the images that are kept, as they were left.
    pub fn begin(&mut self, regs: Regs)
        ensures first { self.new.batch.first ≡ regs }
        ensures regs { self.new.batch.regs ≡ regs }
        ensures stop { self.new.batch.stop ≡ On }
        ensures counts { self.new.counts.items ≡ [] }
        ensures left { map as_left self.new.batch.images.rows.items ≡ map as_left self.old.batch.images.rows.items }
        ensures fresh { AreFresh (length self.new.batch.images.rows.items) self.new.batch.images.rows.items }
    {
        self.batch.begin(regs);
        self.counts.clear();
    }

    /// No quantum from the registers on to which the last ones came, and no image.
    pub fn forget(&mut self)
        ensures first { self.new.batch.first ≡ self.old.batch.regs }
        ensures regs { self.new.batch.regs ≡ self.old.batch.regs }
        ensures stop { self.new.batch.stop ≡ On }
        ensures counts { self.new.counts.items ≡ [] }
        ensures images { self.new.batch.images.rows.items ≡ [] }
    {
        self.batch.forget();
        self.counts.clear();
    }

    /// One more quantum of at most `most` instructions, up to and with the first that stops; answers how many it has.
    ///
    /// A page without an image is asked for, and the quantum goes on where it was. Fewer than `most` only where one
    /// stopped, where 32 images are kept, or where there are 64 quanta.
    pub fn quantum<P: Pages>(&mut self, pages: &mut P, known: &mut KnownWords, most: u32) -> u32
        requires { most ≤ 64 }
        ensures first { self.new.batch.first ≡ self.old.batch.first }
        ensures most { result ≤ most }
        ensures none { result ≡ 0 → self.new.counts.items ≡ self.old.counts.items }
        ensures all { self.new.batch.stop ≡ On → length self.old.counts.items < 64 → length self.new.batch.images.rows.items < 32 → result ≡ most }
        ensures more { 1 ≤ result → self.new.counts.items ≡ self.old.counts.items ++ result ∷ [] }
    {
        if self.counts.is_full() {
            return 0;
        }
        let count = self.batch.quantum(pages, known, most);
        if count > 0 {
            self.counts.push(count);
        }
        count
    }

    /// The registers that the quanta began with.
    pub fn first(&self) -> &Regs
        ensures { result.now ≡ self.now.batch.first }
    {
        &self.batch.first
    }

    /// The registers that they came to.
    pub fn regs(&self) -> &Regs
        ensures { result.now ≡ self.now.batch.regs }
    {
        &self.batch.regs
    }

    /// How the last one ended.
    pub fn stop(&self) -> &Stop
        ensures { result.now ≡ self.now.batch.stop }
    {
        &self.batch.stop
    }

    /// How many instructions each has.
    pub fn counts(&self) -> &[u32]
        ensures { result.now ≡ self.now.counts.items }
    {
        self.counts.as_slice()
    }

    /// How many instructions they have together.
    pub fn total(&self) -> u32
        ensures value { result ≡ sum self.now.counts.items }
        ensures some { length self.now.counts.items ≤ result }
        ensures few { result ≤ 4_096 }
    {
        // There are 64 counts at most.
        let _counts = self.counts.as_slice();
        self.batch.done
    }

    /// The images of the pages that they touched, and of those that were kept before.
    pub fn images(&self) -> &[Image]
        ensures { result.now ≡ self.now.batch.images.rows.items }
    {
        &self.batch.images.rows
    }
}

/// What quanta promise: over every memory that has the pages as they were seen, as many instructions as the counts say
/// come to the registers, the stop and the memory in which the images are left; and each of them is executed.
pub fn quanta_lead(q: &Quanta)
    ensures promised { Promised q.now.batch.first (sum q.now.counts.items) q.now.batch.images.rows.items q.now.batch.regs q.now.batch.stop }
    ensures counted { IsTrue (list_all is_count q.now.counts.items) }
    ensures apart { are_apart (pages_of q.now.batch.images.rows.items) ≡ true }
    ensures clean { AreClean q.now.batch.images.rows.items }
    ensures few { length q.now.batch.images.rows.items ≤ 32 }
{}

/// All instructions of quanta but the last one went on: so each quantum but the last stopped at nothing.
pub fn all_but_the_last_go_on()
    ensures { (k n : ℕ) (r : Regs) (m : Memory) (images : List Image) (q : Regs) (s : Stop) → Led n r m images q s → k < n
        → (instrs k r m).stop ≡ On }
{}

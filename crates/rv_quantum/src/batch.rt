// Instructions of one thread on the images that a core keeps.
ghost use Rattle.isa_model.specs.declared.stops.Stop.TheVariants.{On};
ghost use Rattle.rv_quantum.specs.Codes.{promised-prop};
ghost use Rattle.rv_quantum.specs.Images.{AreFresh, as_left, is_kept};
ghost use Rattle.rv_quantum.specs.Promised.{Promised, stopped_one};
ghost use Rattle.std.specs.Option.{is_none};
ghost use Rattle.std.specs.Prelude.{◌≡◌, ◌≤◌, ◌<◌, ◌+◌, ◌^◌, IfSome, IfOk, [], false, true, length, map};

use crate::image::{Pages, asked};
use crate::images::Images;
use crate::lent::run;
use mck_word::{NoMemory, Regs};
use rv64i_user::{KnownWords, Stop};
use std::alloc::Global;

/// Instructions from `first` on: how many were executed, and the registers, the stop and the images that they came to.
#[derive(Drop)]
pub struct Batch {
    pub first: Regs,
    pub done: u32,
    pub regs: Regs,
    pub stop: Stop,
    pub images: Images,
    ghost promised: { Promised first done images.rows.items regs stop } by { promised-prop first done images.rows.items regs stop },
}

// One for an instruction that stopped.
fn stopped(stop: &Stop) -> u32
    ensures { result ≡ stopped_one stop.now }
{
    match stop {
        Stop::On => 0,
        _ => 1,
    }
}

// For the proof alone: an address fits into 64 bits.
#[inline(always)]
fn fits(_address: u64)
    ensures { _address < 2 ^ 64 }
{}

impl Batch {
    /// None executed, and no image.
    pub fn new(alloc: Global) -> Result<Batch, NoMemory>
        ensures { IfOk result (λ b. b.done ≡ 0) }
    {
        let images = Images::new(alloc)?;
        let regs = Regs { pc: 0, x: [0; 32] };
        Ok(Batch {
            first: regs,
            done: 0,
            regs,
            stop: Stop::On,
            images,
        })
    }

    /// None executed from these registers on, on the images as they are.
    pub fn begin(&mut self, regs: Regs)
        ensures first { self.new.first ≡ regs }
        ensures regs { self.new.regs ≡ regs }
        ensures done { self.new.done ≡ 0 }
        ensures stop { self.new.stop ≡ On }
        ensures left { map as_left self.new.images.rows.items ≡ map as_left self.old.images.rows.items }
        ensures fresh { AreFresh (length self.new.images.rows.items) self.new.images.rows.items }
    {
        self.images.renew();
        self.first = regs;
        self.regs = regs;
        self.done = 0;
        self.stop = Stop::On;
    }

    /// None executed, and no image.
    pub fn forget(&mut self)
        ensures first { self.new.first ≡ self.old.regs }
        ensures regs { self.new.regs ≡ self.old.regs }
        ensures done { self.new.done ≡ 0 }
        ensures stop { self.new.stop ≡ On }
        ensures images { self.new.images.rows.items ≡ [] }
    {
        self.images.forget();
        self.first = self.regs;
        self.done = 0;
        self.stop = Stop::On;
    }

    // Keeps an image of a page as it is now.
    fn keep<P: Pages>(&mut self, pages: &mut P, page: u64)
        requires new { is_kept self.old.images.rows.items page ≡ false }
        requires room { length self.old.images.rows.items < 32 }
        ensures first { self.new.first ≡ self.old.first }
        ensures done { self.new.done ≡ self.old.done }
        ensures stop { self.new.stop ≡ self.old.stop }
        ensures more { length self.new.images.rows.items ≡ length self.old.images.rows.items + 1 }
    {
        self.images.add(asked(pages, page));
    }

    // Executes at most `most` instructions on the images that are kept; answers how many, and the page that is missing,
    // if one is.
    fn piece(&mut self, known: &mut KnownWords, most: u32) -> (u32, Option<u64>)
        requires on { self.old.stop ≡ On }
        requires room { self.old.done + most < 2 ^ 32 }
        ensures first { self.new.first ≡ self.old.first }
        ensures done { self.new.done ≡ self.old.done + result.0 }
        ensures most { result.0 ≤ most }
        ensures on { is_none result.1 ≡ false → self.new.stop ≡ On }
        ensures all { is_none result.1 ≡ true → self.new.stop ≡ On → result.0 ≡ most }
        ensures same { length self.new.images.rows.items ≡ length self.old.images.rows.items }
        ensures missing { IfSome result.1 (λ p. is_kept self.new.images.rows.items p ≡ false) }
    {
        fits(self.regs.pc);
        let mut regs = self.regs;
        let mut stop = Stop::On;
        let went = run(&mut regs, &mut self.images, known, most, &mut stop);
        self.regs = regs;
        if let Some(page) = self.images.missing(&stop) {
            self.done += went;
            return (went, Some(page));
        }
        let count = went + stopped(&stop);
        self.done += count;
        self.stop = stop;
        (count, None)
    }

    // Whether no instruction follows any more.
    fn is_over(&self) -> bool
        ensures on { result ≡ false → self.now.stop ≡ On }
        ensures room { result ≡ false → self.now.done < 4096 }
        ensures over { result ≡ true → self.now.stop ≡ On → 4096 ≤ self.now.done }
    {
        match self.stop {
            Stop::On => self.done >= 4096,
            _ => true,
        }
    }

    /// Executes at most `most` more instructions, asking for the pages that are missing; answers how many.
    pub fn quantum<P: Pages>(&mut self, pages: &mut P, known: &mut KnownWords, most: u32) -> u32
        requires { most ≤ 64 }
        ensures first { self.new.first ≡ self.old.first }
        ensures done { self.new.done ≡ self.old.done + result }
        ensures most { result ≤ most }
        ensures all { self.new.stop ≡ On → self.old.done < 4096 → length self.new.images.rows.items < 32 → result ≡ most }
    {
        if self.is_over() {
            return 0;
        }
        let mut left = most;
        loop {
            let (count, missing) = self.piece(known, left);
            left -= count;
            let Some(page) = missing else {
                return most - left;
            };
            if self.images.is_full() {
                return most - left;
            }
            self.keep(pages, page);
        }
    }
}

//! The mapped pages of a process as ranges, and its break.
//!
//! Promises: `cover` and `split` add and take out a range's pages and leave all others; `gap` is the highest gap below 0x3f00000000 and
//! from 0x10000 on, None exactly where there is none; `copy_from` has the pages and the break of another process. What takes memory is
//! apart from them. The ranges rise and do not meet (specs/Ranges), and specs/Gaps says what a gap is.
#![tactic(auto)]

mod copies;
mod ranges;

ghost use Rattle.mck_word.specs.Pages.{in_range, in_ranges};
ghost use Rattle.std.specs.Prelude.{◌≡◌, ℕ, ◌+◌, ◌≤◌, ◌||◌, ◌&&◌, not, [], OnOk};
ghost use Rattle.vm_areas.specs.Gaps.{IsHighestGap};
ghost use Rattle.vm_areas.specs.Ranges.{Mapped};

use mck_word::{NoMemory, PageRange};
use ranges::{cover_into, highest_gap, split_into};
use std::alloc::Global;
use std::marker::Model;
use std::mem::swap;

/// The mapped pages and the break. The second list is empty between calls.
#[derive(Drop)]
pub struct Areas {
    ranges: Vec<PageRange>,
    next: Vec<PageRange>,
    brk: u64,
}

impl Model for Areas {
    ghost use Rattle.std.specs.Prelude.{◌≡◌, ◌-◌, [], vec_len, min};
    ghost use Rattle.std.specs.Vec.{vec_capacity};
    ghost use Rattle.vm_areas.specs.Ranges.{Mapped, Rises};

    ghost Value = { Mapped };

    ghost view = { λ a. record { ranges = a.ranges.items; spare = min (vec_capacity a.ranges) (vec_capacity a.next) - vec_len a.ranges; program_break = a.brk } };

    ghost invariant = { λ a. record { rises : Rises 0 a.ranges.items; empty : a.next.items ≡ [] } };
}

impl Areas {
    /// No page, and the break 0.
    pub fn new(alloc: Global) -> Areas
        ensures { result ≡ record { ranges = []; spare = 0; program_break = 0 } }
    {
        Areas {
            ranges: Vec::new(alloc),
            next: Vec::new(alloc),
            brk: 0,
        }
    }

    /// The first page of the highest gap of so many pages.
    pub fn gap(&self, pages: u64) -> Option<u64>
        requires { 1 ≤ pages }
        ensures { IsHighestGap (in_ranges self.now.ranges) pages result }
    {
        highest_gap(&self.ranges, pages)
    }

    /// Makes room for `n` calls of `cover` or `split`.
    pub fn reserve(&mut self, n: u32) -> Result<(), NoMemory>
        ensures same { self.new.ranges ≡ self.old.ranges }
        ensures brk { self.new.program_break ≡ self.old.program_break }
        ensures grows { self.old.spare ≤ self.new.spare }
        ensures room { OnOk result (n ≤ self.new.spare) }
    {
        self.ranges.reserve(n as usize)?;
        let most = self.ranges.len() + n as usize;
        self.next.reserve(most)?;
        Ok(())
    }

    /// Adds the pages of a range.
    pub fn cover(&mut self, r: PageRange)
        requires { 1 ≤ self.old.spare }
        ensures pages { (p : ℕ) → in_ranges self.new.ranges p ≡ (in_ranges self.old.ranges p || in_range r p) }
        ensures room { self.old.spare ≤ self.new.spare + 1 }
        ensures brk { self.new.program_break ≡ self.old.program_break }
    {
        if r.lo >= r.hi {
            return;
        }
        cover_into(&self.ranges, r, &mut self.next);
        swap(&mut self.ranges, &mut self.next);
        self.next.clear();
    }

    /// Takes out the pages of a range.
    pub fn split(&mut self, r: PageRange)
        requires { 1 ≤ self.old.spare }
        ensures pages { (p : ℕ) → in_ranges self.new.ranges p ≡ (in_ranges self.old.ranges p && not (in_range r p)) }
        ensures room { self.old.spare ≤ self.new.spare + 1 }
        ensures brk { self.new.program_break ≡ self.old.program_break }
    {
        if r.lo >= r.hi {
            return;
        }
        split_into(&self.ranges, r, &mut self.next);
        swap(&mut self.ranges, &mut self.next);
        self.next.clear();
    }

    /// The break, in bytes.
    pub fn brk_of(&self) -> u64
        ensures { result ≡ self.now.program_break }
    {
        self.brk
    }

    /// Sets the break.
    pub fn set_brk(&mut self, a: u64)
        ensures { self.new ≡ record self.old { program_break = a } }
    {
        self.brk = a;
    }
}

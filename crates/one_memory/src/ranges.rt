// The pages of a range: found, taken away, added, and with other rights.
ghost use Rattle.isa_model.specs.Memory.{Page};
ghost use Rattle.key_rows.specs.Places.{IsRising, place};
ghost use Rattle.key_rows.specs.Table.{key_from};
ghost use Rattle.kernel_model.specs.Pages.{pages_count};
ghost use Rattle.kernel_model.specs.Spaces.{add_page, drop_page, each_in, protect_page};
ghost use Rattle.mck_word.specs.Maps.{at, count};
ghost use Rattle.one_memory.specs.Below.{IsLastBelow, NoneBelow};
ghost use Rattle.one_memory.specs.Changing.{spaced};
ghost use Rattle.std.specs.Prelude.{◌≡◌, ◌≤◌, ◌+◌, ◌-◌, ◌^◌, ℕ, MatchOption, length, option_map};

use crate::PageRows;
use crate::changes::{add_pages, drop_pages, protect_pages};
use crate::page_row::PageRow;
use mck_flags::Rights;
use mck_word::PageRange;

/// How many rows at the front have numbers below `end`, found by halving.
fn place_of(rows: &[(u64, PageRow)], end: u64) -> usize
    requires { IsRising rows.now }
    ensures at { result ≡ place end rows.now }
    ensures within { result ≤ length rows.now }
{
    let mut low = 0;
    let mut high = rows.len();
    while low < high {
        let middle = low + (high - low) / 2;
        if rows[middle].0 < end {
            low = middle + 1;
        } else {
            high = middle;
        }
    }
    low
}

impl PageRows {
    /// The least page that is present from there on.
    pub fn next(&self, from: u64) -> Option<u64>
        ensures { result ≡ key_from self.now.map from }
    {
        self.rows.next(from)
    }

    /// The greatest page that is present below `end`.
    pub fn last_below(&self, end: u64) -> Option<u64>
        ensures { MatchOption result (NoneBelow self.now.map end) (IsLastBelow self.now.map end) }
    {
        let rows = self.rows.as_slice();
        let i = place_of(rows, end);
        if i == 0 { None } else { Some(rows[i - 1].0) }
    }

    /// The rights of a page: None exactly where it is absent.
    pub fn rights(&self, page: u64) -> Option<Rights>
        ensures { result ≡ option_map (λ (x : Page). x.rights) (at self.now.map page) }
    {
        match self.rows.get(page) {
            Some(row) => Some(row.rights()),
            None => None,
        }
    }

    /// Takes the pages of a range away that are present, and answers how many.
    pub fn drop_range(&mut self, r: &PageRange) -> u64
        ensures after { (free : ℕ) → spaced self.new.map (free + result) ≡ each_in drop_page r.now (spaced self.old.map free) }
        ensures fewer { result + count self.new.map ≡ count self.old.map }
        ensures spare { self.new.spare ≡ self.old.spare }
    {
        drop_pages(&mut self.rows, r)
    }

    /// Adds the pages of a range, zero, in place of those that are there.
    pub fn add_range(&mut self, r: &PageRange, rights: Rights)
        requires room { pages_count r.now ≤ self.old.spare }
        requires below { r.now.hi ≤ 2 ^ 27 }
        ensures after { (free : ℕ) → spaced self.new.map (free - pages_count r.now) ≡ each_in (add_page rights) r.now (spaced self.old.map free) }
        ensures spare { self.new.spare + pages_count r.now ≡ self.old.spare }
    {
        add_pages(&mut self.rows, &mut self.free, r, rights);
    }

    /// Gives the pages of a range that are present other rights.
    pub fn protect_range(&mut self, r: &PageRange, rights: Rights)
        ensures after { (free : ℕ) → spaced self.new.map free ≡ each_in (protect_page rights) r.now (spaced self.old.map free) }
        ensures spare { self.new.spare ≡ self.old.spare }
    {
        protect_pages(&mut self.rows, r, rights);
    }
}

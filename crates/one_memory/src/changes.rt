// Pages taken away, added, and with other rights.
ghost use Rattle.isa_model.specs.Memory.{Page};
ghost use Rattle.kernel_model.specs.Pages.{pages_count, zero_page};
ghost use Rattle.kernel_model.specs.Spaces.{add_page, drop_page, each_in, protect_page};
ghost use Rattle.mck_word.specs.Maps.{at, change, count, put};
ghost use Rattle.one_memory.specs.Changing.{spaced};
ghost use Rattle.one_memory.specs.Pages.{AreLow};
ghost use Rattle.std.specs.Prelude.{◌≡◌, ◌≤◌, ◌<◌, ◌+◌, ◌-◌, ◌^◌, ℕ, IsSome, OnOk, max, vec_len};

use crate::page_row::PageRow;
use key_rows::Rows;
use mck_flags::Rights;
use mck_word::{NoMemory, PageRange};
use std::alloc::Global;

/// Adds pages that aren't in use, up to `n` of them.
pub fn fill(unused: &mut Vec<PageRow>, alloc: Global, n: usize) -> Result<(), NoMemory>
    ensures grows { vec_len unused.old ≤ vec_len unused.new }
    ensures most { vec_len unused.new ≤ max (vec_len unused.old) n }
    ensures room { OnOk result (n ≤ vec_len unused.new) }
{
    while unused.len() < n {
        let page = PageRow::new(alloc, Rights(0))?;
        unused.push(page)?;
    }
    Ok(())
}

/// Takes the pages of a range away that are present, and answers how many.
pub fn drop_pages(rows: &mut Rows<PageRow>, r: &PageRange) -> u64
    requires { AreLow rows.old.map }
    ensures after { (free : ℕ) → spaced rows.new.map (free + result) ≡ each_in drop_page r.now (spaced rows.old.map free) }
    ensures fewer { result + count rows.new.map ≡ count rows.old.map }
    ensures room { rows.old.spare ≤ rows.new.spare }
    ensures low { AreLow rows.new.map }
{
    let mut dropped = 0;
    let mut from = r.lo;
    while let Some(page) = rows.next(from) {
        if page >= r.hi {
            break;
        }
        let _row = rows.remove(page);
        dropped += 1;
        from = page + 1;
    }
    dropped
}

/// Puts a zero page in at a number, in place of the one that is there.
fn add_one(rows: &mut Rows<PageRow>, unused: &mut Vec<PageRow>, page: u64, rights: Rights)
    requires some { 1 ≤ vec_len unused.old }
    requires room { vec_len unused.old ≤ rows.old.spare }
    ensures page { rows.new.map ≡ put rows.old.map page (record { rights = rights; bytes = zero_page }) }
    ensures unused { vec_len unused.new + 1 ≡ vec_len unused.old }
    ensures room { vec_len unused.new ≤ rows.new.spare }
{
    let Some(mut row) = unused.pop() else {
        unreachable!();
    };
    row.clear(rights);
    rows.put(page, row);
}

/// Adds the pages of a range, zero, in place of those that are there.
pub fn add_pages(rows: &mut Rows<PageRow>, unused: &mut Vec<PageRow>, r: &PageRange, rights: Rights)
    requires some { pages_count r.now ≤ vec_len unused.old }
    requires room { vec_len unused.old ≤ rows.old.spare }
    requires below { r.now.hi ≤ 2 ^ 27 }
    requires low { AreLow rows.old.map }
    ensures after { (free : ℕ) → spaced rows.new.map (free - pages_count r.now) ≡ each_in (add_page rights) r.now (spaced rows.old.map free) }
    ensures unused { vec_len unused.new + pages_count r.now ≡ vec_len unused.old }
    ensures room { vec_len unused.new ≤ rows.new.spare }
    ensures low { AreLow rows.new.map }
{
    for page in r.lo..r.hi {
        add_one(rows, unused, page, rights);
    }
}

/// Gives a page, where it is present, other rights.
fn protect_one(rows: &mut Rows<PageRow>, page: u64, rights: Rights)
    ensures page { rows.new.map ≡ change rows.old.map page (λ (x : Page). record x { rights = rights }) }
    ensures room { rows.new.spare ≡ rows.old.spare }
{
    if rows.get(page).is_some() {
        rows.row_mut(page).set_rights(rights);
    }
}

/// Gives the pages of a range that are present other rights.
pub fn protect_pages(rows: &mut Rows<PageRow>, r: &PageRange, rights: Rights)
    requires { AreLow rows.old.map }
    ensures after { (free : ℕ) → spaced rows.new.map free ≡ each_in (protect_page rights) r.now (spaced rows.old.map free) }
    ensures room { rows.new.spare ≡ rows.old.spare }
    ensures low { AreLow rows.new.map }
{
    for page in r.lo..r.hi {
        protect_one(rows, page, rights);
    }
}

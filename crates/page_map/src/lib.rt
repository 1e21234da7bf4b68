//! Page tables: what a table of a process's pages is, and the plain one.
//!
//! Promises: a table is a finite map from pages to frames and rights. Room for a list of ranges is for putting in the pages of the
//! list, and stays under each insert of its pages, each remove and each change of rights. `PageMap` is a sorted list; the words
//! stand in specs/Tables, those of maps in mck_word's specs/Maps.
#![tactic(auto)]

ghost use Rattle.std.specs.Prelude.{◌≡◌, ◌≤◌, ◌<◌, ◌+◌, ◌^◌, ◌-◌, List, IfOk, IsSome, OnOk, Some, None, IsTrue, option_map, sum_by, min, true};
ghost use Rattle.key_rows.specs.Table.{Table, key_from};
ghost use Rattle.mck_word.specs.Maps.{Map, at, change, cut, no_rows, put};
ghost use Rattle.mck_word.specs.Pages.{in_ranges};
ghost use Rattle.page_map.specs.Tables.{AreRanges, FitsIn, IsThere, RoomAt, size_of_range};
ghost use Rattle.mck_word.specs.declared.Frame.{Frame as frame};
ghost use Rattle.mck_word.specs.declared.PageRange.{PageRange as range};
ghost use Rattle.mck_flags.specs.declared.rights.Rights.{Rights as rights};

use key_rows::Rows;
use mck_flags::Rights;
use mck_word::{Frame, NoMemory, PageRange};
use std::alloc::Global;
use std::marker::Model;

/// A page table, seen as a finite map from pages to frames and rights. Room for a list of ranges
/// is for putting in the pages of the list.
pub trait PageTable: Sized {
    ghost rows: { Self → Map (frame × rights) };

    ghost has_room: { Self → List range → Type 0 };

    /// A table without a page.
    fn empty(alloc: Global) -> Result<Self, NoMemory>
        ensures { IfOk result (λ t. rows t ≡ no_rows) };

    /// The frame and the rights of a page, None exactly where it is absent.
    fn get(&self, page: u64) -> Option<(Frame, Rights)>
        ensures row { result ≡ at (rows self.now) page }
        ensures below { IsSome result → page < 2 ^ 27 };

    /// Makes room for the pages of the ranges, which rise, are disjoint and end at 2^27 at most.
    fn reserve(&mut self, pages: &[PageRange]) -> Result<(), NoMemory>
        requires { AreRanges pages.now }
        ensures same { rows self.new ≡ rows self.old }
        ensures room { OnOk result (has_room self.new pages.now) }
        ensures keeps { (rs : List range) → has_room self.old rs → has_room self.new rs };

    /// Puts a page in that is absent and in a list for which there is room.
    fn insert(&mut self, page: u64, f: Frame, r: Rights)
        requires absent { at (rows self.old) page ≡ None }
        requires below { page < 2 ^ 27 }
        requires room { RoomAt (has_room self.old) page }
        ensures row { rows self.new ≡ put (rows self.old) page (f, r) }
        ensures keeps { (rs : List range) → IsTrue (in_ranges rs page) → has_room self.old rs → has_room self.new rs };

    /// Takes a present page out, and answers its frame.
    fn remove(&mut self, page: u64) -> Frame
        requires { IsThere (rows self.old) page }
        ensures frame { option_map (λ w. w.0) (at (rows self.old) page) ≡ Some result }
        ensures rest { rows self.new ≡ cut (rows self.old) page }
        ensures keeps { (rs : List range) → has_room self.old rs → has_room self.new rs };

    /// Gives a present page other rights.
    fn set_rights(&mut self, page: u64, r: Rights)
        requires { IsThere (rows self.old) page }
        ensures row { rows self.new ≡ change (rows self.old) page (λ w. (w.0, r)) }
        ensures keeps { (rs : List range) → has_room self.old rs → has_room self.new rs };

    /// The least present page from there on.
    fn next(&self, from: u64) -> Option<u64>
        ensures { result ≡ key_from (rows self.now) from };
}

/// The plain table: a sorted list.
#[derive(Drop)]
pub struct PageMap {
    list: Rows<(Frame, Rights)>,
}

impl Model for PageMap {
    ghost use Rattle.std.specs.Coded.{coded×};
    ghost use Rattle.key_rows.specs.Table.{Table, table_code};
    ghost use Rattle.mck_word.specs.declared.Frame.{Frame};
    ghost use Rattle.mck_flags.specs.declared.rights.Rights.{Rights};
    ghost use Rattle.mck_word.specs.contracts.Frame as frame;
    ghost use Rattle.mck_flags.specs.contracts.rights.Rights as rights;

    ghost Value = { Table (Frame × Rights) };

    ghost coded = { table_code (coded× frame.the_row.coded rights.the_row.coded) };

    ghost use Rattle.page_map.specs.Tables.{IsBelow};

    ghost view = { λ a. a.list };

    ghost invariant = { λ a. IsBelow a.list.map };
}

/// How many pages the ranges have together, as far as that is told.
fn pages_of(ranges: &[PageRange]) -> u64
    ensures { result ≡ min (sum_by size_of_range ranges.now) (2 ^ 64 - 1) }
{
    let mut total: u64 = 0;
    for r in ranges {
        total = total.saturating_add(r.hi.saturating_sub(r.lo));
    }
    total
}

impl PageTable for PageMap {
    ghost rows = { λ t. t.map };

    ghost has_room = { λ t rs. FitsIn t rs };

    fn empty(alloc: Global) -> Result<PageMap, NoMemory> {
        Ok(PageMap {
            list: Rows::new(alloc),
        })
    }

    fn get(&self, page: u64) -> Option<(Frame, Rights)> {
        self.list.get(page).copied()
    }

    fn reserve(&mut self, pages: &[PageRange]) -> Result<(), NoMemory> {
        self.list.reserve(pages_of(pages) as usize)?;
        Ok(())
    }

    fn insert(&mut self, page: u64, f: Frame, r: Rights) {
        self.list.insert(page, (f, r));
    }

    fn remove(&mut self, page: u64) -> Frame {
        self.list.remove(page).0
    }

    fn set_rights(&mut self, page: u64, r: Rights) {
        if let Some(row) = self.list.get(page) {
            let f = row.0;
            self.list.set(page, (f, r));
        }
    }

    fn next(&self, from: u64) -> Option<u64> {
        self.list.next(from)
    }
}

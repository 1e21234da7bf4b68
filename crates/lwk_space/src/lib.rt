//! The space of a process: its page table, its mapped pages and its break, over the frames of the node.
//!
//! Promises: `map`, `unmap` and `protect` are the definitions' changes of a space, page by page (hybrid_model's specs/Spaces);
//! `map_bytes` adds pages with given bytes (specs/Fills), and `copy_space` those of another space, each at the lowest free frame;
//! `read` and `write` are the bytes of the memory that the table shows (isa_model's specs/Memory), all or nothing, and name the first
//! page that lacks (specs/Lacks); the mapped pages are those of the table. Stores change the frames as the memory that the table shows,
//! written back, does (`stores_are_written_back`). No call but `make_room`, `reserve` and `reserve_copy` takes memory or fails. The
//! conditions on rows, frames and room stand in specs/Rows and specs/Copies.
#![tactic(auto)]

mod bytes;
mod changes;
mod clears;
mod copies;
mod fills;
mod laws;

ghost use Rattle.frame_pool.specs.Pools.{Pool};
ghost use Rattle.hybrid_model.specs.Sides.{looked_up};
ghost use Rattle.hybrid_model.specs.Spaces.{add_page, drop_page, protect_page};
ghost use Rattle.kernel_model.specs.Pages.{pages_count};
ghost use Rattle.kernel_model.specs.Spaces.{each_in};
ghost use Rattle.lwk_space.specs.Fills.{fill_page};
ghost use Rattle.lwk_space.specs.Frames.{space};
ghost use Rattle.isa_model.specs.Memory.{may_access, read_bytes, write_bytes};
ghost use Rattle.lwk_space.specs.Lacks.{IsFirstLack, NoRowHas, memory};
ghost use Rattle.lwk_space.specs.Rows.{AbsentIn, FramesApart, FramesIn, FramesTaken, LiesIn, PresentIn, RoomFor};
ghost use Rattle.lwk_space.specs.Spaced.{Agree};
ghost use Rattle.mck_word.specs.Maps.{at, no_rows};
ghost use Rattle.mck_word.specs.declared.Access.TheVariants.{Read, Write};
ghost use Rattle.mck_word.specs.declared.PageRange.{PageRange as range};
ghost use Rattle.page_map.specs.Tables.{AreRanges};
ghost use Rattle.std.specs.Prelude.{◌≡◌, ◌≤◌, ◌<◌, ◌+◌, ◌^◌, ℕ, List, [], IfErr, OnErr, OnOk, length, slice_index_or, true};

use bytes::row_at;
use changes::{add_pages, drop_pages, protect_pages};
use fills::fill_pages;
use frame_mem::FrameMem;
use frame_pool::FramePool;
use isa_model::Lack;
pub use laws::stores_are_written_back;
use mck_flags::Rights;
use mck_word::{Access, Frame, NoMemory, PageRange};
use page_map::PageTable;
use std::alloc::Global;
use std::marker::Model;
use vm_areas::Areas;

/// The space of a process over a page table.
#[derive(Drop)]
pub struct Space<T: PageTable> {
    table: T,
    areas: Areas,
}

impl<T: PageTable> Model for Space<T> {
    ghost use Rattle.lwk_space.specs.Spaced.{Agree, Spaced, spaced_code};
    ghost use Rattle.vm_areas.specs.contracts.Areas as mapped;

    ghost Value = { Spaced T };

    ghost coded = { spaced_code T.code mapped.the_row.coded };

    ghost view = { λ s. record { table = s.table; areas = s.areas } };

    ghost invariant = { λ s. Agree (T.rows s.table) s.areas };
}

impl<T: PageTable> Space<T> {
    /// A space over an empty table, with the break 0.
    pub fn new(alloc: Global, table: T) -> Space<T>
        requires { T.rows table ≡ no_rows }
        ensures { result ≡ record { table = table; areas = record { ranges = []; spare = 0; program_break = 0 } } }
    {
        Space {
            table,
            areas: Areas::new(alloc),
        }
    }

    /// Its table.
    #[inline(always)]
    pub fn table(&self) -> &T
        ensures { result.now ≡ self.now.table }
    {
        &self.table
    }

    /// Its mapped pages and its break.
    pub fn areas(&self) -> &Areas
        ensures { result.now ≡ self.now.areas }
    {
        &self.areas
    }

    /// The mapped pages are those of the table.
    pub fn areas_agree(&self)
        ensures { Agree (T.rows self.now.table) self.now.areas }
    {
        let _table = &self.table;
    }

    /// Sets the break.
    pub fn set_brk(&mut self, a: u64)
        ensures { self.new ≡ record self.old { areas = record self.old.areas { program_break = a } } }
    {
        self.areas.set_brk(a);
    }

    /// The frame and the rights of a page, where it is present and has the right.
    #[inline(always)]
    pub fn frame_at(&self, page: u64, a: Access) -> Option<(Frame, Rights)>
        ensures { result ≡ looked_up (at (T.rows self.now.table) page) a }
    {
        row_at(&self.table, page, a)
    }

    /// Makes room for the pages of the ranges, which rise, are disjoint and end at 2^27 at most.
    pub fn make_room(&mut self, ranges: &[PageRange]) -> Result<(), NoMemory>
        requires { AreRanges ranges.now }
        ensures same { T.rows self.new.table ≡ T.rows self.old.table }
        ensures areas { self.new.areas ≡ self.old.areas }
        ensures room { OnOk result (T.has_room self.new.table ranges.now) }
        ensures keeps { (rs : List range) → T.has_room self.old.table rs → T.has_room self.new.table rs }
    {
        self.table.reserve(ranges)
    }

    /// Makes room for `n` calls of `map` and `unmap` among the mapped pages.
    pub fn reserve(&mut self, n: u32) -> Result<(), NoMemory>
        ensures same { self.new.table ≡ self.old.table }
        ensures brk { self.new.areas.program_break ≡ self.old.areas.program_break }
        ensures grows { self.old.areas.spare ≤ self.new.areas.spare }
        ensures room { OnOk result (n ≤ self.new.areas.spare) }
    {
        self.areas.reserve(n)
    }

    /// Maps the pages of a range, which are absent, zero and at the lowest free frames.
    pub fn map(&mut self, r: &PageRange, rights: Rights, mem: &mut FrameMem, pool: &mut FramePool)
        requires spare { 1 ≤ self.old.areas.spare }
        requires order { r.now.lo ≤ r.now.hi }
        requires below { r.now.hi ≤ 2 ^ 27 }
        requires absent { AbsentIn (T.rows self.old.table) r.now }
        requires room { RoomFor (T.has_room self.old.table) r.now }
        requires enough { pages_count r.now ≤ length pool.old.free }
        requires frames { pool.old.frames ≡ length mem.old }
        ensures after { space (T.rows self.new.table) mem.new pool.new ≡ each_in (add_page rights) r.now (space (T.rows self.old.table) mem.old pool.old) }
        ensures brk { self.new.areas.program_break ≡ self.old.areas.program_break }
        ensures spare { self.old.areas.spare ≤ self.new.areas.spare + 1 }
        ensures keeps { (rs : List range) → LiesIn r.now rs → T.has_room self.old.table rs → T.has_room self.new.table rs }
        ensures pool { pool.new.frames ≡ pool.old.frames }
        ensures mem { length mem.new ≡ length mem.old }
    {
        add_pages(&mut self.table, r, rights, mem, pool);
        self.areas.cover(*r);
    }

    /// Maps the pages of a range, which are absent, at the lowest free frames: with the bytes from the address `start` on, and zeros around them.
    pub fn map_bytes(
        &mut self,
        r: &PageRange,
        rights: Rights,
        start: u64,
        bytes: &[u8],
        mem: &mut FrameMem,
        pool: &mut FramePool,
    )
        requires spare { 1 ≤ self.old.areas.spare }
        requires order { r.now.lo ≤ r.now.hi }
        requires below { r.now.hi ≤ 2 ^ 27 }
        requires absent { AbsentIn (T.rows self.old.table) r.now }
        requires room { RoomFor (T.has_room self.old.table) r.now }
        requires enough { pages_count r.now ≤ length pool.old.free }
        requires frames { pool.old.frames ≡ length mem.old }
        ensures after { space (T.rows self.new.table) mem.new pool.new ≡ each_in (fill_page rights start bytes.now) r.now (space (T.rows self.old.table) mem.old pool.old) }
        ensures brk { self.new.areas.program_break ≡ self.old.areas.program_break }
        ensures spare { self.old.areas.spare ≤ self.new.areas.spare + 1 }
        ensures keeps { (rs : List range) → LiesIn r.now rs → T.has_room self.old.table rs → T.has_room self.new.table rs }
        ensures pool { pool.new.frames ≡ pool.old.frames }
        ensures mem { length mem.new ≡ length mem.old }
    {
        fill_pages(&mut self.table, r, rights, start, bytes, mem, pool);
        self.areas.cover(*r);
    }

    /// Drops the pages of a range that are present, and gives their frames back.
    pub fn unmap(&mut self, r: &PageRange, pool: &mut FramePool)
        requires spare { 1 ≤ self.old.areas.spare }
        requires order { r.now.lo ≤ r.now.hi }
        requires taken { FramesTaken (T.rows self.old.table) pool.old }
        requires apart { FramesApart (T.rows self.old.table) }
        ensures after { (pages : List (List ℕ)) → space (T.rows self.new.table) pages pool.new ≡ each_in drop_page r.now (space (T.rows self.old.table) pages pool.old) }
        ensures brk { self.new.areas.program_break ≡ self.old.areas.program_break }
        ensures spare { self.old.areas.spare ≤ self.new.areas.spare + 1 }
        ensures keeps { (rs : List range) → T.has_room self.old.table rs → T.has_room self.new.table rs }
        ensures pool { pool.new.frames ≡ pool.old.frames }
    {
        drop_pages(&mut self.table, r, pool);
        self.areas.split(*r);
    }

    /// Gives the pages of a range, which are present, other rights.
    pub fn protect(&mut self, r: &PageRange, rights: Rights)
        requires order { r.now.lo ≤ r.now.hi }
        requires present { PresentIn (T.rows self.old.table) r.now }
        ensures after { (pages : List (List ℕ)) (pool : Pool) → space (T.rows self.new.table) pages pool ≡ each_in (protect_page rights) r.now (space (T.rows self.old.table) pages pool) }
        ensures areas { self.new.areas ≡ self.old.areas }
        ensures keeps { (rs : List range) → T.has_room self.old.table rs → T.has_room self.new.table rs }
    {
        protect_pages(&mut self.table, r, rights);
    }

    /// Whether so many bytes from an address on lie on pages that are present and have the right.
    pub fn may_access(&self, a: Access, address: u64, len: u64) -> bool
        requires { len < 2 ^ 63 }
        ensures { (pages : List (List ℕ)) → result ≡ may_access (memory (T.rows self.now.table) pages) a address len }
    {
        bytes::may_access(&self.table, a, address, len)
    }

    /// Reads bytes, or names the first page that is absent or lacks the read right, and reads nothing then.
    pub fn read(&self, mem: &FrameMem, address: u64, into: &mut [u8]) -> Result<(), Lack>
        requires { FramesIn (T.rows self.now.table) mem.now }
        ensures read { OnOk result (into.new ≡ read_bytes (memory (T.rows self.now.table) mem.now) address (length into.old)) }
        ensures may { OnOk result (may_access (memory (T.rows self.now.table) mem.now) Read address (length into.old) ≡ true) }
        ensures lack { IfErr result (λ l. IsFirstLack (memory (T.rows self.now.table) mem.now) Read address (length into.old) l) }
        ensures unread { OnErr result (into.new ≡ into.old) }
    {
        bytes::read(&self.table, mem, address, into)
    }

    /// Writes bytes, or names the first page that is absent or lacks the write right, and writes nothing then.
    pub fn write(&self, mem: &mut FrameMem, address: u64, from: &[u8]) -> Result<(), Lack>
        requires frames { FramesIn (T.rows self.now.table) mem.old }
        requires apart { FramesApart (T.rows self.now.table) }
        ensures may { OnOk result (may_access (memory (T.rows self.now.table) mem.old) Write address (length from.now) ≡ true) }
        ensures memory { OnOk result (memory (T.rows self.now.table) mem.new ≡ write_bytes (memory (T.rows self.now.table) mem.old) address from.now) }
        ensures others { (f : ℕ) → NoRowHas (T.rows self.now.table) f → slice_index_or mem.new f [] ≡ slice_index_or mem.old f [] }
        ensures len { length mem.new ≡ length mem.old }
        ensures lack { IfErr result (λ l. IsFirstLack (memory (T.rows self.now.table) mem.old) Write address (length from.now) l) }
        ensures unwritten { OnErr result (mem.new ≡ mem.old) }
    {
        bytes::write(&self.table, mem, address, from)
    }
}

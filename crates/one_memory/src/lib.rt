//! The memory of one process of the one-kernel machine: its pages by number, each with its rights and bytes of its own.
//!
//! Promises: a memory is seen as isa_model's finite map from pages to rights and bytes, beside the number of pages that can be added without
//! memory (`map` and `spare`). Bytes are read and stored exactly where kernel_model's views do so (specs/Views).
#![tactic(auto)]

mod bytes;
mod changes;
mod copies;
mod guest;
mod page_row;
mod ranges;
mod running;
mod stack;

ghost use Rattle.isa_model.specs.Memory.{IsSize, allows_in, may_access};
ghost use Rattle.kernel_model.specs.Steps.{bytes_at};
ghost use Rattle.mck_word.specs.Maps.{at, count, no_rows};
ghost use Rattle.mck_word.specs.declared.Access.TheVariants.{Read, Write};
ghost use Rattle.one_memory.specs.Views.{read_or, tried};
ghost use Rattle.rv64i_user.specs.Places.{bytes_of, put_in};
ghost use Rattle.std.specs.Bool.{OnTrue};
ghost use Rattle.std.specs.Borrow.{sem};
ghost use Rattle.std.specs.Prelude.{◌≡◌, ◌<◌, ◌≤◌, ◌+◌, ◌^◌, IsSome, OnOk, Some, length};

use changes::fill;
use copies::copy_rows;
pub use guest::{guest_memory, heap_base};
use isa_model::allows;
use key_rows::Rows;
use mck_word::{Access, NoMemory};
use page_row::PageRow;
pub use running::run;
pub use stack::guest_regs;
use std::alloc::Global;
use std::marker::Model;

/// The pages of a process, seen as the definition's memory beside the number of pages that there is room for.
#[derive(Drop)]
pub struct PageRows {
    rows: Rows<PageRow>,
    // Pages that are not in use.
    free: Vec<PageRow>,
}

impl Model for PageRows {
    ghost use Rattle.isa_model.specs.Memory.{Page};
    ghost use Rattle.key_rows.specs.Table.{Table, table_code};
    ghost use Rattle.one_memory.specs.Pages.{ArePages, page_code};
    ghost use Rattle.std.specs.Prelude.{vec_len};

    ghost Value = { Table Page };

    ghost coded = { table_code page_code };

    ghost view = { λ a. record { map = a.rows.map; spare = vec_len a.free } };

    ghost invariant = { λ a. ArePages (vec_len a.free) a.rows.spare a.rows.map };
}

impl PageRows {
    ghost use Rattle.one_memory.specs.Loans.{lends_page};

    /// No page. Can't fail.
    pub fn new(alloc: Global) -> PageRows
        ensures { result ≡ record { map = no_rows; spare = 0 } }
    {
        PageRows {
            rows: Rows::new(alloc),
            free: Vec::new(alloc),
        }
    }

    /// Makes room for so many pages more. The pages stay, also where memory lacks.
    pub fn reserve(&mut self, alloc: Global, n: usize) -> Result<(), NoMemory>
        ensures same { self.new.map ≡ self.old.map }
        ensures grows { self.old.spare ≤ self.new.spare }
        ensures room { OnOk result (n ≤ self.new.spare) }
    {
        if self.rows.reserve(n).is_err() {
            return Err(NoMemory);
        }
        fill(&mut self.free, alloc, n)
    }

    /// How many pages there are.
    pub fn count(&self) -> usize
        ensures { result ≡ count self.now.map }
    {
        self.rows.len()
    }

    /// Whether a page is present and has the right.
    pub fn has_right(&self, a: Access, page: u64) -> bool
        ensures has { result ≡ allows_in a (at self.now.map page) }
        ensures below { OnTrue result (page < 2 ^ 27) }
    {
        match self.rows.get(page) {
            Some(row) => allows(a, row.rights()),
            None => false,
        }
    }

    /// The bytes of a page that is present.
    #[inline(always)]
    pub fn array(&self, page: u64) -> &[u8; 4096]
        requires { IsSome (at self.now.map page) }
        ensures { bytes_of self.now.map page ≡ Some result.now }
    {
        let Some(row) = self.rows.get(page) else {
            unreachable!();
        };
        row.bytes()
    }

    /// Writes the low `size` bytes of `v` into a page that is present, from the offset on, the lowest first.
    #[inline(always)]
    fn put_number(&mut self, page: u64, off: usize, size: u32, v: u64)
        requires there { IsSome (at self.old.map page) }
        requires size { IsSize size }
        requires inside { off + size ≤ 4096 }
        ensures { self.new ≡ record self.old { map = put_in self.old.map page off size v } }
    {
        self.rows.row_mut(page).put_number(off, size, v);
    }

    /// The bytes of a page that is present, to write to.
    pub fn bytes_mut(&mut self, page: u64) -> &mut [u8]
        requires { IsSome (at self.old.map page) }
        ensures* writes_back { sem 𝓛 (lends_page self.entry page result) }
        ensures bytes { result.now ≡ bytes_at self.old.map page }
        ensures len { length result.now ≡ 4096 }
    {
        self.rows.row_mut(page).bytes_mut()
    }

    /// Takes a copy of each page of another process, where there is none yet.
    pub fn copy_from(&mut self, other: &PageRows)
        requires empty { self.old.map ≡ no_rows }
        requires room { count other.now.map ≤ self.old.spare }
        ensures { self.new.map ≡ other.now.map }
    {
        copy_rows(&mut self.rows, &mut self.free, &other.rows);
    }

    /// Whether the process may read so many bytes from an address on.
    pub fn can_read(&self, address: u64, len: u64) -> bool
        requires { len < 2 ^ 63 }
        ensures { result ≡ may_access self.now.map Read address len }
    {
        bytes::may_access(&self.rows, Access::Read, address, len)
    }

    /// Whether the process may write so many bytes from an address on.
    pub fn can_write(&self, address: u64, len: u64) -> bool
        requires { len < 2 ^ 63 }
        ensures { result ≡ may_access self.now.map Write address len }
    {
        bytes::may_access(&self.rows, Access::Write, address, len)
    }

    /// Reads bytes where the process may read them, and tells whether it does.
    pub fn read_into(&self, address: u64, into: &mut [u8]) -> bool
        ensures may { result ≡ may_access self.now.map Read address (length into.old) }
        ensures read { into.new ≡ read_or into.old address self.now.map }
    {
        if bytes::may_access(&self.rows, Access::Read, address, into.len() as u64) {
            bytes::read(&self.rows, address, into);
            true
        } else {
            false
        }
    }

    /// Stores bytes where the process may write them, and tells whether it does.
    pub fn try_store(&mut self, address: u64, bytes: &[u8]) -> bool
        ensures may { result ≡ may_access self.old.map Write address (length bytes.now) }
        ensures memory { self.new.map ≡ tried address bytes.now self.old.map }
        ensures spare { self.new.spare ≡ self.old.spare }
    {
        if bytes::may_access(&self.rows, Access::Write, address, bytes.len() as u64) {
            bytes::write(&mut self.rows, address, bytes);
            true
        } else {
            false
        }
    }
}

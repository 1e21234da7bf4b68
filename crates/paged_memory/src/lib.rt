//! A memory for user code as a plain list of pages: page n is the n-th of the list. For measuring and for tests.
//!
//! Promises: it is a memory of places (`PageMem`), so `step` and `run_most` over it are the definition of instructions over the map
//! from its pages' numbers. The map stands in specs/Rows. It takes its pages once and no memory afterwards.
#![tactic(auto)]

ghost use Rattle.std.specs.Prelude.{◌≡◌, ◌∷◌, ◌&&◌, ◌==◌, true, nat_lt, length, OnOk, OnErr, ◌++◌, []};
ghost use Rattle.isa_model.specs.Memory.{page_at};
ghost use Rattle.paged_memory.specs.Rows.{pages_of, is_place};

use isa_model::allows;
use mck_flags::Rights;
use mck_word::{Access, NoMemory};
use rv64i_user::{PageMem, write_some};
use std::alloc::Global;

/// A page's rights and bytes.
#[derive(Drop)]
pub struct PageRow {
    pub rights: Rights,
    pub bytes: [u8; 4096],
}

/// The pages from number 0 on.
#[derive(Drop)]
pub struct PagedRows {
    rows: Vec<PageRow>,
}

impl PagedRows {
    /// No pages. Can't fail.
    pub fn new(alloc: Global) -> PagedRows
        ensures { result.rows.items ≡ [] }
    {
        PagedRows {
            rows: Vec::new(alloc),
        }
    }

    /// Adds a page behind the others.
    pub fn push(&mut self, row: PageRow) -> Result<(), NoMemory>
        ensures ok { OnOk result (self.new.rows.items ≡ self.old.rows.items ++ row ∷ []) }
        ensures err { OnErr result (self.new.rows.items ≡ self.old.rows.items) }
    {
        self.rows.push(row)?;
        Ok(())
    }
}

impl PageMem for PagedRows {
    ghost memory = { λ s. pages_of s.rows.items };

    ghost holds = { λ s k page. is_place s.rows.items k page };

    #[inline(always)]
    fn place(&self, page: u64, access: Access) -> Option<usize> {
        match self.rows.get(page as usize) {
            Some(row) => {
                if allows(access, row.rights) {
                    Some(page as usize)
                } else {
                    None
                }
            }
            None => None,
        }
    }

    #[inline(always)]
    fn bytes(&self, k: usize, page: u64) -> &[u8; 4096] {
        &self.rows[k].bytes
    }

    #[inline(always)]
    fn set_some(&mut self, k: usize, page: u64, off: usize, size: u32, v: u64) {
        let row = &mut self.rows[k];
        write_some(&mut row.bytes, off, size, v);
    }
}

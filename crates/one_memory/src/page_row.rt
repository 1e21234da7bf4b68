// A page: its rights and its own bytes.
ghost use Rattle.std.specs.Prelude.{◌≡◌, ◌≤◌, ◌+◌, IfOk, drop, length, take};
ghost use Rattle.isa_model.specs.Memory.{IsSize};
ghost use Rattle.rv64i_user.specs.Places.{put_bytes};
ghost use Rattle.kernel_model.specs.Pages.{zero_page};
ghost use Rattle.one_memory.specs.Pages.{written};
ghost use Rattle.std.specs.Borrow.{sem};

use mck_flags::Rights;
use mck_word::NoMemory;
use rv64i_user::write_some;
use std::alloc::Global;
use std::marker::Model;

/// A page, seen as the definition's.
#[derive(Drop)]
pub struct PageRow {
    rights: Rights,
    bytes: Box<[u8; 4096]>,
}

impl Model for PageRow {
    ghost use Rattle.isa_model.specs.Memory.{Page};
    ghost use Rattle.one_memory.specs.Pages.{page_code};

    ghost Value = { Page };

    ghost coded = { page_code };

    ghost view = { λ a. record { rights = a.rights; bytes = a.bytes.value } };
}

impl PageRow {
    ghost use Rattle.one_memory.specs.Loans.{lends_bytes};

    /// A page of zero bytes.
    pub fn new(alloc: Global, rights: Rights) -> Result<PageRow, NoMemory>
        ensures { IfOk result (λ page. page ≡ record { rights = rights; bytes = zero_page }) }
    {
        let bytes = Box::new(alloc, [0; 4096])?;
        Ok(PageRow { rights, bytes })
    }

    /// Its rights.
    #[inline(always)]
    pub fn rights(&self) -> Rights
        ensures { result ≡ self.now.rights }
    {
        self.rights
    }

    /// Its bytes.
    #[inline(always)]
    pub fn bytes(&self) -> &[u8; 4096]
        ensures bytes { result.now ≡ self.now.bytes }
        ensures len { length result.now ≡ 4096 }
    {
        let bytes = &*self.bytes;
        let _whole = &bytes[0..4096];
        bytes
    }

    /// Its bytes, to write to.
    pub fn bytes_mut(&mut self) -> &mut [u8]
        ensures* writes_back { sem 𝓛 (lends_bytes self.entry result) }
        ensures bytes { result.now ≡ self.old.bytes }
        ensures len { length result.now ≡ 4096 }
    {
        let _whole = self.bytes();
        self.bytes.as_mut_slice()
    }

    /// Writes the low `size` bytes of `v` among its bytes, from the offset on, the lowest first.
    #[inline(always)]
    pub fn put_number(&mut self, off: usize, size: u32, v: u64)
        requires size { IsSize size }
        requires inside { off + size ≤ 4096 }
        ensures { self.new ≡ record self.old { bytes = put_bytes self.old.bytes off size v } }
    {
        write_some(&mut self.bytes, off, size, v);
    }

    /// Gives it other rights.
    pub fn set_rights(&mut self, rights: Rights)
        ensures { self.new ≡ record self.old { rights = rights } }
    {
        self.rights = rights;
    }

    /// Gives it other rights, and zero bytes.
    pub fn clear(&mut self, rights: Rights)
        ensures { self.new ≡ record { rights = rights; bytes = zero_page } }
    {
        self.rights = rights;
        self.bytes.fill(0);
    }

    /// Gives it the rights and the bytes of another one.
    pub fn copy(&mut self, other: &PageRow)
        ensures { self.new ≡ other.now }
    {
        self.rights = other.rights;
        self.bytes.copy_from_slice(&other.bytes[..]);
    }

    /// Copies from its bytes, from the offset on.
    pub fn copy_out(&self, off: usize, into: &mut [u8])
        requires { off + length into.old ≤ 4096 }
        ensures copied { into.new ≡ take (length into.old) (drop off self.now.bytes) }
        ensures len { length self.now.bytes ≡ 4096 }
    {
        let to = off + into.len();
        into.copy_from_slice(&self.bytes[off..to]);
    }

    /// Copies to its bytes, from the offset on. Every other byte stays.
    pub fn copy_in(&mut self, off: usize, from: &[u8])
        requires { off + length from.now ≤ 4096 }
        ensures written { self.new ≡ record self.old { bytes = written self.old.bytes off from.now } }
        ensures len { length self.old.bytes ≡ 4096 }
    {
        let to = off + from.len();
        self.bytes[off..to].copy_from_slice(from);
    }
}

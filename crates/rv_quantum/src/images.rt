// The images that a core keeps.
ghost use Rattle.isa_model.specs.Memory.{IsSize, lacks};
ghost use Rattle.rv64i_user.specs.Places.{bytes_of, put_in};
ghost use Rattle.rv_quantum.specs.Codes.{clean-prop};
ghost use Rattle.rv_quantum.specs.Images.{AreClean, AreFresh, are_apart, as_left, has_page, is_at, is_kept, memory, missing_page, pages_of, seen};
ghost use Rattle.std.specs.Option.{is_none};
ghost use Rattle.std.specs.Prelude.{ℕ, ◌≡◌, ◌≤◌, ◌<◌, ◌+◌, ◌∷◌, ◌++◌, [], IfSome, IfOk, true, false, not, map, length, nat_le, vec_len};
ghost use Rattle.std.specs.Vec.{vec_capacity};

use crate::image::Image;
use isa_model::{Stop, allows};
use mck_word::{Access, NoMemory};
use rv64i_user::write_some;
use std::alloc::Global;

/// How many images are kept at most.
pub const MOST: usize = 32;

/// Images of different pages, found by their pages.
#[derive(Drop)]
pub struct Images {
    pub rows: Vec<Image>,
    // Where the image of a page was put last, by the low bits of the page: a guess, looked at before it is used.
    guesses: [u8; 64],
    ghost apart: { are_apart (pages_of rows.items) ≡ true },
    ghost clean: { AreClean rows.items } by { clean-prop rows.items },
    ghost few: { vec_len rows ≤ 32 },
    ghost room: { 32 ≤ vec_capacity rows },
}

// Each image is from now on as it is.
fn renew(rows: &mut Vec<Image>)
    requires clean { AreClean rows.old.items }
    ensures pages { pages_of rows.new.items ≡ pages_of rows.old.items }
    ensures left { map as_left rows.new.items ≡ map as_left rows.old.items }
    ensures clean { AreClean rows.new.items }
    ensures fresh { AreFresh (length rows.new.items) rows.new.items }
    ensures len { vec_len rows.new ≡ vec_len rows.old }
    ensures room { vec_capacity rows.new ≡ vec_capacity rows.old }
{
    for k in 0..rows.len() {
        rows[k].renew();
    }
}

impl Images {
    /// None, with room for all.
    pub fn new(alloc: Global) -> Result<Images, NoMemory>
        ensures { IfOk result (λ r. r.rows.items ≡ []) }
    {
        Ok(Images {
            rows: Vec::with_capacity(alloc, MOST)?,
            guesses: [0; 64],
        })
    }

    /// Each image is from now on as it is.
    pub fn renew(&mut self)
        ensures fresh { AreFresh (length self.new.rows.items) self.new.rows.items }
        ensures left { map as_left self.new.rows.items ≡ map as_left self.old.rows.items }
    {
        renew(&mut self.rows);
    }

    /// None is kept.
    pub fn forget(&mut self)
        ensures { self.new.rows.items ≡ [] }
    {
        self.rows.clear();
    }

    /// Whether no more can be kept.
    pub fn is_full(&self) -> bool
        ensures { result ≡ nat_le 32 (length self.now.rows.items) }
    {
        self.rows.len() >= MOST
    }

    /// The page that a stop lacks and that has no image.
    pub fn missing(&self, stop: &Stop) -> Option<u64>
        ensures { result ≡ missing_page self.now.rows.items stop.now }
    {
        match stop {
            Stop::Fault(lack) => match self.find(lack.page) {
                Some(_) => None,
                None => Some(lack.page),
            },
            _ => None,
        }
    }

    /// Keeps one more image.
    pub fn add(&mut self, image: Image)
        requires new { is_kept self.old.rows.items image.page ≡ false }
        requires clean { image.last ≡ image.first }
        requires room { length self.old.rows.items < 32 }
        ensures { self.new.rows.items ≡ self.old.rows.items ++ image ∷ [] }
    {
        let page = image.page;
        let k = self.rows.len();
        let _ = self.rows.push(image);
        self.guesses[(page % 64) as usize] = (k % 256) as u8;
    }

    // Looks at one image after another.
    #[cold]
    #[inline(never)]
    fn scan(&self, page: u64) -> Option<usize>
        ensures found { IfSome result (λ k. has_page self.now.rows.items k page ≡ true) }
        ensures none { is_none result ≡ not (is_kept self.now.rows.items page) }
    {
        for k in 0..self.rows.len() {
            if self.rows[k].page == page {
                return Some(k);
            }
        }
        None
    }

    /// The place of a page's image.
    #[inline(always)]
    pub fn find(&self, page: u64) -> Option<usize>
        ensures found { IfSome result (λ k. has_page self.now.rows.items k page ≡ true) }
        ensures none { is_none result ≡ not (is_kept self.now.rows.items page) }
    {
        let k = self.guesses[(page % 64) as usize] as usize;
        if k < self.rows.len() && self.rows[k].page == page {
            return Some(k);
        }
        self.scan(page)
    }

    /// The place of a page that is there and may be accessed so.
    #[inline(always)]
    pub fn place(&self, page: u64, access: Access) -> Option<usize>
        ensures held { IfSome result (λ k. is_at self.now.rows.items k page ≡ true) }
        ensures lacks { is_none result ≡ lacks (memory self.now.rows.items) access page }
    {
        match self.find(page) {
            Some(k) => match self.rows[k].rights {
                Some(rights) => {
                    if allows(access, rights) {
                        Some(k)
                    } else {
                        None
                    }
                }
                None => None,
            },
            None => None,
        }
    }

    /// The bytes in a place.
    #[inline(always)]
    pub fn bytes(&self, k: usize, page: u64) -> &[u8; 4096]
        requires { is_at self.now.rows.items k page ≡ true }
        ensures { bytes_of (memory self.now.rows.items) page ≡ Some result.now }
    {
        &self.rows[k].last
    }

    /// Writes the low `size` bytes of `v` into a place, from the byte `off` on.
    #[inline(always)]
    pub fn store(&mut self, k: usize, page: u64, off: usize, size: u32, v: u64)
        requires held { is_at self.old.rows.items k page ≡ true }
        requires size { IsSize size }
        requires inside { off + size ≤ 4096 }
        ensures memory { memory self.new.rows.items ≡ put_in (memory self.old.rows.items) page off size v }
        ensures held { (j p : ℕ) → is_at self.old.rows.items j p ≡ true → is_at self.new.rows.items j p ≡ true }
        ensures seen { map seen self.new.rows.items ≡ map seen self.old.rows.items }
    {
        let row = &mut self.rows[k];
        row.written = true;
        write_some(&mut row.last, off, size, v);
    }
}

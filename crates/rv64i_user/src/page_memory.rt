// Memory whose pages are found by places.
ghost use Rattle.std.specs.Prelude.{◌≡◌, ◌≤◌, ◌+◌, ℕ, Bool, true, Some, IfSome};
ghost use Rattle.std.specs.Option.{is_none};
ghost use Rattle.isa_model.specs.Memory.{Memory, IsSize, lacks};
ghost use Rattle.rv64i_user.specs.Places.{bytes_of, put_in};

use mck_word::Access;

/// A memory that finds a page once and then lends its bytes by their place.
///
/// A place is whatever number the memory finds a page's bytes by: a frame's number, an index into a list of pages. `holds` says
/// which place has which page; a store leaves each place with its page, so a place that was found stays good as long as
/// nothing but stores happens to the memory. Different pages may not share their bytes: a store into one changes no other.
pub trait PageMem {
    /// Its pages.
    ghost memory: { Self → Memory };
    /// The place has the page's bytes: `holds m place page`.
    ghost holds: { Self → ℕ → ℕ → Bool };

    /// The place of a page. None exactly where the page is absent or lacks the right.
    fn place(&self, page: u64, access: Access) -> Option<usize>
        ensures held { IfSome result (λ k. holds self.now k page ≡ true) }
        ensures lacks { is_none result ≡ lacks (memory self.now) access page };

    /// The bytes in a place.
    fn bytes(&self, k: usize, page: u64) -> &[u8; 4096]
        requires { holds self.now k page ≡ true }
        ensures { bytes_of (memory self.now) page ≡ Some result.now };

    /// Writes the low `size` bytes of `v` into a place, from the byte `off` on; `write_some` does so on the bytes. It tests no right.
    fn set_some(&mut self, k: usize, page: u64, off: usize, size: u32, v: u64)
        requires held { holds self.old k page ≡ true }
        requires size { IsSize size }
        requires inside { off + size ≤ 4096 }
        ensures memory { memory self.new ≡ put_in (memory self.old) page off size v }
        ensures held { (j p : ℕ) → holds self.old j p ≡ true → holds self.new j p ≡ true };
}

//! The frames of the machine's memory: the one region of raw memory, in one block of the heap.
//!
//! Promises: a memory is a list of pages of 4,096 bytes. Each copy equals the list's part and every other byte stays; no call but `new`
//! takes memory or fails; several readers may share it, and it is freed on drop. The raw part is `block`, whose five functions have
//! proofs by hand in proofs/block. The words stand in specs/: Pages says what a write leaves, Region what the block owns.
#![tactic(auto)]

ghost use Rattle.std.specs.Prelude.{◌≡◌, ◌+◌, ◌<◌, ◌≤◌, length, take, drop, replicate, slice_index_or, slice_set, [], IfOk};
ghost use Rattle.std.specs.Borrow.{sem};
ghost use Rattle.frame_mem.specs.Pages.{written};

mod block;

use mck_word::{Frame, NoMemory};
use std::alloc::Global;
use std::marker::Model;

// A crate can name a memory in a contract only if the types of its fields are exported.
#[doc(hidden)]
pub use block::Block;

/// Frames of 4,096 bytes in one block. Contracts see the list of their contents.
pub struct FrameMem {
    block: Block,
    count: u32,
    heap: Global,
}

impl Model for FrameMem {
    ghost use Rattle.std.specs.Prelude.{ℕ, List};
    ghost use Rattle.std.specs.Coded.{coded_list, coded_ℕ};

    ghost Value = { List (List ℕ) };

    ghost coded = { coded_list (coded_list coded_ℕ) };

    ghost use Rattle.frame_mem.specs.Frames.{frames_of, IsFull};

    ghost view = { frames_of };

    ghost invariant = { IsFull };
}

impl FrameMem {
    ghost use Rattle.frame_mem.specs.Loans.{lends_array, lends_page};

    /// `n` frames, all zero.
    pub fn new(alloc: Global, n: u32) -> Result<FrameMem, NoMemory>
        ensures { IfOk result (λ m. m ≡ replicate n (replicate 4096 0)) }
    {
        let Ok(mut block) = Block::reserve(&alloc, n) else {
            return Err(NoMemory);
        };
        for i in 0..n {
            block.lay(i, [0; 4096]);
        }
        Ok(FrameMem {
            block,
            count: n,
            heap: alloc,
        })
    }

    /// How many frames there are.
    pub fn len(&self) -> usize
        ensures { result ≡ length self.now }
    {
        self.count as usize
    }

    /// The bytes of a frame.
    pub fn page(&self, f: Frame) -> &[u8]
        requires { f.0 < length self.now }
        ensures page { result.now ≡ slice_index_or self.now f.0 [] }
        ensures len { length result.now ≡ 4096 }
    {
        self.block.page_at(f.0)
    }

    /// The bytes of a frame, to write to.
    pub fn page_mut(&mut self, f: Frame) -> &mut [u8]
        requires { f.0 < length self.old }
        ensures* writes_back { sem 𝓛 (lends_page self.entry f.0 result) }
        ensures page { result.now ≡ slice_index_or self.old f.0 [] }
        ensures len { length result.now ≡ 4096 }
    {
        let _whole = self.page(f);
        let page = self.block.page_at_mut(f.0);
        page.as_mut_slice()
    }

    /// The bytes of a frame, as an array.
    #[inline(always)]
    pub fn array(&self, f: Frame) -> &[u8; 4096]
        requires { f.0 < length self.now }
        ensures page { result.now ≡ slice_index_or self.now f.0 [] }
        ensures len { length result.now ≡ 4096 }
    {
        let _whole = self.page(f);
        self.block.page_at(f.0)
    }

    /// The bytes of a frame, to write to, as an array.
    #[inline(always)]
    pub fn array_mut(&mut self, f: Frame) -> &mut [u8; 4096]
        requires { f.0 < length self.old }
        ensures* writes_back { sem 𝓛 (lends_array self.entry f.0 result) }
        ensures page { result.now ≡ slice_index_or self.old f.0 [] }
        ensures len { length result.now ≡ 4096 }
    {
        let _whole = self.page(f);
        self.block.page_at_mut(f.0)
    }

    /// Sets the bytes of a frame to zero.
    pub fn zero(&mut self, f: Frame)
        requires { f.0 < length self.old }
        ensures zero { self.new ≡ slice_set self.old f.0 (replicate 4096 0) }
        ensures len { length (slice_index_or self.old f.0 []) ≡ 4096 }
    {
        let page = self.block.page_at_mut(f.0);
        page.fill(0);
    }

    /// Copies from a frame, from the offset on.
    pub fn copy_out(&self, f: Frame, off: u32, into: &mut [u8])
        requires frame { f.0 < length self.now }
        requires range { off + length into.old ≤ 4096 }
        ensures copied { into.new ≡ take (length into.old) (drop off (slice_index_or self.now f.0 [])) }
        ensures len { length (slice_index_or self.now f.0 []) ≡ 4096 }
    {
        let from = off as usize;
        let to = from + into.len();
        into.copy_from_slice(&self.page(f)[from..to]);
    }

    /// Copies to a frame, from the offset on. Every other byte stays.
    pub fn copy_in(&mut self, f: Frame, off: u32, from: &[u8])
        requires frame { f.0 < length self.old }
        requires range { off + length from.now ≤ 4096 }
        ensures written { self.new ≡ slice_set self.old f.0 (written (slice_index_or self.old f.0 []) off from.now) }
        ensures len { length (slice_index_or self.old f.0 []) ≡ 4096 }
    {
        let page = self.block.page_at_mut(f.0);
        let start = off as usize;
        let end = start + from.len();
        page[start..end].copy_from_slice(from);
    }
}

impl Drop for FrameMem {
    fn drop(self) {
        let FrameMem { block, count, heap } = self;
        block.release(&heap, count);
    }
}

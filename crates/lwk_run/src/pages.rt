// A space and the frames as a memory of places.
ghost use Rattle.hybrid_model.specs.Sides.{Row};
ghost use Rattle.isa_model.specs.Memory.{IsSize};
ghost use Rattle.lwk_run.specs.Lent.{Stays, is_frame};
ghost use Rattle.lwk_run.specs.SameRows.{rows-prop};
ghost use Rattle.lwk_space.specs.Lacks.{memory};
ghost use Rattle.lwk_space.specs.Rows.{FramesApart, FramesIn};
ghost use Rattle.mck_word.specs.Maps.{Map, no_rows};
ghost use Rattle.rv64i_user.specs.Places.{put_bytes};
ghost use Rattle.std.specs.Prelude.{◌≡◌, ◌≤◌, ◌<◌, ◌+◌, ℕ, List, [], length, slice_index_or, slice_set};

use frame_mem::FrameMem;
use lwk_space::Space;
use mck_word::{Access, Frame};
use page_map::PageTable;
use rv64i_user::{PageMem, write_some};
use std::marker::{Brand, PhantomData};

/// What a run begins with, for proofs alone: the rows of the table, the frames, and which frames they are.
pub trait Begun {
    ghost rows: { Map Row };

    ghost frames: { List (List ℕ) };

    ghost name: { ℕ };
}

impl Begun for Brand {
    ghost rows = { no_rows };

    ghost frames = { [] };

    ghost name = { 0 };
}

/// Frames lent for change.
#[derive(Drop)]
pub struct Frames<'f> {
    pub mem: &'f mut FrameMem,
}

impl Frames<'_> {
    /// Writes the low `size` bytes of `v` into a frame, from the byte `off` on.
    #[inline(always)]
    fn store(&mut self, frame: Frame, off: usize, size: u32, v: u64)
        requires frame { frame.0 < length self.old.mem.now }
        requires size { IsSize size }
        requires inside { off + size ≤ 4096 }
        ensures stored { self.new.mem.now ≡ slice_set self.old.mem.now frame.0 (put_bytes (slice_index_or self.old.mem.now frame.0 []) off size v) }
        ensures same { self.new.mem.ghost_name ≡ self.old.mem.ghost_name }
    {
        write_some(self.mem.array_mut(frame), off, size, v);
    }
}

/// The pages of a space lent for reading its table, in frames lent for change. A place is a frame's number.
pub struct UserPages<'s, 'f, T: PageTable, B: Begun> {
    space: &'s Space<T>,
    frames: Frames<'f>,
    begun: PhantomData<B>,
    ghost shown: { T.rows space.now.table ≡ B.rows } by { rows-prop (T.rows space.now.table) B.rows },
    ghost apart: { FramesApart B.rows },
    ghost inside: { FramesIn B.rows frames.mem.now },
    ghost stays: { Stays B.rows B.frames frames.mem.now },
    ghost name: { frames.mem.ghost_name ≡ B.name },
}

impl<'s, 'f, T: PageTable, B: Begun> UserPages<'s, 'f, T, B> {
    /// Over a space and frames with which the run begins.
    #[inline(always)]
    pub fn over(space: &'s Space<T>, frames: Frames<'f>) -> UserPages<'s, 'f, T, B>
        requires rows { T.rows space.now.table ≡ B.rows }
        requires frames { frames.mem.now ≡ B.frames }
        requires name { frames.mem.ghost_name ≡ B.name }
        requires inside { FramesIn B.rows B.frames }
        requires apart { FramesApart B.rows }
        ensures { result.frames.mem.now ≡ B.frames }
    {
        UserPages {
            space,
            frames,
            begun: PhantomData,
        }
    }

    /// The frames.
    #[inline(always)]
    pub fn into_frames(self) -> Frames<'f>
        ensures same { result.mem.now ≡ self.entry.frames.mem.now }
        ensures stays { Stays B.rows B.frames result.mem.now }
        ensures name { result.mem.ghost_name ≡ B.name }
    {
        let UserPages {
            space: _,
            frames,
            begun: _,
        } = self;
        frames
    }
}

impl<T: PageTable, B: Begun> PageMem for UserPages<'_, '_, T, B> {
    ghost memory = { λ s. memory B.rows s.frames.mem.now };

    ghost holds = { λ s k page. is_frame B.rows k page };

    #[inline(always)]
    fn place(&self, page: u64, access: Access) -> Option<usize> {
        match self.space.frame_at(page, access) {
            Some((frame, _)) => Some(frame.0 as usize),
            None => None,
        }
    }

    #[inline(always)]
    fn bytes(&self, k: usize, page: u64) -> &[u8; 4096] {
        self.frames.mem.array(Frame(k as u32))
    }

    #[inline(always)]
    fn set_some(&mut self, k: usize, page: u64, off: usize, size: u32, v: u64) {
        self.frames.store(Frame(k as u32), off, size, v);
    }
}

// Quanta taken into the frames.
ghost use Rattle.isa_model.specs.Memory.{page_at};
ghost use Rattle.space_quanta.specs.Taking.{Took};
ghost use Rattle.lwk_run.specs.Lent.{Stays};
ghost use Rattle.lwk_space.specs.Lacks.{memory};
ghost use Rattle.lwk_space.specs.Rows.{FramesApart, FramesIn};
ghost use Rattle.rv_quantum.specs.Differing.{FirstDiffers};
ghost use Rattle.rv_quantum.specs.Images.{AreClean, are_apart, last_page, left, pages_of, seen, seen_page};
ghost use Rattle.rv_quantum.specs.Promised.{Agrees};
ghost use Rattle.rv_quantum.specs.Told.{first_regs, pages_seen};
ghost use Rattle.std.specs.Prelude.{ℕ, ◌≡◌, ◌==◌, MatchOption, cond, map, true};

use crate::differing::{are_same, first_page};
use frame_mem::FrameMem;
use lwk_space::Space;
use mck_word::Regs;
use page_map::PageTable;
use rv_quantum::{Differs, Image, Quanta, quanta_lead};

// Puts the bytes of an image into the frame of its page, where that is there.
fn put_page<T: PageTable>(space: &Space<T>, frames: &mut FrameMem, image: &Image)
    requires inside { FramesIn (T.rows space.now.table) frames.old }
    requires apart { FramesApart (T.rows space.now.table) }
    requires same { page_at (memory (T.rows space.now.table) frames.old) image.now.page ≡ seen_page (seen image.now) }
    ensures pages { (p : ℕ) → page_at (memory (T.rows space.now.table) frames.new) p
        ≡ cond (p == image.now.page) (last_page image.now) (page_at (memory (T.rows space.now.table) frames.old) p) }
    ensures stays { Stays (T.rows space.now.table) frames.old frames.new }
{
    if let Some((frame, _)) = space.table().get(image.page) {
        *frames.array_mut(frame) = image.last;
    }
}

// Puts the images that were written into the frames of their pages.
fn put_pages<T: PageTable>(space: &Space<T>, frames: &mut FrameMem, images: &[Image])
    requires inside { FramesIn (T.rows space.now.table) frames.old }
    requires apart { FramesApart (T.rows space.now.table) }
    requires same { Agrees (map seen images.now) (memory (T.rows space.now.table) frames.old) }
    requires clean { AreClean images.now }
    requires pages { are_apart (pages_of images.now) ≡ true }
    ensures left { (p : ℕ) → page_at (memory (T.rows space.now.table) frames.new) p
        ≡ left images.now p (page_at (memory (T.rows space.now.table) frames.old) p) }
    ensures stays { Stays (T.rows space.now.table) frames.old frames.new }
{
    let mut rest = images;
    while let Some((image, more)) = rest.split_first() {
        if image.written {
            put_page(space, frames, image);
        }
        rest = more;
    }
}

/// Takes quanta in, where these are the registers that they began with, and each page that they saw is there as they
/// saw it: the images that were written are copied into the frames. Else nothing changes, and the answer is the first
/// thing that differs.
pub fn take<T: PageTable>(
    quanta: &Quanta,
    regs: &Regs,
    space: &Space<T>,
    frames: &mut FrameMem,
) -> Option<Differs>
    requires inside { FramesIn (T.rows space.now.table) frames.old }
    requires apart { FramesApart (T.rows space.now.table) }
    ensures { let rows = T.rows space.now.table in let saw = pages_seen quanta.now in
        MatchOption result (Took quanta.now regs.now rows frames.old frames.new)
        (λ d. (frames.new ≡ frames.old)
        × FirstDiffers (first_regs quanta.now) saw regs.now (memory rows frames.old) d) }
{
    if !are_same(regs, quanta.first()) {
        return Some(Differs::Regs);
    }
    if let Some(differs) = first_page(space, frames, quanta.images()) {
        return Some(differs);
    }
    quanta_lead(quanta);
    put_pages(space, frames, quanta.images());
    None
}

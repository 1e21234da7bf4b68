// What isn't as quanta saw it.
ghost use Rattle.isa_model.specs.Memory.{page_at};
ghost use Rattle.lwk_space.specs.Lacks.{memory};
ghost use Rattle.lwk_space.specs.Rows.{FramesIn};
ghost use Rattle.rv_quantum.specs.Differing.{FirstPage, PageDiffers};
ghost use Rattle.rv_quantum.specs.Images.{seen, seen_page};
ghost use Rattle.rv_quantum.specs.Promised.{Agrees};
ghost use Rattle.std.specs.Prelude.{◌≡◌, ◌<◌, ◌↔◌, IsTrue, MatchOption, Some, [], length, map};
ghost use Rattle.std.specs.Prelude.{slice_index_or};

use frame_mem::FrameMem;
use lwk_space::Space;
use mck_flags::Rights;
use mck_word::{Frame, Regs};
use page_map::PageTable;
use rv_quantum::{Differs, Image};

/// Whether the registers are the same.
pub fn are_same(a: &Regs, b: &Regs) -> bool
    ensures { IsTrue result ↔ (a.now ≡ b.now) }
{
    a == b
}

// Whether a page was seen with these rights.
fn has_rights(seen: Option<Rights>, rights: Rights) -> bool
    ensures { IsTrue result ↔ (seen ≡ Some rights) }
{
    match seen {
        Some(seen) => seen == rights,
        None => false,
    }
}

// Whether a frame has these bytes.
fn has_bytes(frames: &FrameMem, frame: Frame, bytes: &[u8; 4096]) -> bool
    requires { frame.0 < length frames.now }
    ensures { IsTrue result ↔ (slice_index_or frames.now frame.0 [] ≡ bytes.now) }
{
    frames.array(frame) == bytes
}

// How a page isn't as it was seen.
fn page_differs<T: PageTable>(space: &Space<T>, frames: &FrameMem, image: &Image) -> Option<Differs>
    requires { FramesIn (T.rows space.now.table) frames.now }
    ensures { let now = page_at (memory (T.rows space.now.table) frames.now) image.now.page in
        MatchOption result (now ≡ seen_page (seen image.now)) (PageDiffers (seen image.now) now) }
{
    match space.table().get(image.page) {
        Some((frame, rights)) => {
            if !has_rights(image.rights, rights) {
                return Some(Differs::Rights(image.page));
            }
            if !has_bytes(frames, frame, &image.first) {
                return Some(Differs::Bytes(image.page));
            }
            None
        }
        None => match image.rights {
            Some(_) => Some(Differs::Rights(image.page)),
            None => None,
        },
    }
}

/// The first page that isn't as it was seen.
pub fn first_page<T: PageTable>(
    space: &Space<T>,
    frames: &FrameMem,
    images: &[Image],
) -> Option<Differs>
    requires { FramesIn (T.rows space.now.table) frames.now }
    ensures { let now = memory (T.rows space.now.table) frames.now in
        MatchOption result (Agrees (map seen images.now) now) (FirstPage (map seen images.now) now) }
{
    let mut rest = images;
    while let Some((image, more)) = rest.split_first() {
        if let Some(differs) = page_differs(space, frames, image) {
            return Some(differs);
        }
        rest = more;
    }
    None
}

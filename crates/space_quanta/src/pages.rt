// Pages as they are now.
ghost use Rattle.isa_model.specs.Memory.{page_at};
ghost use Rattle.lwk_space.specs.Lacks.{memory};
ghost use Rattle.lwk_space.specs.Rows.{FramesIn};
ghost use Rattle.rv_quantum.specs.Images.{page_with};
ghost use Rattle.std.specs.Prelude.{◌≡◌};

use frame_mem::FrameMem;
use lwk_space::Space;
use mck_flags::Rights;
use page_map::PageTable;

/// Copies the bytes of a page as they are now, and answers its rights. None exactly where it is absent, and nothing is
/// copied then.
pub fn page_image<T: PageTable>(
    space: &Space<T>,
    frames: &FrameMem,
    page: u64,
    into: &mut [u8; 4096],
) -> Option<Rights>
    requires { FramesIn (T.rows space.now.table) frames.now }
    ensures page { page_with result into.new ≡ page_at (memory (T.rows space.now.table) frames.now) page }
    ensures absent { result ≡ None → into.new ≡ into.old }
{
    match space.table().get(page) {
        Some((frame, rights)) => {
            *into = *frames.array(frame);
            Some(rights)
        }
        None => None,
    }
}

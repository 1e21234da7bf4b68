// A small image into 32 frames.
ghost use Rattle.job_model.specs.Images.{IsImage};
ghost use Rattle.kernel_model.specs.Layout.{needed_frames};
ghost use Rattle.lwk_boot.specs.Guests.{AreArguments};
ghost use Rattle.std.specs.Prelude.{◌≡◌, IfOk};

use frame_mem::FrameMem;
use frame_pool::FramePool;
use job_model::{Image, Segment, Segments};
use lwk_boot::{guest_regs, load_guest};
use lwk_space::Space;
use mck_flags::Rights;
use mck_word::{Bytes, Frame, NoMemory};
use page_map::{PageMap, PageTable};
use std::alloc::Global;
use std::test::*;

/// Five bytes and three zeros over the end of a page.
fn small_image(alloc: Global) -> Result<Image, NoMemory>
    ensures image { IfOk result (λ i. IsImage i) }
    ensures frames { IfOk result (λ i. needed_frames i ≡ 19) }
{
    let mut segments: Segments = Segments::new(alloc);
    segments.push(Segment {
        addr: 0x1_0ffc,
        mem: 8,
        bytes: Bytes::from_slice(alloc, &[1, 2, 3, 4, 5])?,
        rights: Rights(5),
    })?;
    Ok(Image {
        entry: 0x1_1000,
        phdr: 0,
        phnum: 1,
        segments,
    })
}

/// One argument of one byte.
fn one_argument(alloc: Global) -> Result<Vec<Bytes>, NoMemory>
    ensures { IfOk result (λ v. AreArguments v.items) }
{
    let mut arguments = Vec::new(alloc);
    arguments.push(Bytes::from_slice(alloc, &[97])?)?;
    Ok(arguments)
}

#[test]
fn a_small_image(rt: HostRuntime) {
    let image = small_image(rt.alloc()).expect(&rt, "memory");
    let arguments = one_argument(rt.alloc()).expect(&rt, "memory");
    let mut mem = FrameMem::new(rt.alloc(), 32).expect(&rt, "memory");
    let mut pool = FramePool::new(rt.alloc(), 32).expect(&rt, "memory");
    let made: Result<Space<PageMap>, NoMemory> = load_guest(
        rt.alloc(),
        &image,
        &arguments,
        &mut mem,
        &mut pool,
    );
    let guest = made.expect(&rt, "memory");
    assert_eq!(rt; pool.free(), 13);
    assert_eq!(rt; guest.table().get(17), Some((Frame(1), Rights(5))));
    assert_eq!(rt; guest.areas().brk_of(), 0x1_2000);
    assert_eq!(rt; &mem.page(Frame(0))[4091..], [0, 1, 2, 3, 4].as_slice());
    assert_eq!(rt; &mem.page(Frame(1))[..3], [5, 0, 0].as_slice());
    assert_eq!(rt; &mem.page(Frame(17))[0xf50..0xf52], [1, 0].as_slice());
    assert_eq!(rt;
        &mem.page(Frame(17))[0xfee..0xff2],
        [97, 0, 0, 1].as_slice()
    );
    assert_eq!(rt;
        &mem.page(Frame(18))[..5],
        [0x93, 0x08, 0xb0, 0x08, 0x73].as_slice()
    );
    assert_eq!(rt; guest_regs(&image, &arguments).x[2], 0x3f_ffff_ef50);
}

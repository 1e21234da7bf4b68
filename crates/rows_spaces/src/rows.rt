// The rows.
ghost use Rattle.lwk_space.specs.Rows.{FramesIn};
ghost use Rattle.std.specs.Prelude.{◌≤◌, ◌<◌, ◌^◌};
ghost use Rattle.std.specs.Option.{ForSome};

use crate::checks::{all_present, frames_in, map_new};
use frame_mem::FrameMem;
use frame_pool::FramePool;
use isa_model::Lack;
use kernel_model::Change;
use lwk_space::Space;
use mck_flags::Rights;
use mck_word::{Access, Frame, NoMemory, PageRange};
use page_map::{PageMap, PageTable};
use std::alloc::Global;
use std::test::Fail;
use sv_table::SvTable;
use system_calls::MemoryCall;
use system_calls::errors::ENOMEM;
use vm_calls::{Facts, VmPlan, decide};

fn facts(free: u64, gap: Option<u64>, present: u64, lessens: bool) -> Facts
    ensures brk { result.brk < 2 ^ 63 }
    ensures base { result.base < 2 ^ 63 }
    ensures gap { ForSome result.gap (λ low. low < 2 ^ 52) }
{
    let gap = match gap {
        Some(low) => if low < 1 << 52 { Some(low) } else { None },
        None => None,
    };
    Facts {
        brk: 0x1_1000,
        base: 0x1_1000,
        free,
        gap,
        present,
        lessens,
    }
}

// Frames run out: of thirty-three a guest's boot takes eighteen (a page, sixteen of stack, the trampoline). A map of
// fifteen pages is decided and made, one of one page is refused. Answers how many are free on the way, and the two
// decisions.
fn frames_run_out<T: PageTable + Drop>(
    alloc: Global,
) -> Result<([u64; 3], VmPlan, VmPlan), NoMemory> {
    let mut mem = FrameMem::new(alloc, 33)?;
    let mut pool = FramePool::new(alloc, 33)?;
    let table: T = PageTable::empty(alloc)?;
    let mut space = Space::new(alloc, table);
    let mut free = [0u64; 3];
    for r in [
        PageRange { lo: 0x10, hi: 0x11 },
        PageRange {
            lo: 0x3ff_ffef,
            hi: 0x3ff_ffff,
        },
        PageRange {
            lo: 0x3ff_ffff,
            hi: 0x400_0000,
        },
    ] {
        let _ = map_new(&mut space, r, Rights(7), &mut mem, &mut pool);
    }
    free[0] = pool.free();
    let fifteen = [0, 15 * 4096, 3, 0x22, 0xffff_ffff_ffff_ffff, 0];
    let gap = space.areas().gap(15);
    let first = decide(
        &facts(pool.free(), gap, 0, false),
        MemoryCall::Mmap,
        &fifteen,
    );
    if let VmPlan::Now(Change::Map { range, rights }) = first {
        let _ = map_new(&mut space, range, rights, &mut mem, &mut pool);
    }
    free[1] = pool.free();
    let one = [0, 4096, 3, 0x22, 0xffff_ffff_ffff_ffff, 0];
    let gap = space.areas().gap(1);
    let second = decide(&facts(pool.free(), gap, 0, false), MemoryCall::Mmap, &one);
    let _ = map_new(
        &mut space,
        PageRange { lo: 0x20, hi: 0x21 },
        Rights(3),
        &mut mem,
        &mut pool,
    );
    free[2] = pool.free();
    Ok((free, first, second))
}

#[test]
fn frames_run_out_on_both(rt: HostRuntime) -> Result<(), Fail> {
    let range = PageRange {
        lo: 0x3ef_fff1,
        hi: 0x3f0_0000,
    };
    for (free, first, second) in [
        frames_run_out::<PageMap>(rt.alloc())?,
        frames_run_out::<SvTable>(rt.alloc())?,
    ] {
        assert_eq!(rt; free, [15, 0, 0]);
        assert_eq!(rt;
            first,
            VmPlan::Now(Change::Map {
                range,
                rights: Rights(3)
            })
        );
        assert_eq!(rt; second, VmPlan::Reply(ENOMEM));
    }
    Ok(())
}

// Whether so many bytes can be read, at most 8,192.
fn piece<T: PageTable>(
    space: &Space<T>,
    mem: &FrameMem,
    address: u64,
    len: usize,
) -> Result<(), Lack>
    requires frames { FramesIn (T.rows space.now.table) mem.now }
    requires few { len ≤ 8192 }
{
    let mut bytes = [0u8; 8192];
    space.read(mem, address, &mut bytes[..len])
}

// A write of 8,192 bytes from the middle of two pages on: its pieces of 2,048 and of 4,096 bytes can be read, and the
// third is at an absent page. Answers what each piece comes to, and then the whole, and a write from an address where
// nothing is.
fn short_write<T: PageTable + Drop>(alloc: Global) -> Result<[Result<(), Lack>; 5], NoMemory> {
    let mut mem = FrameMem::new(alloc, 4)?;
    let mut pool = FramePool::new(alloc, 4)?;
    let table: T = PageTable::empty(alloc)?;
    let mut space = Space::new(alloc, table);
    let _ = map_new(
        &mut space,
        PageRange {
            lo: 0x3ef_fffe,
            hi: 0x3f0_0000,
        },
        Rights(3),
        &mut mem,
        &mut pool,
    );
    if !frames_in(space.table(), &mem) {
        return Ok([Ok(()); 5]);
    }
    Ok([
        piece(&space, &mem, 0x3e_ffff_e800, 2048),
        piece(&space, &mem, 0x3e_ffff_f000, 4096),
        piece(&space, &mem, 0x3f_0000_0000, 2048),
        piece(&space, &mem, 0x3e_ffff_e800, 8192),
        piece(&space, &mem, 0x2000_0000, 8192),
    ])
}

#[test]
fn short_write_on_both(rt: HostRuntime) -> Result<(), Fail> {
    let past = Lack {
        page: 0x3f0_0000,
        access: Access::Read,
    };
    let nowhere = Lack {
        page: 0x2_0000,
        access: Access::Read,
    };
    for answers in [
        short_write::<PageMap>(rt.alloc())?,
        short_write::<SvTable>(rt.alloc())?,
    ] {
        assert_eq!(rt; answers[0], Ok(()));
        assert_eq!(rt; answers[1], Ok(()));
        assert_eq!(rt; answers[2], Err(past));
        assert_eq!(rt; answers[3], Err(past));
        assert_eq!(rt; answers[4], Err(nowhere));
    }
    Ok(())
}

// A right is added to a page that has the read right, without a round. Answers the decision, and the frame for a write
// before and after.
fn right_added<T: PageTable + Drop>(
    alloc: Global,
) -> Result<(VmPlan, Option<(Frame, Rights)>, Option<(Frame, Rights)>), NoMemory> {
    let mut mem = FrameMem::new(alloc, 4)?;
    let mut pool = FramePool::new(alloc, 4)?;
    let table: T = PageTable::empty(alloc)?;
    let mut space = Space::new(alloc, table);
    let _ = map_new(
        &mut space,
        PageRange { lo: 0x20, hi: 0x21 },
        Rights(1),
        &mut mem,
        &mut pool,
    );
    let before = space.frame_at(0x20, Access::Write);
    let plan = decide(
        &facts(pool.free(), None, 1, false),
        MemoryCall::Mprotect,
        &[0x2_0000, 4096, 3, 0, 0, 0],
    );
    if let VmPlan::Now(Change::Protect { range, rights }) = plan {
        if range.lo <= range.hi && all_present(space.table(), &range) {
            space.protect(&range, rights);
        }
    }
    Ok((plan, before, space.frame_at(0x20, Access::Write)))
}

#[test]
fn right_added_on_both(rt: HostRuntime) -> Result<(), Fail> {
    let range = PageRange { lo: 0x20, hi: 0x21 };
    for (plan, before, after) in [
        right_added::<PageMap>(rt.alloc())?,
        right_added::<SvTable>(rt.alloc())?,
    ] {
        assert_eq!(rt;
            plan,
            VmPlan::Now(Change::Protect {
                range,
                rights: Rights(3)
            })
        );
        assert_eq!(rt; before, None);
        assert_eq!(rt; after, Some((Frame(0), Rights(3))));
    }
    Ok(())
}

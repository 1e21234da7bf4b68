// A space without a page, and a copy of it.
use frame_mem::FrameMem;
use frame_pool::FramePool;
use lwk_space::Space;
use mck_word::{Access, NoMemory, PageRange};
use page_map::{PageMap, PageTable};

#[test]
fn an_empty_space(rt: HostRuntime) {
    let made: Result<PageMap, NoMemory> = PageTable::empty(rt.alloc());
    assert!(rt; made.is_ok());
    if let Ok(table) = made {
        let mut space = Space::new(rt.alloc(), table);
        let room = space.make_room(&[PageRange { lo: 16, hi: 18 }]).is_ok()
            && space.reserve(2).is_ok();
        assert!(rt; room);
        assert_eq!(rt; space.frame_at(16, Access::Read), None);
        assert_eq!(rt; space.areas().gap(1), Some(0x3ef_ffff));
        space.set_brk(0x1_2345);
        assert_eq!(rt; space.areas().brk_of(), 0x1_2345);
        assert_eq!(rt; space.table().get(16), None);
    }
}

#[test]
fn a_copy_of_an_empty_space(rt: HostRuntime) {
    let made: Result<PageMap, NoMemory> = PageTable::empty(rt.alloc());
    let other: Result<PageMap, NoMemory> = PageTable::empty(rt.alloc());
    let frames = FrameMem::new(rt.alloc(), 2);
    let pool = FramePool::new(rt.alloc(), 2);
    if let (Ok(table), Ok(other), Ok(mut mem), Ok(mut pool)) = (made, other, frames, pool) {
        let mut space = Space::new(rt.alloc(), table);
        space.set_brk(0x1_2345);
        let mut copy = Space::new(rt.alloc(), other);
        let room = copy.reserve_copy(&space).is_ok();
        assert!(rt; room);
        copy.copy_space(&space, &mut mem, &mut pool);
        assert_eq!(rt; copy.areas().brk_of(), 0x1_2345);
        assert_eq!(rt; copy.table().next(0), None);
        assert_eq!(rt; pool.free(), 2);
    }
}

// Memory calls over a space without a page.
use frame_mem::FrameMem;
use frame_pool::FramePool;
use kernel_model::Change;
use lwk_changes::{decide, finish, make, make_room_for};
use lwk_space::Space;
use mck_flags::Rights;
use mck_word::{NoMemory, PageRange};
use page_map::{PageMap, PageTable};
use system_calls::MemoryCall;
use system_calls::errors::ENOMEM;
use vm_calls::{AtEnd, VmPlan};

#[test]
fn an_empty_space(rt: HostRuntime) {
    let made: Result<PageMap, NoMemory> = PageTable::empty(rt.alloc());
    let mut own = Space::new(rt.alloc(), made.expect(&rt, "memory"));
    let mut mem = FrameMem::new(rt.alloc(), 4).expect(&rt, "memory");
    let mut pool = FramePool::new(rt.alloc(), 4).expect(&rt, "memory");
    let range = PageRange { lo: 0x20, hi: 0x22 };
    let rights = Rights(3);
    let unmap = [0x2_0000, 0x2000, 0, 0, 0, 0];
    assert_eq!(rt;
        decide(&own, 0x1_2345, 0x1_2000, 4, MemoryCall::Munmap, &unmap),
        VmPlan::Reply(0)
    );
    // two pages want two frames
    let map = Change::Map { range, rights };
    assert_eq!(rt; finish(&own, 0x1_2345, 0x1_2000, 2, &map), AtEnd::Make);
    assert_eq!(rt;
        finish(&own, 0x1_2345, 0x1_2000, 1, &map),
        AtEnd::Reply(ENOMEM)
    );
    let change = Change::Unmap(range);
    make_room_for(&mut own, 0x1_2345, &change).expect(&rt, "memory");
    make(&mut own, &mut mem, &mut pool, 0x1_2345, &change);
    assert_eq!(rt; own.table().get(0x20), None);
}

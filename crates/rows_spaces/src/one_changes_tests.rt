// Pages that come and go by memory calls.
use kernel_model::Change;
use mck_flags::Rights;
use mck_word::PageRange;
use one_changes::{decide, finish, make, make_room_for};
use one_memory::PageRows;
use system_calls::MemoryCall;
use system_calls::errors::ENOMEM;
use vm_calls::{AtEnd, VmPlan};

#[test]
fn pages_come_and_go(rt: HostRuntime) {
    let mut memory = PageRows::new(rt.alloc());
    let mut free = 4;
    let range = PageRange { lo: 0x20, hi: 0x22 };
    let rights = Rights(3);
    let unmap = [0x2_0000, 0x2000, 0, 0, 0, 0];
    assert_eq!(rt;
        decide(&memory, 0x1_2345, 0x1_2000, 4, MemoryCall::Munmap, &unmap),
        VmPlan::Reply(0)
    );
    // two pages want two frames
    let map = Change::Map { range, rights };
    assert_eq!(rt; finish(&memory, 0x1_2345, 2, &map), AtEnd::Make);
    assert_eq!(rt; finish(&memory, 0x1_2345, 1, &map), AtEnd::Reply(ENOMEM));
    make_room_for(&mut memory, rt.alloc(), 0x1_2345, &map).expect(&rt, "memory");
    if memory.count() < 9 {
        make(&mut memory, &mut free, 0x1_2345, &map);
    }
    assert_eq!(rt; (memory.count(), free), (2, 2));
    assert_eq!(rt; finish(&memory, 0x1_2345, 0, &map), AtEnd::Make);
    let change = Change::Unmap(range);
    make(&mut memory, &mut free, 0x1_2345, &change);
    assert_eq!(rt; (memory.count(), free), (0, 4));
}

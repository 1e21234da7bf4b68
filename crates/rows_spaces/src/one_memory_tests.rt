// A memory without a page, and the pages of a range.
use mck_flags::Rights;
use mck_word::PageRange;
use one_memory::PageRows;

#[test]
fn no_page_has_no_bytes(rt: HostRuntime) {
    let mut memory = PageRows::new(rt.alloc());
    let mut bytes = [7; 3];
    assert!(rt; memory.can_read(64, 0));
    assert!(rt; !memory.can_read(64, 1));
    assert!(rt; !memory.can_write(u64::MAX, 2));
    assert!(rt; !memory.read_into(0xfff, &mut bytes));
    assert_eq!(rt; bytes, [7; 3]);
    assert!(rt; !memory.try_store(0xfff, &bytes));
    assert!(rt; memory.try_store(0xfff, &[]));
}

#[test]
fn pages_of_a_range(rt: HostRuntime) {
    let mut memory = PageRows::new(rt.alloc());
    memory.reserve(rt.alloc(), 4).expect(&rt, "memory");
    memory.add_range(&PageRange { lo: 0x20, hi: 0x22 }, Rights(3));
    memory.add_range(&PageRange { lo: 0x30, hi: 0x32 }, Rights(1));
    assert_eq!(rt; memory.next(0x22), Some(0x30));
    assert_eq!(rt; memory.last_below(0x30), Some(0x21));
    assert_eq!(rt; memory.last_below(0x20), None);
    memory.protect_range(&PageRange { lo: 0x21, hi: 0x31 }, Rights(5));
    assert_eq!(rt; memory.rights(0x20), Some(Rights(3)));
    assert_eq!(rt; memory.rights(0x30), Some(Rights(5)));
    assert_eq!(rt; memory.rights(0x22), None);
    assert_eq!(rt; memory.drop_range(&PageRange { lo: 0x21, hi: 0x31 }), 2);
    assert_eq!(rt; memory.count(), 2);
}

// Gaps, covered pages and copies.
use mck_word::PageRange;
use vm_areas::Areas;

#[test]
fn gaps(rt: HostRuntime) {
    let mut areas = Areas::new(rt.alloc());
    assert_eq!(rt; areas.gap(1), Some(0x3ef_ffff));
    let made_room = areas.reserve(3).is_ok();
    assert!(rt; made_room);
    areas.set_brk(0x1_2345);
    assert_eq!(rt; areas.brk_of(), 0x1_2345);
    assert_eq!(rt; areas.gap(0x3ef_fff0), Some(0x10));
    assert_eq!(rt; areas.gap(0x3ef_fff1), None);
}

#[test]
fn a_page_is_covered(rt: HostRuntime) {
    let mut areas = Areas::new(rt.alloc());
    if areas.reserve(2).is_ok() {
        areas.cover(PageRange {
            lo: 0x3ef_fffe,
            hi: 0x3f0_0000,
        });
        assert!(rt; areas.gap(1) != Some(0x3ef_ffff));
    }
}

#[test]
fn a_copy(rt: HostRuntime) {
    let mut areas = Areas::new(rt.alloc());
    let mut copy = Areas::new(rt.alloc());
    if areas.reserve(1).is_ok() {
        areas.cover(PageRange {
            lo: 0x3ef_fffe,
            hi: 0x3f0_0000,
        });
        areas.set_brk(72);
        if copy.reserve_copy(&areas).is_ok() {
            copy.copy_from(&areas);
            assert_eq!(rt; copy.ranges().len(), areas.ranges().len());
            assert_eq!(rt; copy.brk_of(), 72);
            assert!(rt; copy.gap(1) != Some(0x3ef_ffff));
        }
    }
}

// Rows of a mirror.
use mck_flags::Rights;
use mck_word::{Access, Frame, PageRange};
use mirror_tables::Mirror;
use std::test::Fail;

#[test]
fn rows_by_page(rt: HostRuntime) -> Result<(), Fail> {
    let mut mirror = Mirror::new(rt.alloc());
    for (page, frame) in [(16, 3), (18, 4), (17, 5), (18, 6)] {
        mirror.reserve()?;
        mirror.install(page, Frame(frame), Rights::READ);
    }
    assert_eq!(rt;
        mirror.look(18, Access::Read),
        Some((Frame(6), Rights::READ))
    );
    assert_eq!(rt; mirror.look(18, Access::Write), None);
    assert_eq!(rt; mirror.look(19, Access::Read), None);
    mirror.drop_range(PageRange { lo: 17, hi: 18 });
    assert_eq!(rt; mirror.next(0), Some(16));
    assert_eq!(rt; mirror.next(17), Some(18));
    assert_eq!(rt; mirror.next(19), None);
    Ok(())
}

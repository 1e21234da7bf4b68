// Numbers in three groups.
use number_groups::Groups;
use std::alloc::{AllocError, Global};
use std::test::Fail;

// Numbers in three groups, the greatest too.
fn some(alloc: Global) -> Result<Groups, AllocError> {
    let mut groups = Groups::new(alloc);
    groups.reserve(6)?;
    for (group, number) in [
        (1, 20),
        (0, 4_294_967_295),
        (1, 17),
        (2, 0),
        (1, 20),
        (2, 5),
    ] {
        groups.reserve(1)?;
        groups.insert(group, number);
    }
    Ok(groups)
}

#[test]
fn finds_the_next_of_a_group(rt: HostRuntime) -> Result<(), Fail> {
    let mut groups = some(rt.alloc())?;
    assert_eq!(rt; groups.next(1, 0), Some(17));
    assert_eq!(rt; groups.next(1, 18), Some(20));
    assert_eq!(rt; groups.next(1, 21), None);
    assert_eq!(rt; groups.next(0, 1), Some(4_294_967_295));
    assert_eq!(rt; groups.next(3, 0), None);
    groups.remove(1, 17);
    groups.remove(2, 17);
    assert_eq!(rt; groups.next(1, 0), Some(20));
    assert_eq!(rt; groups.next(2, 0), Some(0));
    assert!(rt; groups.contains(2, 5));
    assert!(rt; !groups.contains(5, 2));
    Ok(())
}

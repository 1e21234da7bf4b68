// A space without a page has no bytes.
use lwk_space::Space;
use lwk_views::{can_read, can_write};
use mck_word::NoMemory;
use page_map::{PageMap, PageTable};

#[test]
fn an_empty_space_has_no_bytes(rt: HostRuntime) {
    let made: Result<PageMap, NoMemory> = PageTable::empty(rt.alloc());
    assert!(rt; made.is_ok());
    if let Ok(table) = made {
        let space = Space::new(rt.alloc(), table);
        assert!(rt; can_read(&space, 64, 0));
        assert!(rt; !can_read(&space, 64, 1));
        assert!(rt; !can_write(&space, 64, 1));
    }
}

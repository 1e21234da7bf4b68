// The plain page table without a row.
use mck_word::{NoMemory, PageRange};
use page_map::{PageMap, PageTable};

#[test]
fn rows_of_a_list(rt: HostRuntime) {
    let made: Result<PageMap, NoMemory> = PageTable::empty(rt.alloc());
    assert!(rt; made.is_ok());
    if let Ok(mut table) = made {
        let made_room = table.reserve(&[PageRange { lo: 3, hi: 5 }]).is_ok();
        assert!(rt; made_room);
        assert_eq!(rt; table.get(3), None);
        assert_eq!(rt; table.next(0), None);
    }
}

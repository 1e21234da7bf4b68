// One table of cases on both page tables, and the words of a table.
use mck_flags::Rights;
use mck_word::{Frame, PageRange};
use page_map::{PageMap, PageTable};
use std::test::Fail;
use sv_table::SvTable;

// A call, as far as its condition holds; room is made first for a page that is put in.
#[derive(Clone, Copy)]
enum Call {
    Put(u64, u32, u8),
    Take(u64),
    Change(u64, u8),
    Get(u64),
    Next(u64),
    Reserve(u64, u64, u64),
}

// What a call answers: a row, a page, and whether it was made.
type Answer = (Option<(Frame, Rights)>, Option<u64>, bool);

fn answer<T: PageTable>(table: &mut T, call: &Call) -> Answer {
    match call {
        Call::Put(page, frame, rights) => {
            let page = *page;
            let may = page < 1 << 27
                && table.get(page).is_none()
                && table
                    .reserve(&[PageRange {
                        lo: page,
                        hi: page + 1,
                    }])
                    .is_ok();
            if may {
                table.insert(page, Frame(*frame), Rights(*rights));
            }
            (table.get(page), None, may)
        }
        Call::Take(page) => {
            let row = table.get(*page);
            let taken = if row.is_some() {
                Some(u64::from(table.remove(*page).0))
            } else {
                None
            };
            (row, taken, table.get(*page).is_none())
        }
        Call::Change(page, rights) => {
            let may = table.get(*page).is_some();
            if may {
                table.set_rights(*page, Rights(*rights));
            }
            (table.get(*page), None, may)
        }
        Call::Get(page) => (table.get(*page), None, true),
        Call::Next(from) => (None, table.next(*from), true),
        Call::Reserve(lo, middle, hi) => {
            let may = lo <= middle && middle <= hi && *hi <= 1 << 27;
            let room = may
                && table
                    .reserve(&[
                        PageRange {
                            lo: *lo,
                            hi: *middle,
                        },
                        PageRange {
                            lo: *middle,
                            hi: *hi,
                        },
                    ])
                    .is_ok();
            (None, None, room)
        }
    }
}

const CASES: [Call; 40] = [
    Call::Get(0),
    Call::Next(0),
    Call::Put(0x10, 0, 7),
    Call::Get(0x10),
    Call::Get(0x11),
    Call::Next(0),
    Call::Next(0x10),
    Call::Next(0x11),
    // The last page of a leaf, the first of the next; the last of a middle node, the first of the next.
    Call::Put(511, 1, 1),
    Call::Put(512, 2, 3),
    Call::Put(262_143, 3, 5),
    Call::Put(262_144, 4, 0),
    Call::Next(0x11),
    Call::Next(512),
    Call::Next(513),
    Call::Next(262_144),
    Call::Next(262_145),
    // The last page of all, and those past it.
    Call::Put(0x7ff_ffff, 0xffff_ffff, 7),
    Call::Get(0x7ff_ffff),
    Call::Next(262_145),
    Call::Put(0x800_0000, 5, 7),
    Call::Get(0x800_0000),
    Call::Get(0xffff_ffff_ffff_ffff),
    Call::Next(0x800_0000),
    Call::Next(0xffff_ffff_ffff_ffff),
    // Rights change, also of an absent page; rights of any eight bits are kept.
    Call::Change(512, 1),
    Call::Change(513, 1),
    Call::Change(511, 0xff),
    Call::Get(511),
    Call::Put(511, 9, 7),
    // Pages go, and their nodes with them; then they come again.
    Call::Take(512),
    Call::Next(512),
    Call::Take(513),
    Call::Take(262_144),
    Call::Next(262_144),
    Call::Put(262_144, 6, 3),
    Call::Reserve(0, 5, 600),
    Call::Reserve(100, 100, 300_000),
    Call::Take(0x7ff_ffff),
    Call::Next(262_145),
];

#[test]
fn both_tables_answer_alike(rt: HostRuntime) -> Result<(), Fail> {
    let mut plain: PageMap = PageTable::empty(rt.alloc())?;
    let mut tree: SvTable = PageTable::empty(rt.alloc())?;
    let mut k = 0u64;
    for call in &CASES {
        let wanted = answer(&mut plain, call);
        let got = answer(&mut tree, call);
        assert_eq!(rt; got.0, wanted.0, "row of call {k}");
        assert_eq!(rt; got.1, wanted.1, "page of call {k}");
        assert_eq!(rt; got.2, wanted.2, "call {k}");
        k = k.wrapping_add(1);
    }
    // The pages in order, with their rows.
    let mut from = 0u64;
    for _ in 0..10 {
        let page = plain.next(from);
        assert_eq!(rt; tree.next(from), page);
        if let Some(page) = page {
            assert_eq!(rt; tree.get(page), plain.get(page));
            from = page.wrapping_add(1);
        }
    }
    Ok(())
}

fn word(table: &SvTable, key: u64, i: usize) -> Option<u64> {
    let words = table.node(u32::try_from(key).ok()?)?;
    words.get(i).copied()
}

fn nodes(table: &SvTable) -> u32 {
    let mut count = 0u32;
    for key in 0..100 {
        if table.node(key).is_some() {
            count = count.wrapping_add(1);
        }
    }
    count
}

#[test]
fn words_of_a_table(rt: HostRuntime) -> Result<(), Fail> {
    let mut table: SvTable = PageTable::empty(rt.alloc())?;
    assert_eq!(rt; nodes(&table), 1);
    let _ = answer(&mut table, &Call::Put(0x10, 0, 7));
    for k in 0..16u32 {
        let _ = answer(&mut table, &Call::Put(0x3ff_ffef + u64::from(k), 1 + k, 3));
    }
    let _ = answer(&mut table, &Call::Put(0x3ff_ffff, 17, 5));
    assert_eq!(rt; nodes(&table), 5);
    // From the root by the indexes 0, 0, 16, and 255, 511, 511.
    let low = word(&table, 0, 0).expect(&rt, "an entry") / 1024;
    assert_eq!(rt; word(&table, 0, 0), Some(1 + 1024 * low));
    let leaf = word(&table, low, 0).expect(&rt, "an entry") / 1024;
    assert_eq!(rt; word(&table, leaf, 16), Some(0x0f));
    let high = word(&table, 0, 255).expect(&rt, "an entry") / 1024;
    let leaf = word(&table, high, 511).expect(&rt, "an entry") / 1024;
    assert_eq!(rt; word(&table, leaf, 511), Some(0x440b));
    // A node that is left without an entry goes, and the one above it with it; the root stays.
    let _ = answer(&mut table, &Call::Take(0x10));
    assert_eq!(rt; nodes(&table), 3);
    for k in 0..17u64 {
        let _ = answer(&mut table, &Call::Take(0x3ff_ffef + k));
    }
    assert_eq!(rt; nodes(&table), 1);
    assert_eq!(rt; word(&table, 0, 255), Some(0));
    Ok(())
}

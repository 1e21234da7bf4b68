// Rows by key.
use key_rows::{RowTest, Rows};
use std::alloc::{AllocError, Global};
use std::test::Fail;

// A test of values.
struct Above(u32);

impl RowTest<u32> for Above {
    ghost use Rattle.std.specs.Prelude.{nat_lt};

    ghost passes = { λ a key value. nat_lt a.0 value };

    fn is_kept(&self, _key: u64, value: &u32) -> bool {
        self.0 < *value
    }
}

// Four rows, put in out of order.
fn four(alloc: Global) -> Result<Rows<u32>, AllocError> {
    let mut rows = Rows::new(alloc);
    rows.reserve(4)?;
    for key in [7, 3, 9, 5] {
        rows.reserve(1)?;
        rows.put(key, 10 * key as u32);
    }
    Ok(rows)
}

#[test]
fn keeps_rows_by_key(rt: HostRuntime) -> Result<(), Fail> {
    let mut rows = four(rt.alloc())?;
    assert_eq!(rt; rows.len(), 4);
    assert_eq!(rt; rows.get(5).copied(), Some(50));
    assert_eq!(rt; rows.get(4), None);
    assert_eq!(rt; rows.next(4), Some(5));
    assert_eq!(rt; rows.next(10), None);
    if rows.get(9).is_some() {
        *rows.row_mut(9) = 1;
    }
    if rows.get(3).is_some() {
        rows.set(3, 2);
    }
    if rows.get(3).is_some() {
        assert_eq!(rt; rows.remove(3), 2);
    }
    rows.drop_range(7, 9);
    assert_eq!(rt; rows.as_slice(), [(5, 50), (9, 1)].as_slice());
    assert_eq!(rt; rows.first_free(), 0);
    rows.retain(&Above(10));
    assert_eq!(rt; rows.as_slice(), [(5, 50)].as_slice());
    Ok(())
}

// The pages of a process, copied for a child.
ghost use Rattle.mck_word.specs.Maps.{count, no_rows, put};
ghost use Rattle.std.specs.Prelude.{◌≡◌, ◌≤◌, ◌+◌, vec_len};

use crate::page_row::PageRow;
use key_rows::Rows;

/// Puts a copy of a page in at its number.
fn copy_row(rows: &mut Rows<PageRow>, unused: &mut Vec<PageRow>, row: &(u64, PageRow))
    requires some { 1 ≤ vec_len unused.old }
    requires room { vec_len unused.old ≤ rows.old.spare }
    ensures page { rows.new.map ≡ put rows.old.map row.now.0 row.now.1 }
    ensures unused { vec_len unused.new + 1 ≡ vec_len unused.old }
    ensures room { vec_len unused.new ≤ rows.new.spare }
{
    let Some(mut page) = unused.pop() else {
        unreachable!();
    };
    page.copy(&row.1);
    rows.put(row.0, page);
}

/// Copies pages into rows that have none.
pub fn copy_rows(rows: &mut Rows<PageRow>, unused: &mut Vec<PageRow>, from: &Rows<PageRow>)
    requires empty { rows.old.map ≡ no_rows }
    requires some { count from.now.map ≤ vec_len unused.old }
    requires room { vec_len unused.old ≤ rows.old.spare }
    ensures same { rows.new.map ≡ from.now.map }
    ensures room { vec_len unused.new ≤ rows.new.spare }
{
    for row in from.as_slice() {
        copy_row(rows, unused, row);
    }
}

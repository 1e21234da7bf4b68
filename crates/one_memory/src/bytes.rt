// Bytes read and written through the pages of a process.
ghost use Rattle.isa_model.specs.Memory.{lacks, may_access, read_bytes, write_bytes};
ghost use Rattle.mck_word.specs.Maps.{at};
ghost use Rattle.mck_word.specs.declared.Access.TheVariants.{Read, Write};
ghost use Rattle.one_memory.specs.Lacking.{Allowed, NoneLacks, SomeLacks};
ghost use Rattle.std.specs.Bool.{OnTrue};
ghost use Rattle.std.specs.Prelude.{◌≡◌, ◌≤◌, ◌<◌, ◌+◌, ◌-◌, ◌*◌, ◌/◌, ◌^◌, IsSome, MatchBool, length, not, true};

use crate::page_row::PageRow;
use isa_model::allows;
use key_rows::Rows;
use mck_word::Access;

/// Whether a page is present and has the right.
#[inline(always)]
pub fn has_right(rows: &Rows<PageRow>, a: Access, page: u64) -> bool
    ensures { result ≡ not (lacks rows.now.map a page) }
{
    match rows.get(page) {
        Some(row) => allows(a, row.rights()),
        None => false,
    }
}

/// Whether each of some pages is present and has the right.
fn all_have(rows: &Rows<PageRow>, a: Access, first: u64, count: u64) -> bool
    requires { first + count < 2 ^ 64 }
    ensures { MatchBool result (NoneLacks rows.now.map a first (first + count)) (SomeLacks rows.now.map a first (first + count)) }
{
    for page in first..first + count {
        if !has_right(rows, a, page) {
            return false;
        }
    }
    true
}

/// How many pages so many bytes from an address on touch.
fn pages_touched(address: u64, len: u64) -> u64
    requires { len < 2 ^ 63 }
    ensures some { 1 ≤ len → address / 4096 + result ≡ (address + len - 1) / 4096 + 1 }
    ensures none { len ≡ 0 → result ≡ 0 }
    ensures few { result ≤ 2 ^ 52 }
{
    if len == 0 {
        0
    } else {
        (address % 4096 + (len - 1)) / 4096 + 1
    }
}

/// Whether each page that so many bytes from an address on touch is present and has the right.
pub fn may_access(rows: &Rows<PageRow>, a: Access, address: u64, len: u64) -> bool
    requires { len < 2 ^ 63 }
    ensures may { result ≡ may_access rows.now.map a address len }
    ensures allowed { OnTrue result (Allowed rows.now.map a address len) }
{
    all_have(rows, a, address / 4096, pages_touched(address, len))
}

/// Reads bytes of one page.
fn read_piece(rows: &Rows<PageRow>, page: u64, off: usize, into: &mut [u8])
    requires there { IsSome (at rows.now.map page) }
    requires inside { off + length into.old ≤ 4096 }
    ensures { into.new ≡ read_bytes rows.now.map (page * 4096 + off) (length into.old) }
{
    let Some(row) = rows.get(page) else {
        unreachable!();
    };
    row.copy_out(off, into);
}

/// Reads bytes of pages that are present and may be read.
pub fn read(rows: &Rows<PageRow>, address: u64, into: &mut [u8])
    requires { Allowed rows.now.map Read address (length into.old) }
    ensures { into.new ≡ read_bytes rows.now.map address (length into.old) }
{
    let first = address / 4096;
    let start = (address % 4096) as usize;
    let mut done = 0;
    while done < into.len() {
        let off = (start + done) % 4096;
        let page = first + ((start + done) / 4096) as u64;
        let len = (into.len() - done).min(4096 - off);
        read_piece(rows, page, off, &mut into[done..done + len]);
        done += len;
    }
}

/// Writes bytes of one page.
fn write_piece(rows: &mut Rows<PageRow>, page: u64, off: usize, from: &[u8])
    requires there { IsSome (at rows.old.map page) }
    requires inside { off + length from.now ≤ 4096 }
    ensures memory { rows.new.map ≡ write_bytes rows.old.map (page * 4096 + off) from.now }
    ensures spare { rows.new.spare ≡ rows.old.spare }
{
    rows.row_mut(page).copy_in(off, from);
}

/// Writes bytes of pages that are present and may be written.
pub fn write(rows: &mut Rows<PageRow>, address: u64, from: &[u8])
    requires { Allowed rows.old.map Write address (length from.now) }
    ensures memory { rows.new.map ≡ write_bytes rows.old.map address from.now }
    ensures spare { rows.new.spare ≡ rows.old.spare }
{
    let first = address / 4096;
    let start = (address % 4096) as usize;
    let mut done = 0;
    while done < from.len() {
        let off = (start + done) % 4096;
        let page = first + ((start + done) / 4096) as u64;
        let len = (from.len() - done).min(4096 - off);
        write_piece(rows, page, off, &from[done..done + len]);
        done += len;
    }
}

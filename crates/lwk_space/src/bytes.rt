// Bytes read and written through a table.
ghost use Rattle.hybrid_model.specs.Sides.{looked_up};
ghost use Rattle.mck_word.specs.Maps.{at};
ghost use Rattle.mck_word.specs.declared.Access.TheVariants.{Read, Write};
ghost use Rattle.isa_model.specs.Memory.{lacks, may_access, read_bytes, write_bytes};
ghost use Rattle.lwk_space.specs.Lacks.{Allowed, FirstLacks, IsFirstLack, NoRowHas, NoneLacks, Refused, memory};
ghost use Rattle.lwk_space.specs.Rows.{FramesApart, FramesIn};
ghost use Rattle.std.specs.Prelude.{◌≡◌, ◌≤◌, ◌<◌, ◌+◌, ◌-◌, ◌*◌, ◌/◌, ◌%◌, ◌^◌, ℕ, List, [], IfErr, IsSome, OnErr, OnOk, MatchOption, MatchResult, length, false, true, slice_index_or};

use frame_mem::FrameMem;
use isa_model::{Lack, allows};
use mck_flags::Rights;
use mck_word::{Access, Frame};
use page_map::PageTable;

/// The frame and the rights of a page, where it is present and has the right.
#[inline(always)]
pub fn row_at<T: PageTable>(table: &T, page: u64, a: Access) -> Option<(Frame, Rights)>
    ensures row { result ≡ looked_up (at (T.rows table.now) page) a }
    ensures below { IsSome result → page < 2 ^ 27 }
{
    match table.get(page) {
        Some(row) => if allows(a, row.1) { Some(row) } else { None },
        None => None,
    }
}

/// The first of some pages that is absent or lacks the right.
fn lacking<T: PageTable>(table: &T, a: Access, first: u64, count: u64) -> Option<u64>
    requires { first + count < 2 ^ 64 }
    ensures { MatchOption result (NoneLacks (T.rows table.now) a first (first + count)) (λ l. (l < first + count) × FirstLacks (T.rows table.now) a first l) }
{
    for page in first..first + count {
        if row_at(table, page, a).is_none() {
            return Some(page);
        }
    }
    None
}

/// How many pages so many bytes from an address on touch.
fn pages_touched(address: u64, len: u64) -> u64
    requires { len < 2 ^ 63 }
    ensures some { 1 ≤ len → address / 4096 + result ≡ (address + len - 1) / 4096 + 1 }
    ensures none { len ≡ 0 → result ≡ 0 }
    ensures few { result ≤ 2 ^ 52 }
{
    if len == 0 {
        0
    } else {
        (address % 4096 + (len - 1)) / 4096 + 1
    }
}

/// Whether each page of a range of bytes is present and has the right.
fn check<T: PageTable>(table: &T, a: Access, address: u64, len: u64) -> Result<(), Lack>
    requires { len < 2 ^ 63 }
    ensures { MatchResult result (λ _. Allowed (T.rows table.now) a address len) (λ l. Refused (T.rows table.now) a address len l) }
{
    match lacking(table, a, address / 4096, pages_touched(address, len)) {
        Some(page) => Err(Lack { page, access: a }),
        None => Ok(()),
    }
}

/// Whether each page that so many bytes from an address on touch is present and has the right.
pub fn may_access<T: PageTable>(table: &T, a: Access, address: u64, len: u64) -> bool
    requires { len < 2 ^ 63 }
    ensures { (pages : List (List ℕ)) → result ≡ may_access (memory (T.rows table.now) pages) a address len }
{
    match check(table, a, address, len) {
        Ok(()) => true,
        Err(_) => false,
    }
}

/// Reads bytes of one page.
fn read_piece<T: PageTable>(table: &T, mem: &FrameMem, page: u64, off: u32, into: &mut [u8])
    requires there { IsSome (looked_up (at (T.rows table.now) page) Read) }
    requires frames { FramesIn (T.rows table.now) mem.now }
    requires inside { off + length into.old ≤ 4096 }
    ensures { into.new ≡ read_bytes (memory (T.rows table.now) mem.now) (page * 4096 + off) (length into.old) }
{
    let Some(row) = row_at(table, page, Access::Read) else {
        unreachable!();
    };
    mem.copy_out(row.0, off, into);
}

/// Reads bytes of pages that are present and may be read.
fn read_pieces<T: PageTable>(table: &T, mem: &FrameMem, address: u64, into: &mut [u8])
    requires allowed { Allowed (T.rows table.now) Read address (length into.old) }
    requires frames { FramesIn (T.rows table.now) mem.now }
    ensures { into.new ≡ read_bytes (memory (T.rows table.now) mem.now) address (length into.old) }
{
    let mut done = 0;
    while done < into.len() {
        let at = address + done as u64;
        let off = at % 4096;
        let len = (into.len() - done).min(4096 - off as usize);
        read_piece(
            table,
            mem,
            at / 4096,
            off as u32,
            &mut into[done..done + len],
        );
        done += len;
    }
}

/// Reads bytes, or names the first page that is absent or lacks the read right, and reads nothing then.
pub fn read<T: PageTable>(
    table: &T,
    mem: &FrameMem,
    address: u64,
    into: &mut [u8],
) -> Result<(), Lack>
    requires { FramesIn (T.rows table.now) mem.now }
    ensures read { OnOk result (into.new ≡ read_bytes (memory (T.rows table.now) mem.now) address (length into.old)) }
    ensures may { OnOk result (may_access (memory (T.rows table.now) mem.now) Read address (length into.old) ≡ true) }
    ensures lack { IfErr result (λ l. IsFirstLack (memory (T.rows table.now) mem.now) Read address (length into.old) l) }
    ensures unread { OnErr result (into.new ≡ into.old) }
{
    match check(table, Access::Read, address, into.len() as u64) {
        Ok(()) => {
            read_pieces(table, mem, address, into);
            Ok(())
        }
        Err(lack) => Err(lack),
    }
}

/// Writes bytes of one page.
fn write_piece<T: PageTable>(table: &T, mem: &mut FrameMem, page: u64, off: u32, from: &[u8])
    requires there { IsSome (looked_up (at (T.rows table.now) page) Write) }
    requires frames { FramesIn (T.rows table.now) mem.old }
    requires apart { FramesApart (T.rows table.now) }
    requires inside { off + length from.now ≤ 4096 }
    ensures memory { memory (T.rows table.now) mem.new ≡ write_bytes (memory (T.rows table.now) mem.old) (page * 4096 + off) from.now }
    ensures others { (f : ℕ) → NoRowHas (T.rows table.now) f → slice_index_or mem.new f [] ≡ slice_index_or mem.old f [] }
    ensures len { length mem.new ≡ length mem.old }
{
    let Some(row) = row_at(table, page, Access::Write) else {
        unreachable!();
    };
    mem.copy_in(row.0, off, from);
}

/// Writes bytes of pages that are present and may be written.
fn write_pieces<T: PageTable>(table: &T, mem: &mut FrameMem, address: u64, from: &[u8])
    requires allowed { Allowed (T.rows table.now) Write address (length from.now) }
    requires frames { FramesIn (T.rows table.now) mem.old }
    requires apart { FramesApart (T.rows table.now) }
    ensures memory { memory (T.rows table.now) mem.new ≡ write_bytes (memory (T.rows table.now) mem.old) address from.now }
    ensures others { (f : ℕ) → NoRowHas (T.rows table.now) f → slice_index_or mem.new f [] ≡ slice_index_or mem.old f [] }
    ensures len { length mem.new ≡ length mem.old }
{
    let mut done = 0;
    while done < from.len() {
        let at = address + done as u64;
        let off = at % 4096;
        let len = (from.len() - done).min(4096 - off as usize);
        write_piece(table, mem, at / 4096, off as u32, &from[done..done + len]);
        done += len;
    }
}

/// Writes bytes, or names the first page that is absent or lacks the write right, and writes nothing then.
pub fn write<T: PageTable>(
    table: &T,
    mem: &mut FrameMem,
    address: u64,
    from: &[u8],
) -> Result<(), Lack>
    requires frames { FramesIn (T.rows table.now) mem.old }
    requires apart { FramesApart (T.rows table.now) }
    ensures may { OnOk result (may_access (memory (T.rows table.now) mem.old) Write address (length from.now) ≡ true) }
    ensures memory { OnOk result (memory (T.rows table.now) mem.new ≡ write_bytes (memory (T.rows table.now) mem.old) address from.now) }
    ensures others { (f : ℕ) → NoRowHas (T.rows table.now) f → slice_index_or mem.new f [] ≡ slice_index_or mem.old f [] }
    ensures len { length mem.new ≡ length mem.old }
    ensures lack { IfErr result (λ l. IsFirstLack (memory (T.rows table.now) mem.old) Write address (length from.now) l) }
    ensures unwritten { OnErr result (mem.new ≡ mem.old) }
{
    match check(table, Access::Write, address, from.len() as u64) {
        Ok(()) => {
            write_pieces(table, mem, address, from);
            Ok(())
        }
        Err(lack) => Err(lack),
    }
}

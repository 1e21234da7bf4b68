//! Looks pages up in a table, or maps and unmaps them, so many times, and prints a checksum. The words are TABLE WORK PAGES ROUNDS:
//! the table is `list` or `levels`, the work `look` or `map`.
#![tactic(auto)]

ghost use Rattle.page_map.specs.Tables.{IsThere};
ghost use Rattle.std.specs.Prelude.{◌≡◌, ◌+◌, ◌<◌, ◌≤◌, ◌^◌, OnOk};
ghost use Rattle.time_tables.specs.Ranges.{AbsentFrom, ThereFrom};

use anyhow::Result;
use mck_flags::Rights;
use mck_word::{Frame, NoMemory, PageRange};
use page_map::{PageMap, PageTable};
use std::alloc::Global;
use sv_table::SvTable;

// The first page that is mapped.
const FIRST: u64 = 1 << 20;

// The most pages that may be mapped.
const MOST: u64 = 1 << 20;

// Maps pages from the first on, with room made before.
fn map_pages<T: PageTable>(table: &mut T, count: u64) -> Result<(), NoMemory>
    requires few { count ≤ 2 ^ 20 }
    requires absent { AbsentFrom (T.rows table.old) (2 ^ 20) (2 ^ 20 + count) }
    ensures { OnOk result (ThereFrom (T.rows table.new) (2 ^ 20) (2 ^ 20 + count)) }
{
    table.reserve(&[PageRange {
        lo: FIRST,
        hi: FIRST + count,
    }])?;
    for page in FIRST..FIRST + count {
        table.insert(page, Frame((page - FIRST) as u32), Rights(3));
    }
    Ok(())
}

// Unmaps them, and sums up their frames.
fn unmap_pages<T: PageTable>(table: &mut T, count: u64) -> u64
    requires few { count ≤ 2 ^ 20 }
    requires there { ThereFrom (T.rows table.old) (2 ^ 20) (2 ^ 20 + count) }
    ensures { AbsentFrom (T.rows table.new) (2 ^ 20) (2 ^ 20 + count) }
{
    let mut sum = 0u64;
    for page in FIRST..FIRST + count {
        sum = sum.wrapping_add(u64::from(table.remove(page).0));
    }
    sum
}

// Looks each page up once, out of order, and sums up the frames.
fn look_up<T: PageTable>(table: &T, count: u64) -> u64
    requires { count ≤ 2 ^ 20 }
{
    let mut sum = 0u64;
    let mut k = 0u64;
    for _ in 0..count {
        k += 7919;
        if k >= count {
            k %= count;
        }
        if let Some((f, _)) = table.get(FIRST + k) {
            sum = sum.wrapping_mul(31).wrapping_add(u64::from(f.0));
        }
    }
    sum
}

// Looks the pages up so many times.
fn look_rounds<T: PageTable>(table: &T, count: u64, rounds: u64) -> u64
    requires { count ≤ 2 ^ 20 }
{
    let mut sum = 0u64;
    for _ in 0..rounds {
        sum = sum.wrapping_mul(31).wrapping_add(look_up(table, count));
    }
    sum
}

// Maps and unmaps the pages so many times.
fn map_rounds<T: PageTable>(table: &mut T, count: u64, rounds: u64) -> Result<u64, NoMemory>
    requires few { count ≤ 2 ^ 20 }
    requires absent { AbsentFrom (T.rows table.old) (2 ^ 20) (2 ^ 20 + count) }
{
    let mut sum = 0u64;
    for _ in 0..rounds {
        map_pages(table, count)?;
        sum = sum.wrapping_mul(31).wrapping_add(unmap_pages(table, count));
    }
    Ok(sum)
}

fn work<T: PageTable + Drop>(
    alloc: Global,
    looks: bool,
    count: u64,
    rounds: u64,
) -> Result<u64, NoMemory> {
    let count = count.min(MOST);
    let mut table: T = PageTable::empty(alloc)?;
    if looks {
        map_pages(&mut table, count)?;
        Ok(look_rounds(&table, count, rounds))
    } else {
        map_rounds(&mut table, count, rounds)
    }
}

fn main(rt: HostRuntime) -> Result<()> {
    let alloc = rt.alloc();
    let mut args = std::env::args(&rt)?;
    let _name = args.next();
    let table = args.next();
    let kind = args.next();
    let count = match args.next() {
        Some(word) => word.as_str().parse::<u64>()?,
        None => 0,
    };
    let rounds = match args.next() {
        Some(word) => word.as_str().parse::<u64>()?,
        None => 0,
    };
    let looks = match &kind {
        Some(word) => word.as_str() == "look",
        None => false,
    };
    let levels = match &table {
        Some(word) => word.as_str() == "levels",
        None => false,
    };
    let sum = if levels {
        work::<SvTable>(alloc, looks, count, rounds)
    } else {
        work::<PageMap>(alloc, looks, count, rounds)
    };
    match sum {
        Ok(sum) => println!(rt; "{count} {sum}")?,
        Err(NoMemory) => println!(rt; "no memory")?,
    }
    Ok(())
}

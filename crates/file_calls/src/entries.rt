// The entries of directories.
ghost use Rattle.std.specs.Prelude.{◌≡◌, ◌≤◌, ◌<◌, ◌+◌, ◌^◌, ◌%◌, ◌-◌, length, option_map, slice_get, IfSome, ℕ};
ghost use Rattle.file_calls.specs.Placed.{IsFilled, fitting, record_at};
ghost use Rattle.file_model.specs.Acts.{all_records, padding};

use crate::records::{put_number, put_zeros};
use crate::store::FileStore;

/// An entry of a directory.
#[derive(Clone, Copy)]
pub struct Entry<'a> {
    pub node: u64,
    pub directory: bool,
    pub name: &'a [u8],
}

/// How many entries were put into a buffer, and their bytes.
#[derive(Clone, Copy)]
pub struct Filled {
    pub entries: u64,
    pub bytes: u64,
}

/// The entry of a directory at a place: itself, the one above, then its names.
pub fn entry_at<S: FileStore>(files: &S, here: u64, place: u64) -> Option<Entry<'_>>
    ensures record { option_map (record_at place) result ≡ slice_get (all_records (S.files files.now) here) place }
    ensures few { IfSome result (λ _. place < 2 ^ 32 + 2) }
{
    if place == 0 {
        return Some(Entry {
            node: here,
            directory: true,
            name: b".".as_slice(),
        });
    }
    if place == 1 {
        return Some(Entry {
            node: files.parent(here),
            directory: true,
            name: b"..".as_slice(),
        });
    }
    let Some(name) = files.name_at(here, place - 2) else {
        return None;
    };
    let node = files.child(here, name).unwrap_or(0);
    Some(Entry {
        node,
        directory: files.is_directory(node),
        name,
    })
}

/// How many bytes a number is below the next multiple of 8.
fn padding(n: usize) -> usize
    ensures { result ≡ padding n }
{
    (8 - n % 8) % 8
}

/// The length of an entry's record.
fn record_len(entry: Entry<'_>) -> usize
    ensures some { 0 < result }
    ensures len { (place : ℕ) → result ≡ length (record_at place entry.entry) }
{
    let plain = entry.name.len() + 20;
    plain + padding(plain)
}

/// Fills a buffer of that length with the entry's record.
fn put_entry(into: &mut [u8], entry: Entry<'_>, place: u64)
    requires len { length into.old ≡ length (record_at place entry) }
    requires few { place < 2 ^ 63 }
    ensures { into.new ≡ record_at place entry.entry }
{
    let len = into.len();
    let (node, rest) = into.split_at_mut(8);
    let (next, rest) = rest.split_at_mut(8);
    let (len_bytes, rest) = rest.split_at_mut(2);
    let (kind, rest) = rest.split_at_mut(1);
    let (name, gap) = rest.split_at_mut(entry.name.len());
    put_number(node, entry.node);
    put_number(next, place + 1);
    put_number(len_bytes, len as u64);
    kind[0] = if entry.directory { 4 } else { 8 };
    name.copy_from_slice(entry.name);
    put_zeros(gap);
}

/// Fills the front of a buffer with the records of a directory from a place on, as many as fit.
pub fn put_entries<S: FileStore>(files: &S, here: u64, place: u64, into: &mut [u8]) -> Filled
    ensures filled { IsFilled (fitting (S.files files.now) here place (length into.old)) result into.old into.new }
    ensures few { 0 < result.entries → place + result.entries < 2 ^ 32 + 3 }
    ensures bound { result.bytes ≤ length into.old }
{
    let none = Filled {
        entries: 0,
        bytes: 0,
    };
    let Some(entry) = entry_at(files, here, place) else {
        return none;
    };
    let len = record_len(entry);
    if into.len() < len {
        return none;
    }
    let (front, rest) = into.split_at_mut(len);
    put_entry(front, entry, place);
    let more = put_entries(files, here, place + 1, rest);
    Filled {
        entries: more.entries + 1,
        bytes: more.bytes + len as u64,
    }
}

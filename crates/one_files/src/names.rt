// The names in the directories.
ghost use Rattle.std.specs.Prelude.{◌≡◌, ◌≤◌, ◌^◌, ◌-◌, find, length, min, sum_by};
ghost use Rattle.std.specs.Option.{option_copied};
ghost use Rattle.one_files.specs.Named.{before, child_in, is_kth, names_by_number, some_name, up_to};

use crate::node::FileNode;

/// The number of the node with that name in a directory.
pub fn child_in(rows: &[(u64, FileNode)], directory: u64, name: &[u8]) -> Option<u64>
    ensures { result ≡ child_in rows.now directory name.now }
{
    let mut i = 0;
    while i < rows.len() {
        if rows[i].1.stands_as(directory, name) {
            return Some(rows[i].0);
        }
        i += 1;
    }
    None
}

/// Whether a directory has a name in it.
pub fn some_name(rows: &[(u64, FileNode)], directory: u64) -> bool
    ensures { result ≡ some_name rows.now directory }
{
    rows.iter().any(|row| row.1.is_in(directory))
}

/// How many names of a directory stand before a name.
fn before(rows: &[(u64, FileNode)], directory: u64, name: &[u8]) -> usize
    ensures { result ≡ before rows.now directory name.now }
{
    rows.iter()
        .filter(|row| row.1.is_before(directory, name))
        .count()
}

/// How many names of a directory don't stand behind a name.
fn up_to(rows: &[(u64, FileNode)], directory: u64, name: &[u8]) -> usize
    ensures { result ≡ up_to rows.now directory name.now }
{
    rows.iter()
        .filter(|row| row.1.is_up_to(directory, name))
        .count()
}

/// Whether the k-th name of a directory in the order of bytes is that one.
fn is_kth(rows: &[(u64, FileNode)], directory: u64, k: u64, name: &[u8]) -> bool
    ensures { result ≡ is_kth rows.now directory k name.now }
{
    before(rows, directory, name) as u64 <= k && k < up_to(rows, directory, name) as u64
}

/// The first name of a directory that is its k-th in the order of bytes.
pub fn kth_name(rows: &[(u64, FileNode)], directory: u64, k: u64) -> Option<&[u8]>
    ensures { option_copied result ≡ find (is_kth rows.now directory k) (names_by_number rows.now directory) }
{
    let mut i = 0;
    while i < rows.len() {
        if let Some(name) = rows[i].1.name_in(directory) {
            if is_kth(rows, directory, k, name) {
                return Some(name);
            }
        }
        i += 1;
    }
    None
}

/// The bytes of all files, as far as a u64 tells it.
pub fn all_bytes(rows: &[(u64, FileNode)]) -> u64
    ensures { result ≡ min (sum_by (λ e. length e.1.bytes) rows.now) (2 ^ 64 - 1) }
{
    let mut total: u64 = 0;
    let mut i = 0;
    while i < rows.len() {
        total = total.saturating_add(rows[i].1.bytes().len() as u64);
        i += 1;
    }
    total
}

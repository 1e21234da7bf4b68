// A memory with a loop in it: its code in page 1, and 32 pages of data from page 2 on.
use mck_flags::Rights;
use mck_word::NoMemory;
use paged_memory::{PageRow, PagedRows};
use std::alloc::Global;

// A page's bytes with these words at the beginning.
fn code(words: &[u32]) -> [u8; 4096] {
    let mut bytes = [0u8; 4096];
    for (k, w) in words.iter().enumerate() {
        if k < 1024 {
            let b = w.to_le_bytes();
            bytes[4 * k] = b[0];
            bytes[4 * k + 1] = b[1];
            bytes[4 * k + 2] = b[2];
            bytes[4 * k + 3] = b[3];
        }
    }
    bytes
}

/// The memory at the start.
pub fn memory(alloc: Global, words: &[u32]) -> Result<PagedRows, NoMemory> {
    let mut rows = PagedRows::new(alloc);
    rows.push(PageRow {
        rights: Rights(0),
        bytes: [0; 4096],
    })?;
    rows.push(PageRow {
        rights: Rights(5),
        bytes: code(words),
    })?;
    for _ in 2..34 {
        rows.push(PageRow {
            rights: Rights(3),
            bytes: [0; 4096],
        })?;
    }
    Ok(rows)
}

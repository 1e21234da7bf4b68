// Pages that are lent to quanta, and the same pages as a memory that runs in one piece.
use mck_flags::Rights;
use mck_word::NoMemory;
use paged_memory::{PageRow, PagedRows};
use rv_quantum::{Image, Pages};
use rv64i_user::{Kept, UserMem};
use std::alloc::Global;

// Pages from number 0 on.
#[derive(Drop)]
pub struct Lender {
    pub rows: Vec<PageRow>,
}

impl Pages for Lender {
    fn image(&mut self, page: u64, into: &mut [u8; 4096]) -> Option<Rights> {
        match self.rows.get(page as usize) {
            Some(row) => {
                *into = row.bytes;
                Some(row.rights)
            }
            None => None,
        }
    }
}

// A page with words at its beginning.
pub fn page(rights: u8, words: &[u32]) -> PageRow {
    let mut bytes = [0u8; 4096];
    for (k, w) in words.iter().enumerate() {
        if k < 1024 {
            let b = w.to_le_bytes();
            bytes[4 * k] = b[0];
            bytes[4 * k + 1] = b[1];
            bytes[4 * k + 2] = b[2];
            bytes[4 * k + 3] = b[3];
        }
    }
    PageRow {
        rights: Rights(rights),
        bytes,
    }
}

// Page 0 without rights, page 1 with the code, then pages with data, and the last one only for reading.
pub fn rows(alloc: Global, code: &[u32], data: u32) -> Result<Vec<PageRow>, NoMemory> {
    let mut rows = Vec::new(alloc);
    rows.push(page(0, &[]))?;
    rows.push(page(5, code))?;
    for k in 0..data {
        rows.push(page(3, &[k, 7]))?;
    }
    rows.push(page(1, &[9]))?;
    Ok(rows)
}

pub fn lend(alloc: Global, code: &[u32], data: u32) -> Result<Lender, NoMemory> {
    let rows = rows(alloc, code, data)?;
    Ok(Lender { rows })
}

pub fn whole(alloc: Global, code: &[u32], data: u32) -> Result<Kept<PagedRows>, NoMemory> {
    let mut paged = PagedRows::new(alloc);
    for row in rows(alloc, code, data)? {
        paged.push(row)?;
    }
    Ok(Kept::over(paged))
}

// Whether the memory has these bytes at a page.
fn has_bytes(mem: &Kept<PagedRows>, page: u64, bytes: &[u8; 4096]) -> bool {
    let mut at = page.wrapping_mul(4096);
    for b in bytes {
        if mem.load(at, 1) != Ok(*b as u64) {
            return false;
        }
        at = at.wrapping_add(1);
    }
    true
}

// Whether the memory has the pages that may be read as the images are left, and the others as they were lent.
pub fn has_all(mem: &Kept<PagedRows>, lent: &Lender, images: &[Image]) -> bool {
    let mut page = 0u64;
    for row in &lent.rows {
        let bytes = match images.iter().find(|i| i.page == page) {
            Some(image) => &image.last,
            None => &row.bytes,
        };
        if row.rights.0 != 0 && !has_bytes(mem, page, bytes) {
            return false;
        }
        page = page.wrapping_add(1);
    }
    true
}

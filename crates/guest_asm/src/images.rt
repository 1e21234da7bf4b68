// Small images.
ghost use Rattle.std.specs.Prelude.{◌≡◌, ◌++◌, OnOk, IfOk, flat_map};
ghost use Rattle.byteorder.specs.Endian.{little_bytes};
ghost use Rattle.guest_asm.specs.Images.{code_of, small_image_of};

use mck_word::{Bytes, NoMemory};
use std::alloc::Global;

// The header of ELF-64: a static executable for RISC-V with one program header behind it, whose entry is 0x10078.
#[rattlefmt::skip]
const HEADER: [u8; 64] = [
    0x7f, 0x45, 0x4c, 0x46, 0x02, 0x01, 0x01, 0x00, 0x00, 0x00, 0x00, 0x00, 0x00, 0x00, 0x00, 0x00,
    0x02, 0x00, 0xf3, 0x00, 0x01, 0x00, 0x00, 0x00, 0x78, 0x00, 0x01, 0x00, 0x00, 0x00, 0x00, 0x00,
    0x40, 0x00, 0x00, 0x00, 0x00, 0x00, 0x00, 0x00, 0x00, 0x00, 0x00, 0x00, 0x00, 0x00, 0x00, 0x00,
    0x00, 0x00, 0x00, 0x00, 0x40, 0x00, 0x38, 0x00, 0x01, 0x00, 0x00, 0x00, 0x00, 0x00, 0x00, 0x00,
];

// A program header up to its sizes: a segment that is read, written and executed, with the whole file at 0x10000.
#[rattlefmt::skip]
const SEGMENT: [u8; 32] = [
    0x01, 0x00, 0x00, 0x00, 0x07, 0x00, 0x00, 0x00, 0x00, 0x00, 0x00, 0x00, 0x00, 0x00, 0x00, 0x00,
    0x00, 0x00, 0x01, 0x00, 0x00, 0x00, 0x00, 0x00, 0x00, 0x00, 0x00, 0x00, 0x00, 0x00, 0x00, 0x00,
];

const ALIGNMENT: [u8; 8] = [0, 0x10, 0, 0, 0, 0, 0, 0];

const HEADERS_SIZE: u64 = 120;

// The bytes of words, the lowest first.
fn code_of(alloc: Global, words: &[u32]) -> Result<Bytes, NoMemory>
    ensures { IfOk result (λ code. code ≡ code_of words.now) }
{
    let mut code = Bytes::new(alloc);
    for word in words {
        code.add(&word.to_le_bytes())?;
    }
    Ok(code)
}

/// The file of a small executable: a header, one program header, and the words. The whole file stands at 0x10000 with all rights,
/// and the entry is the first word.
#[tactic(auto, unfolding(crate::specs::Images::small_image_of))]
pub fn small_image(alloc: Global, words: &[u32]) -> Result<Bytes, NoMemory>
    ensures { IfOk result (λ image. image ≡ small_image_of words.now) }
{
    let code = code_of(alloc, words)?;
    let size = (code.len() as u64)
        .checked_add(HEADERS_SIZE)
        .ok_or(NoMemory)?;
    let mut image = Bytes::new(alloc);
    image.add(&HEADER)?;
    image.add(&SEGMENT)?;
    image.add(&size.to_le_bytes())?;
    image.add(&size.to_le_bytes())?;
    image.add(&ALIGNMENT)?;
    image.add(code.as_slice())?;
    Ok(image)
}

// The file of an image whose program headers stand in no segment.
ghost use Rattle.std.specs.Prelude.{◌≡◌, ◌++◌, ◌*◌, IfOk, OnOk, replicate};
ghost use Rattle.elf_load.specs.Written.{apart_file, flags_of, header_bytes, parts, program_header, program_headers};

use crate::headers::{HEADER_SIZE, PROGRAM_HEADER_SIZE};
use job_model::{Image, Segment};
use mck_flags::Rights;
use mck_word::{Bytes, NoMemory};
use std::alloc::Global;

// The first bytes of the header: ELF-64, little-endian, version 1; e_type 2, e_machine 243, e_version 1.
#[rattlefmt::skip]
const BEGINNING: [u8; 24] = [
    0x7f, 0x45, 0x4c, 0x46, 0x02, 0x01, 0x01, 0x00, 0x00, 0x00, 0x00, 0x00, 0x00, 0x00, 0x00, 0x00,
    0x02, 0x00, 0xf3, 0x00, 0x01, 0x00, 0x00, 0x00,
];

// What stands between e_entry and e_phnum: e_phoff 64, e_ehsize 64 and e_phentsize 56, all else 0.
#[rattlefmt::skip]
const MIDDLE: [u8; 24] = [
    0x40, 0x00, 0x00, 0x00, 0x00, 0x00, 0x00, 0x00, 0x00, 0x00, 0x00, 0x00, 0x00, 0x00, 0x00, 0x00,
    0x00, 0x00, 0x00, 0x00, 0x40, 0x00, 0x38, 0x00,
];

// The p_type of a segment.
const LOADED: [u8; 4] = [1, 0, 0, 0];

#[tactic(auto, unfolding(crate::specs::Written::header_bytes))]
fn add_header(file: &mut Bytes, entry: u64, count: u16) -> Result<(), NoMemory>
    ensures { OnOk result (file.new ≡ file.old ++ header_bytes entry count) }
{
    file.add(&BEGINNING)?;
    file.add(&entry.to_le_bytes())?;
    file.add(&MIDDLE)?;
    file.add(&count.to_le_bytes())?;
    file.add(&[0; 6])?;
    Ok(())
}

// The p_flags that give these rights.
fn flags_of(rights: Rights) -> u32
    ensures { result ≡ flags_of rights }
{
    let bits = u32::from(rights.0);
    4 * (bits % 2) + 2 * (bits / 2 % 2) + bits / 4 % 2
}

#[tactic(auto, unfolding(crate::specs::Written::program_header))]
fn add_program_header(file: &mut Bytes, offset: u64, s: &Segment) -> Result<(), NoMemory>
    ensures { OnOk result (file.new ≡ file.old ++ program_header offset s.now) }
{
    file.add(&LOADED)?;
    file.add(&flags_of(s.rights).to_le_bytes())?;
    file.add(&offset.to_le_bytes())?;
    file.add(&s.addr.to_le_bytes())?;
    file.add(&[0; 8])?;
    file.add(&(s.bytes.len() as u64).to_le_bytes())?;
    file.add(&s.mem.to_le_bytes())?;
    file.add(&[0; 8])?;
    Ok(())
}

// Those of segments whose file parts stand one behind the other, from an offset on. No file has 2^64 bytes.
fn add_program_headers(file: &mut Bytes, offset: u64, segments: &[Segment]) -> Result<(), NoMemory>
    ensures { OnOk result (file.new ≡ file.old ++ program_headers offset segments.now) }
{
    let mut next = offset;
    let mut rest = segments;
    while let Some((s, more)) = rest.split_first() {
        add_program_header(file, next, s)?;
        next = next.checked_add(s.bytes.len() as u64).ok_or(NoMemory)?;
        rest = more;
    }
    Ok(())
}

fn add_zeros(alloc: Global, file: &mut Bytes, count: usize) -> Result<(), NoMemory>
    ensures { OnOk result (file.new ≡ file.old ++ replicate count 0) }
{
    let zeros = vec![in alloc; 0; count]?;
    file.add(&zeros)
}

fn add_parts(file: &mut Bytes, segments: &[Segment]) -> Result<(), NoMemory>
    ensures { OnOk result (file.new ≡ file.old ++ parts segments.now) }
{
    for s in segments {
        file.add(s.bytes.as_slice())?;
    }
    Ok(())
}

/// Header, program headers and file parts one behind the other.
#[tactic(auto, unfolding(crate::specs::Written::apart_file))]
pub fn write_apart(alloc: Global, image: &Image) -> Result<Bytes, NoMemory>
    ensures { IfOk result (λ file. file ≡ apart_file image.now) }
{
    let segments = image.segments.as_slice();
    let count = usize::from(image.phnum);
    let size = usize::from(PROGRAM_HEADER_SIZE);
    let mut file = Bytes::new(alloc);
    add_header(&mut file, image.entry, image.phnum)?;
    add_program_headers(&mut file, (HEADER_SIZE + size * count) as u64, segments)?;
    add_zeros(
        alloc,
        &mut file,
        size * count.saturating_sub(segments.len()),
    )?;
    add_parts(&mut file, segments)?;
    Ok(file)
}

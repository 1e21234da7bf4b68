// The file of an image whose program headers stand in a segment: they say where each file part stands.
ghost use Rattle.std.specs.Prelude.{◌≡◌, ◌≤◌, ◌<◌, ◌+◌, ◌*◌, IfOk, IfSome, length, find, nat_le};
ghost use Rattle.std.specs.Option.{option_copied};
ghost use Rattle.elf_load.specs.Written.{file_around, holds_table, is_around, laid, last_end, part_end, place_of, placed_at, placed_in, put, table_of, with_header};

use crate::headers::{HEADER_SIZE, PROGRAM_HEADER_SIZE, add_found, read_u32, read_u64, rights_of};
use crate::placed::Placed;
use job_model::{Image, Segment};
use mck_word::{Bytes, Items, NoMemory};
use std::alloc::Global;

// Class 64 bits, little-endian, version 1.
const IDENTITY: [u8; 7] = [0x7f, 0x45, 0x4c, 0x46, 2, 1, 1];

// e_type 2 and e_machine 243.
const EXECUTABLE: [u8; 4] = [2, 0, 243, 0];

// Whether a range ends where another one does, or before.
fn lies_before(place: u64, len: u64, other: u64, other_len: u64) -> bool
    ensures { result ≡ nat_le (place + len) (other + other_len) }
{
    u128::from(place) + u128::from(len) <= u128::from(other) + u128::from(other_len)
}

fn holds_table(image: &Image, s: &Segment) -> bool
    ensures { result ≡ holds_table image.now s.now }
{
    let size = u64::from(PROGRAM_HEADER_SIZE) * u64::from(image.phnum);
    s.addr <= image.phdr && lies_before(image.phdr, size, s.addr, s.bytes.len() as u64)
}

fn find_holder(image: &Image) -> Option<&Segment>
    ensures { option_copied result ≡ find (holds_table image.now) image.now.segments }
{
    image
        .segments
        .as_slice()
        .iter()
        .find(|s| holds_table(image, s))
}

/// The program headers, where a segment holds them.
pub fn find_table(image: &Image) -> Option<&[u8]>
    ensures value { option_copied result ≡ table_of image.now }
    ensures len { IfSome result (λ table. length table.now ≡ 56 * image.now.phnum) }
{
    let s = find_holder(image)?;
    let (_, behind) = s.bytes.as_slice().split_at((image.phdr - s.addr) as usize);
    let size = usize::from(PROGRAM_HEADER_SIZE) * usize::from(image.phnum);
    Some(behind.split_at(size).0)
}

fn placed_at(table: &[u8], at: usize, number: u16) -> Option<Placed>
    requires { at + 56 ≤ length table.now }
    ensures { result ≡ placed_at table.now at number }
{
    let mem = read_u64(table, at + 40);
    if !(read_u32(table, at) == 1 && 0 < mem) {
        return None;
    }
    Some(Placed {
        number,
        offset: read_u64(table, at + 8),
        len: read_u64(table, at + 32),
        addr: read_u64(table, at + 16),
        mem,
        rights: rights_of(read_u32(table, at + 4)),
    })
}

// The segments that so many program headers name.
fn read_placed(alloc: Global, table: &[u8], count: u16) -> Result<Items<Placed>, NoMemory>
    requires { 56 * count ≤ length table.now }
    ensures { IfOk result (λ placed. placed ≡ placed_in table.now 0 0 count) }
{
    let mut placed = Items::new(alloc);
    let mut at = 0;
    let mut number = 0u16;
    while number < count {
        add_found(&mut placed, placed_at(table, at, number))?;
        at += 56;
        number += 1;
    }
    Ok(placed)
}

fn is_around(address: u64, p: &Placed) -> bool
    ensures { result ≡ is_around address p.now }
{
    p.addr <= address && u128::from(address) < u128::from(p.addr) + u128::from(p.mem)
}

fn find_around(address: u64, placed: &[Placed]) -> Option<&Placed>
    ensures { option_copied result ≡ find (is_around address) placed.now }
{
    placed.iter().find(|p| is_around(address, p))
}

// Where the byte at an address stands in the file. No file has 2^64 bytes.
fn place_of(address: u64, placed: &[Placed]) -> Result<u64, NoMemory>
    ensures { IfOk result (λ place. place ≡ place_of address placed.now) }
{
    match find_around(address, placed) {
        Some(p) => p.offset.checked_add(address - p.addr).ok_or(NoMemory),
        None => Ok(0),
    }
}

fn part_end(offset: u64, len: u64) -> Result<u64, NoMemory>
    ensures { IfOk result (λ end. end ≡ part_end offset len) }
{
    if len == 0 {
        return Ok(0);
    }
    offset.checked_add(len).ok_or(NoMemory)
}

// Where the last file part ends.
fn last_end(placed: &[Placed], segments: &[Segment]) -> Result<u64, NoMemory>
    ensures { IfOk result (λ end. end ≡ last_end placed.now segments.now) }
{
    let mut end = 0;
    let mut places = placed;
    let mut parts = segments;
    while let (Some((p, more)), Some((s, others))) = (places.split_first(), parts.split_first()) {
        end = part_end(p.offset, s.bytes.len() as u64)?.max(end);
        places = more;
        parts = others;
    }
    Ok(end)
}

// A part is written at a place.
#[tactic(auto, unfolding(crate::specs::Written::put))]
fn put(file: &mut [u8], at: usize, part: &[u8])
    requires { 0 < length part.now → at + length part.now ≤ length file.old }
    ensures value { file.new ≡ put file.old at part.now }
    ensures len { length file.new ≡ length file.old }
{
    if part.is_empty() {
        return;
    }
    let (_, behind) = file.split_at_mut(at);
    let (there, _) = behind.split_at_mut(part.len());
    there.copy_from_slice(part);
}

// Each file part is written at the place of its program header.
fn lay(file: &mut [u8], placed: &[Placed], segments: &[Segment])
    requires { last_end placed.now segments.now ≤ length file.old }
    ensures value { file.new ≡ laid file.old placed.now segments.now }
    ensures len { length file.new ≡ length file.old }
{
    let mut places = placed;
    let mut parts = segments;
    while let (Some((p, more)), Some((s, others))) = (places.split_first(), parts.split_first()) {
        put(file, p.offset as usize, s.bytes.as_slice());
        places = more;
        parts = others;
    }
}

#[tactic(auto, unfolding(crate::specs::Written::with_header))]
fn put_header(file: &mut [u8], entry: u64, place: u64, count: u16)
    requires { 64 ≤ length file.old }
    ensures { file.new ≡ with_header entry place count file.old }
{
    put(file, 0, &IDENTITY);
    put(file, 16, &EXECUTABLE);
    put(file, 24, &entry.to_le_bytes());
    put(file, 32, &place.to_le_bytes());
    put(file, 54, &PROGRAM_HEADER_SIZE.to_le_bytes());
    put(file, 56, &count.to_le_bytes());
}

/// Each file part at the place that the program headers name, and the header.
#[tactic(auto, unfolding(crate::specs::Written::file_around))]
pub fn write_around(alloc: Global, image: &Image, table: &[u8]) -> Result<Bytes, NoMemory>
    requires { 56 * image.now.phnum ≤ length table.now }
    ensures { IfOk result (λ file. file ≡ file_around image.now (placed_in table.now 0 0 image.now.phnum)) }
{
    let segments = image.segments.as_slice();
    let placed = read_placed(alloc, table, image.phnum)?;
    let place = place_of(image.phdr, placed.as_slice())?;
    let size = last_end(placed.as_slice(), segments)?.max(HEADER_SIZE as u64);
    let mut file = vec![in alloc; 0; size as usize]?;
    lay(&mut file, placed.as_slice(), segments);
    put_header(&mut file, image.entry, place, image.phnum);
    Ok(Bytes::from_vec(file))
}

// The header and the program headers.
ghost use Rattle.std.specs.Prelude.{◌≡◌, ◌≤◌, ◌<◌, ◌+◌, ◌*◌, ◌++◌, ◌==◌, ◌&&◌, All, IfOk, IfSome, OnOk, length, drop, slice_index};
ghost use Rattle.std.specs.Option.{option_to_list};
ghost use Rattle.elf_load.specs.Fields.{field};
ghost use Rattle.elf_load.specs.Kept.{IsInside};
ghost use Rattle.elf_load.specs.Profile.{header_of, segment_of, segments_of, passes, has_class, rights_of, Gives, header_end};

use crate::fault::{ElfError, ElfFault};
use crate::placed::Placed;
use byteorder::{ByteOrder, LittleEndian};
use mck_flags::Rights;
use mck_word::{Items, NoMemory};
use std::alloc::Global;

const MAGIC: u32 = 0x464c_457f;

pub(crate) const HEADER_SIZE: usize = 64;

pub(crate) const PROGRAM_HEADER_SIZE: u16 = 56;

const MOST_PROGRAM_HEADERS: u16 = 64;

const LOWEST: u64 = 0x10000;

const HIGHEST: u64 = 0x30_0000_0000;

/// The entry, and where the program headers stand and how many there are.
#[derive(Clone, Copy, Debug, PartialEq, Eq)]
pub struct Header {
    pub entry: u64,
    pub place: u64,
    pub count: u16,
}

#[tactic(auto, unfolding(crate::specs::Fields::field))]
fn read_u16(bytes: &[u8], at: usize) -> u16
    requires { at + 2 ≤ length bytes.now }
    ensures { result ≡ field 2 at bytes.now }
{
    LittleEndian::read_u16(bytes.split_at(at).1)
}

#[tactic(auto, unfolding(crate::specs::Fields::field))]
pub(crate) fn read_u32(bytes: &[u8], at: usize) -> u32
    requires { at + 4 ≤ length bytes.now }
    ensures { result ≡ field 4 at bytes.now }
{
    LittleEndian::read_u32(bytes.split_at(at).1)
}

#[tactic(auto, unfolding(crate::specs::Fields::field))]
pub(crate) fn read_u64(bytes: &[u8], at: usize) -> u64
    requires { at + 8 ≤ length bytes.now }
    ensures { result ≡ field 8 at bytes.now }
{
    LittleEndian::read_u64(bytes.split_at(at).1)
}

// Whether bytes from a place on reach past the end.
fn passes(size: u64, place: u64, len: u64) -> bool
    ensures { result ≡ passes size place len }
{
    0 < len && u128::from(size) < u128::from(place) + u128::from(len)
}

fn has_class(bytes: &[u8]) -> bool
    requires { 64 ≤ length bytes.now }
    ensures { result ≡ has_class bytes.now }
{
    bytes[4] == 2 && bytes[5] == 1 && bytes[6] == 1
}

/// The header, by its rules.
#[tactic(auto, unfolding(crate::specs::Profile::header_of))]
pub fn read_header(bytes: &[u8]) -> Result<Header, ElfError>
    ensures value { Gives (λ header. header) result (header_of bytes.now) }
    ensures inside { IfOk result (λ header. 0 < header.count → header_end header ≤ length bytes.now) }
    ensures count { IfOk result (λ header. header.count ≤ 64) }
{
    let size = bytes.len() as u64;
    if bytes.len() < HEADER_SIZE {
        return Err(ElfError::Fault(ElfFault::Short(size)));
    }
    if read_u32(bytes, 0) != MAGIC {
        return Err(ElfError::Fault(ElfFault::Magic));
    }
    if !has_class(bytes) {
        return Err(ElfError::Fault(ElfFault::Class));
    }
    if read_u16(bytes, 16) != 2 {
        return Err(ElfError::Fault(ElfFault::Kind));
    }
    if read_u16(bytes, 18) != 243 {
        return Err(ElfError::Fault(ElfFault::Machine));
    }
    let flags = read_u32(bytes, 48);
    if !(flags == 0 || flags == 16) {
        return Err(ElfError::Fault(ElfFault::Flags));
    }
    let entry_size = read_u16(bytes, 54);
    let count = read_u16(bytes, 56);
    if !(entry_size == PROGRAM_HEADER_SIZE && count <= MOST_PROGRAM_HEADERS) {
        return Err(ElfError::Fault(ElfFault::PhSize));
    }
    let place = read_u64(bytes, 32);
    if passes(size, place, 56 * u64::from(count)) {
        return Err(ElfError::Fault(ElfFault::Short(size)));
    }
    let entry = read_u64(bytes, 24);
    Ok(Header {
        entry,
        place,
        count,
    })
}

// The rights of p_flags. What may be written may be read.
pub(crate) fn rights_of(flags: u32) -> Rights
    ensures { result ≡ rights_of flags }
{
    let exec = flags % 2;
    let write = flags / 2 % 2;
    let read = if flags / 4 % 2 == 1 || write == 1 {
        1
    } else {
        0
    };
    Rights((read + 2 * write + 4 * exec) as u8)
}

// The rules of one program header.
#[tactic(auto, using(crate::proofs::Images::rights_kept), unfolding(crate::specs::Profile::segment_of))]
fn read_segment(bytes: &[u8], at: usize, number: u16) -> Result<Option<Placed>, ElfError>
    requires { at + 56 ≤ length bytes.now }
    ensures value { Gives (λ segment. segment) result (segment_of bytes.now at number) }
    ensures inside { IfOk result (λ segment. IfSome segment (IsInside (length bytes.now))) }
{
    let kind = read_u32(bytes, at);
    if kind == 2 || kind == 3 {
        return Err(ElfError::Fault(ElfFault::Linked));
    }
    let mem = read_u64(bytes, at + 40);
    if !(kind == 1 && 0 < mem) {
        return Ok(None);
    }
    let offset = read_u64(bytes, at + 8);
    let len = read_u64(bytes, at + 32);
    if mem < len || passes(bytes.len() as u64, offset, len) {
        return Err(ElfError::Fault(ElfFault::Size(number)));
    }
    let addr = read_u64(bytes, at + 16);
    if addr < LOWEST || u128::from(HIGHEST) < u128::from(addr) + u128::from(mem) {
        return Err(ElfError::Fault(ElfFault::Bounds(number)));
    }
    let rights = rights_of(read_u32(bytes, at + 4));
    Ok(Some(Placed {
        number,
        offset,
        len,
        addr,
        mem,
        rights,
    }))
}

pub(crate) fn add_found(placed: &mut Items<Placed>, found: Option<Placed>) -> Result<(), NoMemory>
    ensures { OnOk result (placed.new ≡ placed.old ++ option_to_list found) }
{
    if let Some(segment) = found {
        placed.push(segment)?;
    }
    Ok(())
}

/// The segments of the program headers, by the rules of each, in order.
pub fn read_segments(
    alloc: Global,
    bytes: &[u8],
    header: &Header,
) -> Result<Items<Placed>, ElfError>
    requires inside { 0 < header.now.count → header_end header.now ≤ length bytes.now }
    requires count { header.now.count ≤ 64 }
    ensures value { Gives (λ placed. placed) result (segments_of bytes.now header.now.place 0 header.now.count) }
    ensures inside { IfOk result (All (IsInside (length bytes.now))) }
    ensures count { IfOk result (λ placed. length placed ≤ header.now.count) }
{
    let mut placed = Items::new(alloc);
    let mut at = header.place as usize;
    let mut number = 0u16;
    while number < header.count {
        let found = read_segment(bytes, at, number)?;
        add_found(&mut placed, found)?;
        at += 56;
        number += 1;
    }
    Ok(placed)
}

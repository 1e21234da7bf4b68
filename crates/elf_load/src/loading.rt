// From the bytes of a file to the image.
ghost use Rattle.std.specs.Prelude.{◌≡◌, ◌≤◌, ◌<◌, ◌+◌, ◌*◌, ◌==◌, ◌&&◌, ◌%◌, IfOk, OnOk, map, All, length, find, List, [], take, drop};
ghost use Rattle.std.specs.List.{list_any};
ghost use Rattle.std.specs.Option.{option_copied};
ghost use Rattle.elf_load.specs.Kept.{IsInside, AreApart, IsLoaded};
ghost use Rattle.job_model.specs.Images.{IsImage, IsSegment};
ghost use Rattle.elf_load.specs.Profile.{apart, image_of, Gives, LoadGives, last_page, shares_page, is_entry, has_entry, holds_headers, headers_at, header_end, segment_from};

use crate::fault::{ElfError, ElfFault};
use crate::headers::{Header, read_header, read_segments};
use crate::placed::Placed;
use bitflags::Flags;
use job_model::{Image, Segment, Segments};
use mck_flags::Rights;
use mck_word::{Bytes, Items, NoMemory};
use std::alloc::Global;

fn last_page(s: &Placed) -> u128
    ensures { result ≡ last_page s.now }
{
    (u128::from(s.addr) + u128::from(s.mem)).saturating_sub(1) / 4096
}

fn shares_page(s: &Placed, t: &Placed) -> bool
    ensures { result ≡ shares_page s.now t.now }
{
    let before = u128::from(s.addr / 4096) <= last_page(t);
    let behind = u128::from(t.addr / 4096) <= last_page(s);
    before && behind
}

fn find_shared<'a>(before: &'a [Placed], s: &Placed) -> Option<&'a Placed>
    ensures { option_copied result ≡ find (λ t. shares_page t s.now) before.now }
{
    before.iter().find(|t| shares_page(t, s))
}

// Whether no two segments share a page.
fn check_apart(placed: &[Placed]) -> Result<(), ElfError>
    ensures value { Gives (λ (_ : _). placed.now) result (apart [] placed.now) }
    ensures apart { OnOk result (AreApart placed.now) }
{
    let mut done = 0;
    while done < placed.len() {
        let (before, rest) = placed.split_at(done);
        let Some((segment, _)) = rest.split_first() else {
            return Ok(());
        };
        if let Some(earlier) = find_shared(before, segment) {
            return Err(ElfError::Fault(ElfFault::Overlap(earlier.number, segment.number)));
        }
        done += 1;
    }
    Ok(())
}

fn is_entry(entry: u64, s: &Placed) -> bool
    ensures { result ≡ is_entry entry s.now }
{
    s.rights.contains(Rights::EXEC)
        && s.addr <= entry
        && u128::from(entry) < u128::from(s.addr) + u128::from(s.mem)
}

fn any_entry(entry: u64, placed: &[Placed]) -> bool
    ensures { result ≡ list_any (is_entry entry) placed.now }
{
    placed.iter().any(|s| is_entry(entry, s))
}

fn has_entry(entry: u64, placed: &[Placed]) -> bool
    ensures { result ≡ has_entry entry placed.now }
{
    entry % 4 == 0 && any_entry(entry, placed)
}

fn holds_headers(header: &Header, s: &Placed) -> bool
    ensures { result ≡ holds_headers header.now s.now }
{
    let end = u128::from(header.place) + 56 * u128::from(header.count);
    s.offset <= header.place && end <= u128::from(s.offset) + u128::from(s.len)
}

// Where the program headers lie in memory.
fn headers_at(header: &Header, placed: &[Placed], size: u64) -> u64
    requires some { 0 < header.now.count }
    requires inside { All (IsInside size) placed.now }
    ensures { result ≡ headers_at header.now (find (holds_headers header.now) placed.now) }
{
    let mut rest = placed;
    while let Some((s, more)) = rest.split_first() {
        if holds_headers(header, s) {
            return s.addr + (header.place - s.offset);
        }
        rest = more;
    }
    0
}

// The file part of a segment.
fn part_of<'a>(bytes: &'a [u8], s: &Placed) -> &'a [u8]
    requires { IsInside (length bytes.now) s.now }
    ensures { result.now ≡ take s.now.len (drop s.now.offset bytes.now) }
{
    if s.len == 0 {
        return &[];
    }
    let (_, behind) = bytes.split_at(s.offset as usize);
    let (part, _) = behind.split_at(s.len as usize);
    part
}

fn segment_from(alloc: Global, bytes: &[u8], s: &Placed) -> Result<Segment, NoMemory>
    requires { IsInside (length bytes.now) s.now }
    ensures { IfOk result (λ segment. segment ≡ segment_from bytes.now s.now) }
{
    Ok(Segment {
        addr: s.addr,
        mem: s.mem,
        bytes: Bytes::from_slice(alloc, part_of(bytes, s))?,
        rights: s.rights,
    })
}

fn segments_from(alloc: Global, bytes: &[u8], placed: &[Placed]) -> Result<Segments, NoMemory>
    requires { All (IsInside (length bytes.now)) placed.now }
    ensures value { IfOk result (λ segments. segments ≡ map (segment_from bytes.now) placed.now) }
    ensures kept { IfOk result (All IsSegment) }
{
    let mut segments = Items::new(alloc);
    for s in placed {
        segments.push(segment_from(alloc, bytes, s)?)?;
    }
    Ok(segments)
}

/// The image that the bytes have, or the first rule that they break.
#[tactic(auto, unfolding(crate::specs::Profile::image_of))]
pub fn load(alloc: Global, bytes: &[u8]) -> Result<Image, ElfError>
    ensures value { LoadGives result (image_of bytes.now) }
    ensures image { IfOk result IsImage }
    ensures loaded { IfOk result IsLoaded }
{
    let header = read_header(bytes)?;
    let placed = read_segments(alloc, bytes, &header)?;
    check_apart(placed.as_slice())?;
    if !has_entry(header.entry, placed.as_slice()) {
        return Err(ElfError::Fault(ElfFault::Entry));
    }
    let phdr = headers_at(&header, placed.as_slice(), bytes.len() as u64);
    let segments = segments_from(alloc, bytes, placed.as_slice())?;
    Ok(Image {
        entry: header.entry,
        phdr,
        phnum: header.count,
        segments,
    })
}

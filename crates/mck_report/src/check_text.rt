// What a check of a job writes.
ghost use Rattle.job_model.specs.Images.{IsImage, IsSegment};
ghost use Rattle.kernel_model.specs.Layout.{needed_frames};
ghost use Rattle.kernel_model.specs.Pages.{pages_count, pages_of};
ghost use Rattle.mck_report.specs.Checks.{address_text, check_parts, frames_needed, guest_parts, guests_parts, hex_digits, rights_text, segment_line};
ghost use Rattle.run_model.specs.Reports.{hex_digit};
ghost use Rattle.run_model.specs.Texts.{Line, Number, Text, part_bytes, text_of};
ghost use Rattle.std.specs.Prelude.{◌≡◌, ◌+◌, ◌*◌, ◌<◌, ◌≤◌, ◌^◌, ◌++◌, ◌∷◌, [], All, IfOk, OnOk, codes, cond, length, map, ◌⊎◌, ◌==◌, ◌/◌, ◌%◌};

use crate::writing::{Token, add_line};
use elf_load::{Image, Segment};
use mck_flags::Rights;
use mck_word::{Bytes, NoMemory};
use std::alloc::Global;

fn hex_digit(n: u64) -> u8
    requires { n < 16 }
    ensures { result ≡ hex_digit n }
{
    if n < 10 {
        b'0' + n as u8
    } else {
        b'W' + n as u8
    }
}

// The last digits of a number, so many of them.
fn add_digits(text: &mut Bytes, count: u32, n: u64) -> Result<(), NoMemory>
    ensures { OnOk result (text.new ≡ text.old ++ hex_digits count n) }
{
    if count == 0 {
        return Ok(());
    }
    add_digits(text, count - 1, n / 16)?;
    text.push(hex_digit(n % 16))?;
    Ok(())
}

#[tactic(auto, unfolding(crate::specs::Checks::address_text))]
fn address(alloc: Global, n: u64) -> Result<Bytes, NoMemory>
    ensures { IfOk result (λ text. text ≡ address_text n) }
{
    let mut text = Bytes::new(alloc);
    add_digits(&mut text, 16, n)?;
    Ok(text)
}

fn right_byte(rights: Rights, bit: u8, byte: u8) -> u8
    requires { (bit ≡ 1) ⊎ ((bit ≡ 2) ⊎ (bit ≡ 4)) }
    ensures { result ≡ cond (rights.0 / bit % 2 == 1) byte 45 }
{
    if rights.0 / bit % 2 == 1 { byte } else { b'-' }
}

fn add_segment(alloc: Global, text: &mut Bytes, segment: &Segment) -> Result<(), NoMemory>
    ensures { OnOk result (text.new ≡ text.old ++ part_bytes (segment_line segment.now)) }
{
    let place = address(alloc, segment.addr)?;
    let rights = [
        right_byte(segment.rights, 1, b'r'),
        right_byte(segment.rights, 2, b'w'),
        right_byte(segment.rights, 4, b'x'),
    ];
    let place = Token::Text(place.as_slice());
    let size = Token::Number(segment.mem);
    add_line(text, b"segment", &[place, size, Token::Text(&rights)])
}

fn add_segments(alloc: Global, text: &mut Bytes, segments: &[Segment]) -> Result<(), NoMemory>
    ensures { OnOk result (text.new ≡ text.old ++ text_of (map segment_line segments.now)) }
{
    let mut rest = segments;
    while let Some((segment, more)) = rest.split_first() {
        add_segment(alloc, text, segment)?;
        rest = more;
    }
    Ok(())
}

// The pages that a segment touches.
fn pages(segment: &Segment) -> u64
    requires { IsSegment segment.now }
    ensures value { result ≡ pages_count (pages_of segment.now.addr segment.now.mem) }
    ensures bound { result ≤ 2 ^ 26 }
{
    (segment.addr + segment.mem).div_ceil(4096) - segment.addr / 4096
}

/// How many frames the boot of a guest with this image needs: those of its segments' pages, of 16 stack pages and of the trampoline.
pub fn needed_frames(image: &Image) -> u64
    requires { IsImage image.now }
    ensures value { result ≡ needed_frames image.now }
    ensures bound { result ≤ 2 ^ 33 }
{
    let mut needed = 17;
    let mut rest = image.segments.as_slice();
    while let Some((segment, more)) = rest.split_first() {
        needed += pages(segment);
        rest = more;
    }
    needed
}

fn add_guest(alloc: Global, text: &mut Bytes, number: u32, image: &Image) -> Result<(), NoMemory>
    requires { IsImage image.now }
    ensures { OnOk result (text.new ≡ text.old ++ text_of (guest_parts number image.now)) }
{
    let entry = address(alloc, image.entry)?;
    let number = Token::Number(u64::from(number));
    let needed = Token::Number(needed_frames(image));
    let entry = Token::Text(entry.as_slice());
    let (at, pages) = (Token::Text(b"entry"), Token::Text(b"pages"));
    add_line(text, b"guest", &[number, at, entry, pages, needed])?;
    add_segments(alloc, text, image.segments.as_slice())?;
    Ok(())
}

fn add_guests(alloc: Global, text: &mut Bytes, images: &[Image]) -> Result<u64, NoMemory>
    requires count { length images.now ≤ 16 }
    requires images { All IsImage images.now }
    ensures text { OnOk result (text.new ≡ text.old ++ text_of (guests_parts 1 images.now)) }
    ensures needed { IfOk result (λ needed. needed ≡ frames_needed images.now) }
{
    let mut number = 1u32;
    let mut needed = 0u64;
    let mut rest = images;
    while let Some((image, more)) = rest.split_first() {
        add_guest(alloc, text, number, image)?;
        number += 1;
        needed += needed_frames(image);
        rest = more;
    }
    Ok(needed)
}

/// What a check of a job writes: each guest with its entry and the frames that its boot needs, its segments in the order of their
/// headers, and the frames needed in all beside those that the job gives.
pub fn check(alloc: Global, frames: u32, images: &[Image]) -> Result<Bytes, NoMemory>
    requires count { length images.now ≤ 16 }
    requires images { All IsImage images.now }
    ensures { IfOk result (λ text. text ≡ text_of (check_parts frames images.now)) }
{
    let mut text = Bytes::new(alloc);
    let needed = Token::Number(add_guests(alloc, &mut text, images)?);
    let frames = Token::Number(u64::from(frames));
    add_line(&mut text, b"frames", &[needed, Token::Text(b"of"), frames])?;
    Ok(text)
}

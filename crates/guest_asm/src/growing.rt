// The job that grows.
ghost use Rattle.std.specs.Prelude.{◌≡◌, ◌≤◌, ◌<◌, ◌++◌, ◌∷◌, [], OnOk, IfOk, map, decimal, length};
ghost use Rattle.mck_word.specs.Lists.{count_from};
ghost use Rattle.guest_asm.specs.Growing.{grow_words, grow_guest, grow_image, grow_job_of, grow_images_of};
ghost use Rattle.job_model.specs.Prepared.{IsPrepared};
ghost use Rattle.guest_asm.specs.Images.{image_with, small_image_of};

use crate::images::small_image;
use itoa::Buffer;
use job_model::{GuestLine, GuestLines, Image, Job, Segment};
use mck_flags::Rights;
use mck_word::{Bytes, Items, NoMemory};
use std::alloc::Global;

/// The images of a job's guests.
pub type Images = Items<Image>;

// Fifty times: three pages are mapped, eight bytes are written from the first page, and the four pages are unmapped.
#[rattlefmt::skip]
const ROUNDS: [u32; 21] = [
    0x0320_0493, // addi s1,x0,50
    0x0000_0513, // addi a0,x0,0
    0x0000_45b7, // lui a1,4
    0x0030_0613, // addi a2,x0,3
    0x0220_0693, // addi a3,x0,34
    0x0de0_0893, // addi a7,x0,222
    0x0000_0073, // ecall
    0x0005_0413, // addi s0,a0,0
    0x0094_3023, // sd s1,0(s0)
    0x0010_0513, // addi a0,x0,1
    0x0004_0593, // addi a1,s0,0
    0x0000_2637, // lui a2,2
    0x0086_0613, // addi a2,a2,8
    0x0400_0893, // addi a7,x0,64
    0x0000_0073, // ecall
    0x0004_0513, // addi a0,s0,0
    0x0000_45b7, // lui a1,4
    0x0d70_0893, // addi a7,x0,215
    0x0000_0073, // ecall
    0xfff4_8493, // addi s1,s1,-1
    0xfa04_9ae3, // bne s1,x0,-76
];

const FRAMES_EACH: u32 = 22;

fn grow_words(guest: u32) -> [u32; 24]
    requires { guest < 2048 }
    ensures { result ≡ grow_words guest }
{
    let mut words = [0u32; 24];
    let (rounds, end) = words.split_at_mut(21);
    rounds.copy_from_slice(&ROUNDS);
    end.copy_from_slice(&[0x0000_0513 + guest * 0x10_0000, 0x05e0_0893, 0x0000_0073]);
    words
}

fn name_of(alloc: Global, guest: u32) -> Result<Bytes, NoMemory>
    ensures { IfOk result (λ name. name ≡ 103 ∷ decimal guest) }
{
    let mut buffer = Buffer::new();
    let mut name = Bytes::new(alloc);
    name.push(b'g')?;
    name.add(buffer.format(guest).as_bytes())?;
    Ok(name)
}

fn guest_line(alloc: Global, guest: u32) -> Result<GuestLine, NoMemory>
    ensures { IfOk result (λ line. line ≡ grow_guest guest) }
{
    let mut args = Items::new(alloc);
    args.push(name_of(alloc, guest)?)?;
    Ok(GuestLine {
        line: u64::from(guest),
        args,
    })
}

fn image_of(alloc: Global, file: Bytes) -> Result<Image, NoMemory>
    ensures { IfOk result (λ image. image ≡ image_with file) }
{
    let mem = file.len() as u64;
    let mut segments = Items::new(alloc);
    segments.push(Segment {
        addr: 0x10000,
        mem,
        bytes: file,
        rights: Rights(7),
    })?;
    Ok(Image {
        entry: 0x10078,
        phdr: 0x10040,
        phnum: 1,
        segments,
    })
}

fn grow_image(alloc: Global, guest: u32) -> Result<Image, NoMemory>
    requires { guest < 2048 }
    ensures { IfOk result (λ image. image ≡ grow_image guest) }
{
    let file = small_image(alloc, &grow_words(guest))?;
    image_of(alloc, file)
}

fn grow_guests(alloc: Global, n: u32) -> Result<GuestLines, NoMemory>
    requires { n ≤ 16 }
    ensures { IfOk result (λ guests. guests ≡ map grow_guest (count_from 1 n)) }
{
    let mut guests = Items::new(alloc);
    let mut guest = 1;
    while guest <= n {
        guests.push(guest_line(alloc, guest)?)?;
        guest += 1;
    }
    Ok(guests)
}

fn grow_images(alloc: Global, n: u32) -> Result<Images, NoMemory>
    requires { n ≤ 16 }
    ensures { IfOk result (λ images. images ≡ map grow_image (count_from 1 n)) }
{
    let mut images = Items::new(alloc);
    let mut guest = 1;
    while guest <= n {
        images.push(grow_image(alloc, guest)?)?;
        guest += 1;
    }
    Ok(images)
}

/// A valid job of n guests that map, write and unmap in rounds, with their images.
pub fn grow_job(alloc: Global, n: u32) -> Result<(Job, Images), NoMemory>
    requires some { 1 ≤ n }
    requires most { n ≤ 16 }
    ensures job { IfOk result (λ p. p.0 ≡ grow_job_of n) }
    ensures images { IfOk result (λ p. p.1 ≡ grow_images_of n) }
    ensures prepared { IfOk result (λ p. IsPrepared p.0 p.1) }
{
    let guests = grow_guests(alloc, n)?;
    let images = grow_images(alloc, n)?;
    let job = Job {
        frames: FRAMES_EACH * n,
        cores: 4,
        workers: 2,
        rings: 1,
        limit: 1_000_000,
        guests,
        signals: Items::new(alloc),
        files: Items::new(alloc),
        inputs: Items::new(alloc),
    };
    Ok((job, images))
}

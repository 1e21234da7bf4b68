//! Opens a new file in a tree, writes 64 KiB in pieces of 4 KiB, reads them back and takes its name away, so many times, and prints a
//! checksum. The words are WORK FILES ROUNDS: the work is `bytes`, or `calls`, which leaves the writing and reading out; so many files
//! stand in the tree beside it, at most 1,000.
//!
//! Promises nothing of its own, so no edit turns a contract here: what a call does is said by those of linux_files.
#![tactic(auto)]

ghost use Rattle.std.specs.Prelude.{◌<◌, ◌^◌, IfOk, IsTrue};
ghost use Rattle.file_calls.specs.FileSteps.{Allows, FewCalls};
ghost use Rattle.file_model.specs.Files.{Files};

use anyhow::Result;
use file_calls::steps::file_step;
use file_calls::store::FileStore;
use file_model::{FileAns, FileOp};
use linux_files::LinuxFiles;
use mck_word::{NoMemory, Pid};
use std::alloc::Global;

const MOST_FILES: u32 = 1000;

// A piece of a stream, and how many pieces the new file has.
const PIECE: u32 = 4096;

const PIECES: u32 = 16;

const AT_ROOT: i32 = -100;

// To make a file, and to read and write it.
const NEW: u32 = 0x42;

// Whether the buffer is as the operation asks for, of those that are made here.
fn fits(op: &FileOp, io: &[u8], few: bool) -> bool
    ensures { IsTrue result → (files : Files) → (IsTrue few → FewCalls files) → Allows files op.now io.now }
{
    match *op {
        FileOp::Pipe2 { .. } | FileOp::Fstat { .. } | FileOp::Getdents { .. } => false,
        FileOp::Read { .. } | FileOp::Write { .. } => few,
        FileOp::Get { len, .. } | FileOp::Put { len, .. } => io.len() as u64 == u64::from(len),
        _ => true,
    }
}

// Makes a step with its room, and answers its value.
fn make(files: &mut LinuxFiles, op: &FileOp, io: &mut [u8]) -> Result<i64, NoMemory> {
    let few = match *op {
        FileOp::Read { .. } | FileOp::Write { .. } => files.few_calls(),
        _ => false,
    };
    if !fits(op, io, few) {
        return Err(NoMemory);
    }
    files.make_room(op)?;
    match file_step(files, Pid(1), op, io) {
        FileAns::Done(value) => Ok(value),
        FileAns::NotReady => Ok(0),
    }
}

// The number that a step answers, of a descriptor or a description. An errno doesn't come here, and ends the work.
fn number(value: i64) -> Result<u32, NoMemory>
    ensures { IfOk result (λ n. n < 2 ^ 31) }
{
    if value < 0 || value > 0x7fff_ffff {
        return Err(NoMemory);
    }
    Ok(value as u32)
}

// The path of a file by its number.
fn path_of(number: u32) -> [u8; 5] {
    let digit = |n: u32| b'0' + (n % 10) as u8;
    [
        b'/',
        digit(number / 1000),
        digit(number / 100),
        digit(number / 10),
        digit(number),
    ]
}

// A tree with so many files.
fn tree(alloc: Global, count: u32) -> Result<LinuxFiles, NoMemory> {
    let mut files = LinuxFiles::new(alloc)?;
    for number in 0..count {
        files.file(&path_of(number), b"x")?;
    }
    Ok(files)
}

// The next value of a checksum.
fn mixed(sum: u64, value: i64) -> u64 {
    sum.wrapping_mul(31)
        .wrapping_add(value.unsigned_abs())
        .wrapping_add(1)
}

// Writes the bytes of the new file, as one call with its pieces.
fn write(files: &mut LinuxFiles, fd: i32, io: &mut [u8]) -> Result<u64, NoMemory> {
    let act = FileOp::Write {
        fd,
        at: None,
        count: 0,
    };
    let d = number(make(files, &act, &mut [])?)?;
    let mut sum = mixed(0, i64::from(d));
    for piece in 0..PIECES {
        let op = FileOp::Put {
            desc: d,
            at: None,
            moved: piece * PIECE,
            len: PIECE,
        };
        sum = mixed(sum, make(files, &op, io)?);
    }
    let value = make(files, &FileOp::Leave(d), &mut [])?;
    Ok(mixed(sum, value))
}

// Reads them back.
fn read(files: &mut LinuxFiles, fd: i32, io: &mut [u8]) -> Result<u64, NoMemory> {
    let act = FileOp::Read {
        fd,
        at: None,
        count: 0,
    };
    let d = number(make(files, &act, &mut [])?)?;
    let mut sum = mixed(0, i64::from(d));
    for piece in 0..PIECES {
        let op = FileOp::Get {
            desc: d,
            at: None,
            moved: piece * PIECE,
            len: PIECE,
        };
        sum = mixed(sum, make(files, &op, io)?);
        sum = mixed(sum, i64::from(io.first().copied().unwrap_or(0)));
    }
    let value = make(files, &FileOp::Leave(d), &mut [])?;
    Ok(mixed(sum, value))
}

// One round with a new file: it is opened, its place is set to the beginning, its name is taken away, and it is closed.
fn round(files: &mut LinuxFiles, bytes: bool, io: &mut [u8]) -> Result<u64, NoMemory> {
    let mut path = *b"/0500new";
    let open = FileOp::Openat {
        dirfd: AT_ROOT,
        flags: NEW,
    };
    let opened = number(make(files, &open, &mut path)?)?;
    let fd = opened as i32;
    let mut sum = mixed(0, i64::from(opened));
    if bytes {
        sum = sum.wrapping_add(write(files, fd, io)?);
    }
    let seek = FileOp::Lseek {
        fd,
        offset: 0,
        whence: 0,
    };
    sum = mixed(sum, make(files, &seek, &mut [])?);
    if bytes {
        sum = sum.wrapping_add(read(files, fd, io)?);
    }
    let unlink = FileOp::Unlinkat {
        dirfd: AT_ROOT,
        flags: 0,
    };
    sum = mixed(sum, make(files, &unlink, &mut path)?);
    sum = mixed(sum, make(files, &FileOp::Close { fd }, &mut [])?);
    Ok(sum)
}

// As many rounds in a tree of so many files.
fn work(alloc: Global, bytes: bool, count: u32, rounds: u64) -> Result<u64, NoMemory> {
    let mut files = tree(alloc, count.min(MOST_FILES))?;
    let mut io = Vec::new(alloc);
    io.resize(PIECE as usize, 7u8)?;
    let mut sum = 0u64;
    for _ in 0..rounds {
        sum = sum
            .wrapping_mul(31)
            .wrapping_add(round(&mut files, bytes, &mut io)?);
    }
    Ok(sum)
}

fn main(rt: HostRuntime) -> Result<()> {
    let mut args = std::env::args(&rt)?;
    let _name = args.next();
    let kind = args.next();
    let count = match args.next() {
        Some(word) => word.as_str().parse::<u32>()?,
        None => 0,
    };
    let rounds = match args.next() {
        Some(word) => word.as_str().parse::<u64>()?,
        None => 0,
    };
    let bytes = match &kind {
        Some(word) => word.as_str() == "bytes",
        None => false,
    };
    match work(rt.alloc(), bytes, count, rounds) {
        Ok(sum) => println!(rt; "{count} {sum}")?,
        Err(NoMemory) => println!(rt; "no memory")?,
    }
    Ok(())
}

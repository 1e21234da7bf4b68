//! Assembles an assembler text of so many lines, or reads a job, so many times, and prints a checksum. The words are `assemble LINES
//! ROUNDS`, `listing LINES ROUNDS` or `job TENTHS ROUNDS`; ten tenths are a job of the largest size.
#![tactic(auto)]

use anyhow::Result;
use guest_asm::{AsmError, Words, assemble, listing};
use job_text::read_job;
use std::alloc::{AllocError, Global};

// Ten lines of code, over and over: a label, a branch to it, and instructions of other shapes.
fn assembler_text(alloc: Global, lines: u64) -> Result<Vec<u8>, AllocError> {
    let mut text = Vec::new(alloc);
    for k in 0..lines / 10 {
        let part = format!(in alloc;
            "loop_{k}:\naddi s1,s1,-1\nlui a1,4\nld a0,8(sp)\nsd s1,0(s0)\nadd a2,a0,a1\nslli a2,a2,3\n.word 305419896\nbne s1,x0,loop_{k}\njal ra,8\n"
        )?;
        text.extend_from_slice(part.as_bytes())?;
    }
    Ok(text)
}

// A line of `words` words of eight bytes.
fn add_words(text: &mut Vec<u8>, words: u64) -> Result<(), AllocError> {
    for _ in 0..words {
        text.extend_from_slice(b" abcdefg")?;
    }
    text.extend_from_slice(b"\n")
}

// Guests of 64 long words, files on deep paths, signals and inputs: as many tenths of the largest job as are asked for.
fn job(alloc: Global, tenths: u64) -> Result<Vec<u8>, AllocError> {
    let mut text = Vec::from_slice(alloc, b"frames 16000\n")?;
    let tenths = tenths.min(10);
    for _ in 0..16 * tenths / 10 {
        text.extend_from_slice(b"guest")?;
        add_words(&mut text, 64)?;
    }
    for k in 0..64 * tenths / 10 {
        let line = format!(in alloc;
            "file /d{k}/abcdefghijklmnopqrstuvwxyz/abcdefghijklmnopqrstuvwxyz/abcdefghijklmnopqrstuvwxyz/f{k} name{k}\nsignal 1 10 {k}\n"
        )?;
        text.extend_from_slice(line.as_bytes())?;
    }
    // Notes up to the size that is measured: they are read as any other line.
    for _ in 0..1000 * tenths {
        text.extend_from_slice(b"# ")?;
        add_words(&mut text, 120)?;
    }
    Ok(text)
}

fn sum_of(words: &Words) -> u64 {
    let mut sum = 0u64;
    for word in words.as_slice() {
        sum = sum.wrapping_mul(31).wrapping_add(u64::from(*word));
    }
    sum
}

fn main(rt: HostRuntime) -> Result<()> {
    let alloc = rt.alloc();
    let mut args = std::env::args(&rt)?;
    let _name = args.next();
    let kind = args.next();
    let size = match args.next() {
        Some(word) => word.as_str().parse::<u64>()?,
        None => 0,
    };
    let rounds = match args.next() {
        Some(word) => word.as_str().parse::<u64>()?,
        None => 0,
    };
    let kind = match &kind {
        Some(word) => word.as_str(),
        None => "",
    };
    let mut sum = 0u64;
    if kind == "job" {
        let text = job(alloc, size)?;
        for _ in 0..rounds {
            let job = read_job(alloc, &text)?;
            sum = sum.wrapping_mul(31).wrapping_add(job.files.len() as u64);
        }
        println!(rt; "{size} {} {sum}", text.len())?;
    } else {
        let text = assembler_text(alloc, size)?;
        let mut words = assemble(alloc, &text)?;
        for _ in 0..rounds {
            if kind == "listing" {
                let listed = listing(alloc, words.as_slice()).map_err(AsmError::from)?;
                sum = sum.wrapping_mul(31).wrapping_add(listed.len() as u64);
            } else {
                words = assemble(alloc, &text)?;
                sum = sum.wrapping_mul(31).wrapping_add(sum_of(&words));
            }
        }
        println!(rt; "{size} {} {sum}", text.len())?;
    }
    Ok(())
}

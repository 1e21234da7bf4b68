// Texts of words, small images and the job that grows.
use crate::small_files::EXIT_SEVEN;
use elf_load::load;
use guest_asm::{AsmError, assemble, grow_job, listing, small_image};
use job_text::read_job;
use mck_word::NoMemory;
use std::alloc::Global;

const GROW_THREE: &[u8] =
    b"addi s1,x0,50\nloop:\naddi a0,x0,0\nlui a1,4\naddi a2,x0,3\naddi a3,x0,34\naddi a7,x0,222\necall\naddi s0,a0,0\nsd s1,0(s0)\naddi a0,x0,1\naddi a1,s0,0\nlui a2,2\naddi a2,a2,8\naddi a7,x0,64\necall\naddi a0,s0,0\nlui a1,4\naddi a7,x0,215\necall\naddi s1,s1,-1\nbne s1,x0,loop\naddi a0,x0,3\naddi a7,x0,94\necall\n";

fn fault_of(alloc: Global, text: &[u8]) -> Option<AsmError> {
    match assemble(alloc, text) {
        Ok(_) => None,
        Err(e) => Some(e),
    }
}

#[test]
fn first_broken_lines(rt: HostRuntime) {
    let alloc = rt.alloc();
    // A label further than a branch reaches.
    let mut text = Vec::new(alloc);
    let mut made = text.extend_from_slice(b"beq x0,x0,far\n").is_ok();
    for _ in 0..1023 {
        made = made && text.extend_from_slice(b"ecall\n").is_ok();
    }
    made = made && text.extend_from_slice(b"far:\n").is_ok();
    assert!(rt; made);
    assert_eq!(rt; fault_of(alloc, &text), Some(AsmError::Line(1)));
}

#[test]
fn texts_of_words(rt: HostRuntime) {
    let alloc = rt.alloc();
    let words = [
        0x0070_0513,
        0x05d0_0893,
        0x0000_0073,
        0xfe11_3c23,
        0xfe20_9ee3,
        0x0000_0597,
        0x0000_006f,
        0x41f5_5513,
        0x0ff0_000f,
        0x0330_000f,
        0xffff_ffff,
        0x0073_8fb3,
        0xfff4_b483,
    ];
    let want =
        b"addi x10,x0,7\naddi x17,x0,93\necall\nsd x1,-8(x2)\nbne x1,x2,-4\nauipc x11,0\njal x0,0\nsrai x10,x10,31\nfence\n.word 53477391\n.word 4294967295\nadd x31,x7,x7\nld x9,-1(x9)\n";
    match listing(alloc, &words) {
        Ok(text) => {
            assert_eq!(rt; text.as_slice(), want.as_slice());
            match assemble(alloc, text.as_slice()) {
                Ok(again) => assert_eq!(rt; again.as_slice(), words.as_slice()),
                Err(_) => assert!(rt; false),
            }
        }
        Err(_) => assert!(rt; false),
    }
}

#[test]
fn small_images_and_growth(rt: HostRuntime) {
    let alloc = rt.alloc();
    match small_image(alloc, &[0x0070_0513, 0x05d0_0893, 0x0000_0073]) {
        Ok(file) => {
            assert_eq!(rt; file.as_slice(), EXIT_SEVEN);
            assert!(rt; load(alloc, file.as_slice()).is_ok());
        }
        Err(_) => assert!(rt; false),
    }
    let file = match assemble(alloc, GROW_THREE) {
        Ok(words) => small_image(alloc, words.as_slice()),
        Err(_) => Err(NoMemory),
    };
    match (grow_job(alloc, 3), file) {
        (Ok((job, images)), Ok(file)) => {
            assert_eq!(rt;
                (job.frames, job.cores, job.workers, job.rings, job.limit),
                (66, 4, 2, 1, 1_000_000)
            );
            assert_eq!(rt; job.guests.len(), 3);
            match (images.as_slice().last(), load(alloc, file.as_slice())) {
                (Some(image), Ok(loaded)) => {
                    assert_eq!(rt;
                        (image.entry, image.phdr, image.phnum),
                        (loaded.entry, loaded.phdr, loaded.phnum)
                    );
                    match (
                        image.segments.as_slice().first(),
                        loaded.segments.as_slice().first(),
                    ) {
                        (Some(s), Some(t)) => {
                            assert_eq!(rt;
                                (s.addr, s.mem, s.rights.0),
                                (t.addr, t.mem, t.rights.0)
                            );
                            assert_eq!(rt; s.bytes.as_slice(), t.bytes.as_slice());
                        }
                        _ => assert!(rt; false),
                    }
                }
                _ => assert!(rt; false),
            }
        }
        _ => assert!(rt; false),
    }
    assert!(rt; read_job(alloc, b"frames 18\nguest exit_seven\n").is_ok());
}

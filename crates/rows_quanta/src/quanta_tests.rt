// Quanta against a run over the whole memory.
use crate::lent::{has_all, lend, whole};
use isa_model::{Lack, Stop};
use mck_word::{Access, NoMemory, Regs};
use rand_core::utils::NextWord;
use rand_pcg::Pcg32;
use rv_quantum::Quanta;
use rv64i_user::{KnownWords, run_most};
use std::alloc::Global;

fn start() -> Regs {
    Regs {
        pc: 0x1000,
        x: [0; 32],
    }
}

// A word of an instruction that mostly goes on: results stand in the lower registers, addresses in the upper ones, and
// branches go a little forward.
fn word(random: &mut Pcg32) -> u32 {
    let w = random.next_word();
    match random.next_word() % 8 {
        0 => w & 0xffff_f780 | 0x37,
        1 => w & 0x01ff_f780 | 0x33,
        2 => w & 0x03f7_b780 | 0x8_0003,
        3 => w & 0x01f7_bf80 | 0x8_0023,
        4 => w & 0x01ff_dc00 | 0x263,
        5 => w & 0x01ff_f780 | 0x0200_403b,
        6 => w & 0x09f7_8780 | 0x8_202f,
        _ => w & 0x03ff_f780 | 0x13,
    }
}

// Registers that point into the data.
fn registers(random: &mut Pcg32) -> Regs {
    let mut regs = start();
    for k in 1..32 {
        regs.x[k] = 0x2000 + (random.next_word() % 0x4080) as u64 / 8 * 8;
    }
    regs
}

fn total(counts: &[u32]) -> u32 {
    counts.iter().fold(0u32, |a, b| a.wrapping_add(*b))
}

// One for an instruction that stopped.
fn stopped(stop: &Stop) -> u32 {
    match stop {
        Stop::On => 0,
        _ => 1,
    }
}

// Whether two batches of quanta of random words come to what a run over the whole memory comes to.
fn agrees(alloc: Global, random: &mut Pcg32) -> Result<bool, NoMemory> {
    let mut code = [0u32; 64];
    for k in 0..63 {
        code[k] = word(random);
    }
    // jal x0,-252
    code[63] = 0xf05f_f06f;
    let mut lent = lend(alloc, &code, 4)?;
    let mut known = KnownWords::new(alloc)?;
    let mut quanta = Quanta::new(alloc)?;
    let mut regs = registers(random);
    let mut mem = whole(alloc, &code, 4)?;
    let mut good = true;
    for _ in 0..2 {
        quanta.begin(regs);
        for _ in 0..4 {
            let _count = quanta.quantum(&mut lent, &mut known, random.next_word() % 64 + 1);
        }
        let n = total(quanta.counts());
        let mut stop = Stop::On;
        let went = run_most(&mut regs, &mut mem, &mut stop, n);
        good = good
            && went.wrapping_add(stopped(&stop)) == n
            && regs == *quanta.regs()
            && stop == *quanta.stop()
            && has_all(&mem, &lent, quanta.images());
    }
    let _rows = mem.into_mem();
    Ok(good)
}

#[test]
fn random_words(rt: HostRuntime) {
    let mut random = Pcg32::new(2026, 12);
    for _ in 0..100 {
        assert_eq!(rt; agrees(rt.alloc(), &mut random), Ok(true));
    }
}

// What a page that is absent leaves: the counts, the stop, and whether its image has no rights.
fn ran_into_nothing(alloc: Global) -> Result<(u32, u32, Stop, bool), NoMemory> {
    // addi a0,a0,1; sd a0,0(t0)
    let mut lent = lend(alloc, &[0x0015_0513, 0x00a2_b023], 1)?;
    let mut known = KnownWords::new(alloc)?;
    let mut quanta = Quanta::new(alloc)?;
    let mut regs = start();
    regs.x[5] = 0x9000;
    quanta.begin(regs);
    let first = quanta.quantum(&mut lent, &mut known, 64);
    let second = quanta.quantum(&mut lent, &mut known, 64);
    let absent = quanta
        .images()
        .iter()
        .any(|i| i.page == 9 && i.rights.is_none());
    Ok((first, second, *quanta.stop(), absent))
}

#[test]
fn absent_page(rt: HostRuntime) {
    let lack = Lack {
        page: 9,
        access: Access::Write,
    };
    assert_eq!(rt;
        ran_into_nothing(rt.alloc()),
        Ok((2, 0, Stop::Fault(lack), true))
    );
}

// The counts of quanta over more pages than images are kept, and that of one after all were forgotten.
fn ran_over_pages(alloc: Global) -> Result<(u32, u32, u32, usize, u32), NoMemory> {
    // ld a0,0(t0); add t0,t0,t1; jal x0,-8
    let mut lent = lend(alloc, &[0x0002_b503, 0x0062_82b3, 0xff9f_f06f], 40)?;
    let mut known = KnownWords::new(alloc)?;
    let mut quanta = Quanta::new(alloc)?;
    let mut regs = start();
    regs.x[5] = 0x2000;
    regs.x[6] = 0x1000;
    quanta.begin(regs);
    let first = quanta.quantum(&mut lent, &mut known, 64);
    let second = quanta.quantum(&mut lent, &mut known, 64);
    let third = quanta.quantum(&mut lent, &mut known, 64);
    let kept = quanta.images().len();
    let regs = *quanta.regs();
    quanta.forget();
    quanta.begin(regs);
    let fourth = quanta.quantum(&mut lent, &mut known, 9);
    Ok((first, second, third, kept, fourth))
}

#[test]
fn more_pages_than_images(rt: HostRuntime) {
    assert_eq!(rt; ran_over_pages(rt.alloc()), Ok((64, 29, 0, 32, 9)));
}

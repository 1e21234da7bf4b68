//! Runs the measured loops over a paged memory, in quanta of 64 instructions, and prints for each what it came to: the instructions
//! that went on, how it stopped, and its result. With the word `time` it prints the microseconds too.
#![tactic(auto)]

mod loops;
mod start;

use isa_model::Stop;
use loops::{CALLS, CHECKSUM, COUNTERS, NESTED, PRODUCTS, SIEVE};
use mck_word::Regs;
use paged_memory::PagedRows;
use rv64i_user::{Kept, KnownWords, run_known};

// What a loop came to.
#[derive(Clone, Copy)]
struct Ended {
    instructions: u64,
    stop: Stop,
    result: u64,
}

// Runs to the first stop.
#[inline(never)]
fn run(mem: PagedRows, words: &mut KnownWords) -> Ended {
    let mut r = Regs {
        pc: 0x1000,
        x: [0; 32],
    };
    let mut mem = Kept::over(mem);
    let mut last = Stop::On;
    let mut instructions = 0u64;
    for _ in 0..4_000_000u64 {
        let mut stop = Stop::On;
        let n = run_known(&mut r, &mut mem, words, &mut stop, 64);
        instructions = instructions.wrapping_add(u64::from(n));
        if n < 64 {
            last = stop;
            break;
        }
    }
    let _rows = mem.into_mem();
    Ended {
        instructions,
        stop: last,
        result: r.x[10],
    }
}

fn main(rt: HostRuntime) -> anyhow::Result<()> {
    let mut args = std::env::args(&rt)?;
    let _name = args.next();
    let timed = match args.next() {
        Some(word) => word.as_str() == "time",
        None => false,
    };
    let loops: [(&'static str, &'static [u32]); 6] = [
        ("sieve", &SIEVE),
        ("checksum", &CHECKSUM),
        ("nested", &NESTED),
        ("calls", &CALLS),
        ("products", &PRODUCTS),
        ("counters", &COUNTERS),
    ];
    let Ok(mut known) = KnownWords::new(rt.alloc()) else {
        println!(rt; "no memory")?;
        return Ok(());
    };
    for (name, words) in loops {
        let Ok(mem) = start::memory(rt.alloc(), words) else {
            println!(rt; "{name} no memory")?;
            return Ok(());
        };
        let begun = std::time::Instant::now(&rt)?;
        let ended = run(mem, &mut known);
        let microseconds = begun.elapsed(&rt)?.as_micros();
        let Ended {
            instructions,
            stop,
            result,
        } = ended;
        if timed {
            println!(rt; "{name} {instructions} {stop:?} {result:x} {microseconds}")?;
        } else {
            println!(rt; "{name} {instructions} {stop:?} {result:x}")?;
        }
    }
    Ok(())
}

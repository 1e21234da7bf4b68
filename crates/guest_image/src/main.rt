//! Reads an assembler text and prints the small image of its words, in hexadecimal digits, 32 bytes a line. A broken line ends it with
//! status 1 and the line's number.
#![tactic(auto)]

use anyhow::Result;
use guest_asm::{AsmError, assemble, small_image};
use std::io::Read;

fn main(rt: HostRuntime) -> Result<()> {
    let alloc = rt.alloc();
    let mut text = Vec::new(alloc);
    rt.reader().read_to_end(&mut text)?;
    let words = assemble(alloc, &text)?;
    let image = small_image(alloc, words.as_slice()).map_err(AsmError::from)?;
    for bytes in image.as_slice().chunks(32) {
        let line = hex::encode(alloc, bytes)?;
        println!(rt; "{line}")?;
    }
    Ok(())
}

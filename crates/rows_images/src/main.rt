//! Tells whether bytes load as an image: the entry, the address of the program headers and the segments, or the first rule that they
//! break; and of an image that loads, how many bytes it is written to, if those load to the same image.
//!
//! Without a word it reads a file. With the word `table` it reads lines. The first is an image in hexadecimal digits; each other one
//! is empty, a note that begins with `#`, or `NAME: LENGTH PLACE=DIGITS ..`, which stands for the image cut or filled up with zeros to that
//! length, with other bytes at these places.
#![tactic(auto)]

mod table;
mod telling;

use anyhow::Result;
use std::io::Read;

fn main(rt: HostRuntime) -> Result<()> {
    let alloc = rt.alloc();
    let mut input = Vec::new(alloc);
    rt.reader().read_to_end(&mut input)?;
    let mut args = std::env::args(&rt)?;
    let _name = args.next();
    let told = match args.next() {
        Some(word) if word.as_str() == "table" => table::tell_table(alloc, &input)?,
        _ => telling::tell(alloc, &input)?,
    };
    print!(rt; "{told}")?;
    Ok(())
}

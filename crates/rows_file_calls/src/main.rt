//! Makes the file calls of a table in the two stores of files side by side, and tells where an answer, or the bytes that are given out,
//! aren't those of the table or those of the other store, and where the stores show different files.
#![tactic(auto)]

mod alike;
mod both;
mod calls;
mod running;
mod table;
mod words;

use anyhow::Result;
use std::io::Read;

fn main(rt: HostRuntime) -> Result<()> {
    let alloc = rt.alloc();
    let mut input = Vec::new(alloc);
    rt.reader().read_to_end(&mut input)?;
    let told = table::run_table(alloc, &input)?;
    print!(rt; "{told}")?;
    Ok(())
}

//! Tells of each text of a table that it reads as a job or a plan, which words it assembles to, or its first broken line.
//!
//! A line is empty, a note that begins with `#`, `job TEXT`, `plan TEXT` or `code TEXT`. In a text `\n` stands for a line feed,
//! and `\x` with two hexadecimal digits for any byte.
#![tactic(auto)]

mod escapes;
mod telling;

use anyhow::{Result, anyhow};
use escapes::text_of;
use std::alloc::Global;
use telling::{tell_code, tell_job, tell_plan};

// What is told of a line.
fn told(alloc: Global, line: &str) -> Result<String> {
    if let Some(text) = line.strip_prefix("job ") {
        return Ok(tell_job(alloc, &text_of(alloc, text)?)?);
    }
    if let Some(text) = line.strip_prefix("plan ") {
        return Ok(tell_plan(alloc, &text_of(alloc, text)?)?);
    }
    match line.strip_prefix("code ") {
        Some(text) => Ok(tell_code(alloc, &text_of(alloc, text)?)?),
        None => Err(anyhow!("no row: {line}")),
    }
}

fn main(rt: HostRuntime) -> Result<()> {
    for line in rt.lines(rt.alloc()) {
        let line = line?;
        let line = line.as_str();
        if line.is_empty() || line.starts_with("#") {
            continue;
        }
        let told = told(rt.alloc(), line)?;
        println!(rt; "{line}: {told}")?;
    }
    Ok(())
}

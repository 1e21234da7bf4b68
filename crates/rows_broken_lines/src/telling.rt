// What is told of a text.
use guest_asm::assemble;
use job_text::read_job;
use plan_text::read_plan;
use std::alloc::{AllocError, Global};

/// That a job reads, or why not.
pub fn tell_job(alloc: Global, text: &[u8]) -> Result<String, AllocError> {
    match read_job(alloc, text) {
        Ok(_job) => String::from_str(alloc, "reads"),
        Err(error) => format!(in alloc; "{error}"),
    }
}

/// How many commands a plan that reads has, or why not.
pub fn tell_plan(alloc: Global, text: &[u8]) -> Result<String, AllocError> {
    match read_plan(alloc, text) {
        Ok(plan) => {
            let count = plan.commands.len();
            format!(in alloc; "reads {count}")
        }
        Err(error) => format!(in alloc; "{error}"),
    }
}

// Words in hexadecimal.
fn tell_words(alloc: Global, words: &[u32]) -> Result<String, AllocError> {
    let mut told = String::new(alloc);
    for word in words {
        if !told.is_empty() {
            told.push_str(" ")?;
        }
        told.push_str(format!(in alloc; "{word:08x}")?.as_str())?;
    }
    if told.is_empty() {
        told.push_str("no words")?;
    }
    Ok(told)
}

/// The words of an assembler text, or its first broken line.
pub fn tell_code(alloc: Global, text: &[u8]) -> Result<String, AllocError> {
    match assemble(alloc, text) {
        Ok(words) => tell_words(alloc, words.as_slice()),
        Err(error) => format!(in alloc; "{error}"),
    }
}

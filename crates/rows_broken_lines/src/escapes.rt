// The text of a row.
use anyhow::{Result, anyhow};
use std::alloc::Global;

// Adds the byte that a part says behind its `\`, and what follows it.
fn add_part(alloc: Global, bytes: &mut Vec<u8>, part: &str) -> Result<()> {
    if let Some(rest) = part.strip_prefix("n") {
        bytes.push(b'\n')?;
        bytes.extend_from_slice(rest.as_bytes())?;
        return Ok(());
    }
    match part.strip_prefix("x") {
        Some(digits) if digits.len() >= 2 => {
            let (digits, rest) = digits.as_bytes().split_at(2);
            bytes.extend_from_slice(&hex::decode(alloc, digits)?)?;
            bytes.extend_from_slice(rest)?;
            Ok(())
        }
        _ => Err(anyhow!("no byte: {part}")),
    }
}

/// The bytes that a text stands for.
pub fn text_of(alloc: Global, text: &str) -> Result<Vec<u8>> {
    let mut parts = text.split('\\');
    let mut bytes = Vec::from_slice(alloc, parts.next().unwrap_or("").as_bytes())?;
    for part in parts {
        add_part(alloc, &mut bytes, part)?;
    }
    Ok(bytes)
}

// A table of files.
use crate::telling::tell;
use anyhow::{Result, anyhow};
use std::alloc::Global;

// Other bytes from a place on, as far as there are places.
fn put(bytes: &mut [u8], place: usize, new: &[u8]) {
    for (k, byte) in new.iter().enumerate() {
        if let Some(there) = bytes.get_mut(place.saturating_add(k)) {
            *there = *byte;
        }
    }
}

// The file that the words of a line stand for.
fn file_of(alloc: Global, image: &[u8], words: &str) -> Result<Vec<u8>> {
    let mut words = words.split(' ');
    let length = match words.next() {
        Some(word) => word.parse::<usize>()?,
        None => 0,
    };
    let mut bytes = Vec::from_slice(alloc, image)?;
    bytes.resize(length, 0)?;
    for word in words {
        let Some((place, digits)) = word.split_once('=') else {
            return Err(anyhow!("no place: {word}"));
        };
        let new = hex::decode(alloc, digits)?;
        put(&mut bytes, place.parse::<usize>()?, &new);
    }
    Ok(bytes)
}

/// What is told of each line, behind its name.
pub fn tell_table(alloc: Global, input: &[u8]) -> Result<String> {
    let text = std::str::from_utf8(input)?;
    let mut lines = text.lines();
    let image = hex::decode(alloc, lines.next().unwrap_or(""))?;
    let mut told = String::new(alloc);
    for line in lines {
        if let Some((name, words)) = line.split_once(": ") {
            told.push_str(name)?;
            told.push_str(": ")?;
            let file = file_of(alloc, &image, words)?;
            told.push_str(tell(alloc, &file)?.as_str())?;
        }
    }
    Ok(told)
}

// The words of a row: numbers and bytes.
ghost use Rattle.std.specs.Prelude.{◌<◌, ◌≤◌, ◌^◌, IfOk};

use anyhow::{Result, anyhow};
use std::alloc::Global;

/// The most bytes that a part of a word stands for.
const MOST_TIMES: u64 = 1 << 24;

/// The words of a row that are left.
#[derive(Drop)]
pub struct Words<'a> {
    rest: &'a str,
}

/// A number in decimal digits, or behind `0x` in hexadecimal ones, or behind `0o` in octal ones.
fn number_of(word: &str) -> Result<i128> {
    let number = if let Some(digits) = word.strip_prefix("0x") {
        i128::from_str_radix(digits, 16)
    } else if let Some(digits) = word.strip_prefix("0o") {
        i128::from_str_radix(digits, 8)
    } else {
        i128::from_str_radix(word, 10)
    };
    match number {
        Ok(number) => Ok(number),
        Err(_) => Err(anyhow!("no number: {word}")),
    }
}

impl<'a> Words<'a> {
    /// The words of a text.
    pub fn of(text: &'a str) -> Words<'a> {
        Words { rest: text }
    }

    /// The next word, which is empty where none is left.
    pub fn word(&mut self) -> &'a str {
        match self.rest.split_once(' ') {
            Some((word, rest)) => {
                self.rest = rest;
                word
            }
            None => {
                let word = self.rest;
                self.rest = "";
                word
            }
        }
    }

    /// What is left.
    pub fn rest(&self) -> &'a str {
        self.rest
    }

    /// The next word as a number.
    pub fn i64(&mut self) -> Result<i64> {
        let word = self.word();
        match i64::try_from(number_of(word)?) {
            Ok(number) => Ok(number),
            Err(_) => Err(anyhow!("too large: {word}")),
        }
    }

    pub fn u64(&mut self) -> Result<u64> {
        let word = self.word();
        match u64::try_from(number_of(word)?) {
            Ok(number) => Ok(number),
            Err(_) => Err(anyhow!("too large: {word}")),
        }
    }

    pub fn i32(&mut self) -> Result<i32> {
        let word = self.word();
        match i32::try_from(number_of(word)?) {
            Ok(number) => Ok(number),
            Err(_) => Err(anyhow!("too large: {word}")),
        }
    }

    pub fn u32(&mut self) -> Result<u32> {
        let word = self.word();
        match u32::try_from(number_of(word)?) {
            Ok(number) => Ok(number),
            Err(_) => Err(anyhow!("too large: {word}")),
        }
    }

    /// The next word as bytes.
    pub fn bytes(&mut self, alloc: Global) -> Result<Vec<u8>> {
        bytes_of(alloc, self.word())
    }
}

/// How many times, or how many bytes, a part of a word says.
fn times_of(word: &str) -> Result<u64>
    ensures { IfOk result (λ n. n ≤ 2 ^ 24) }
{
    match u64::try_from(number_of(word)?) {
        Ok(times) if times <= MOST_TIMES => Ok(times),
        _ => Err(anyhow!("too many: {word}")),
    }
}

/// The value of a hexadecimal digit.
fn digit(byte: u8) -> u8
    ensures { result < 16 }
{
    match byte {
        b'0'..=b'9' => byte - b'0',
        b'a'..=b'f' => byte - b'a' + 10,
        _ => 0,
    }
}

/// The bytes of a text, in which `%` and two hexadecimal digits stand for any byte.
fn text_of(alloc: Global, text: &str) -> Result<Vec<u8>> {
    let mut bytes = Vec::new(alloc);
    let mut parts = text.split('%');
    if let Some(first) = parts.next() {
        bytes.extend_from_slice(first.as_bytes())?;
    }
    for part in parts {
        let part = part.as_bytes();
        if part.len() < 2 {
            return Err(anyhow!("no byte: {text}"));
        }
        let (digits, rest) = part.split_at(2);
        bytes.push(digit(digits[0]) * 16 + digit(digits[1]))?;
        bytes.extend_from_slice(rest)?;
    }
    Ok(bytes)
}

/// Adds a text so many times.
fn add_times(bytes: &mut Vec<u8>, text: &[u8], times: u64) -> Result<()> {
    if let [byte] = text {
        let end = bytes.len().saturating_add(times as usize);
        bytes.resize(end, *byte)?;
        return Ok(());
    }
    for _ in 0..times {
        bytes.extend_from_slice(text)?;
    }
    Ok(())
}

/// Adds a number in so many bytes, the lowest first.
fn add_number(bytes: &mut Vec<u8>, len: u64, number: i128) -> Result<()> {
    let mut left = number;
    for _ in 0..len {
        bytes.push((left & 0xff) as u8)?;
        left >>= 8;
    }
    Ok(())
}

/// The bytes that a word stands for: nothing for `-`, else its parts, between each two of which a `+` stands. A part is `LENGTH:NUMBER`,
/// a number in so many bytes, the lowest first; or a text, `TEXT*TIMES` where it comes so many times.
pub fn bytes_of(alloc: Global, word: &str) -> Result<Vec<u8>> {
    let mut bytes = Vec::new(alloc);
    if word == "-" {
        return Ok(bytes);
    }
    for part in word.split('+') {
        if let Some((len, number)) = part.split_once(':') {
            add_number(&mut bytes, times_of(len)?, number_of(number)?)?;
        } else if let Some((text, times)) = part.split_once('*') {
            let text = text_of(alloc, text)?;
            add_times(&mut bytes, &text, times_of(times)?)?;
        } else {
            let text = text_of(alloc, part)?;
            bytes.extend_from_slice(&text)?;
        }
    }
    Ok(bytes)
}

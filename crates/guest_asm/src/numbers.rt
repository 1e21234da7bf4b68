// Numbers of an assembler text.
ghost use Rattle.std.specs.Prelude.{◌≡◌};
ghost use Rattle.guest_asm.specs.Numbers.{hex_digit, hex_digits, hex_of, size_of, literal_of, immediate_of, natural_of};

use mck_word::read_number;

/// The largest size of a number with a sign that an instruction can take.
pub const MOST_IMMEDIATE: u64 = 0x10_0000;

/// A number as it is written: whether a minus stands before it, and its size.
#[derive(Clone, Copy, Debug, PartialEq, Eq)]
pub struct Number {
    pub negative: bool,
    pub size: u64,
}

fn hex_digit(b: u8) -> Option<u8>
    ensures { result ≡ hex_digit b }
{
    match b {
        b'0'..=b'9' => Some(b - b'0'),
        b'a'..=b'f' => Some(b - b'a' + 10),
        b'A'..=b'F' => Some(b - b'A' + 10),
        _ => None,
    }
}

fn hex_digits(digits: &[u8]) -> Option<u64>
    ensures { result ≡ hex_digits 0 digits.now }
{
    let mut number = 0u64;
    let mut rest = digits;
    while let Some((b, more)) = rest.split_first() {
        let digit = hex_digit(*b)?;
        number = number.checked_mul(16)?.checked_add(u64::from(digit))?;
        rest = more;
    }
    Some(number)
}

fn hex_of(digits: &[u8]) -> Option<u64>
    ensures { result ≡ hex_of digits.now }
{
    if digits.is_empty() {
        return None;
    }
    hex_digits(digits)
}

fn size_of(word: &[u8]) -> Option<u64>
    ensures { result ≡ size_of word.now }
{
    if word.starts_with(b"0x") {
        let (_, digits) = word.split_at(2);
        hex_of(digits)
    } else {
        read_number(word)
    }
}

/// The number that a word is: decimal with an optional minus, or 0x and hexadecimal digits.
pub fn literal_of(word: &[u8]) -> Option<Number>
    ensures { result ≡ literal_of word.now }
{
    let (first, rest) = word.split_first()?;
    if *first == b'-' {
        let size = read_number(rest)?;
        Some(Number {
            negative: true,
            size,
        })
    } else {
        let size = size_of(word)?;
        Some(Number {
            negative: false,
            size,
        })
    }
}

/// The number with its sign, if its size is one that an instruction with a sign can take.
pub fn immediate_of(n: Number) -> Option<i32>
    ensures { result ≡ immediate_of n }
{
    if MOST_IMMEDIATE < n.size {
        return None;
    }
    let size = n.size as i32;
    if n.negative { Some(-size) } else { Some(size) }
}

/// The number, if it is one from 0 to `most`.
pub fn natural_of(most: u32, n: Number) -> Option<u32>
    ensures { result ≡ natural_of most n }
{
    if (n.negative && 0 < n.size) || u64::from(most) < n.size {
        return None;
    }
    Some(n.size as u32)
}

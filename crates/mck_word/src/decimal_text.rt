ghost use Rattle.std.specs.Prelude.{◌≡◌};
ghost use Rattle.mck_word.specs.Numbers.{digits, number_of};

fn read_digits(bytes: &[u8]) -> Option<u64>
    ensures { result ≡ digits 0 bytes.now }
{
    let mut number = 0u64;
    let mut rest = bytes;
    while let Some((digit, more)) = rest.split_first() {
        if *digit < b'0' || *digit > b'9' {
            return None;
        }
        let value = u64::from(*digit - b'0');
        number = number.checked_mul(10)?.checked_add(value)?;
        rest = more;
    }
    Some(number)
}

/// The number that the bytes are, in decimal without sign or leading zero.
pub fn read_number(bytes: &[u8]) -> Option<u64>
    ensures { result ≡ number_of bytes.now }
{
    let (first, rest) = bytes.split_first()?;
    if *first == b'0' && !rest.is_empty() {
        return None;
    }
    read_digits(bytes)
}

// Products, quotients and the lesser of two numbers.
ghost use Rattle.std.specs.Prelude.{◌≡◌, ◌*◌, ◌/◌, ◌%◌, ◌^◌, ◌<◌, ◌*ℤ◌, pos, int_lt, int_div, int_rem, if◌then◌else◌};
ghost use Rattle.std.specs.Int.{w64, cast_signed, cast_unsigned, int_shr};
ghost use Rattle.mck_word.specs.Word.{sext_of};

use mck_word::sext;

// The low 32 bits.
#[inline(always)]
pub fn low(a: u64) -> u64
    ensures { result ≡ a % 2 ^ 32 }
{
    a & 0xffff_ffff
}

// The upper 64 bits of the product of two signed numbers.
pub fn high_signed(a: u64, b: u64) -> u64
    ensures { result ≡ cast_unsigned w64 (int_shr (cast_signed w64 a *ℤ cast_signed w64 b) 64) }
{
    let product = i128::from(a.cast_signed()) * i128::from(b.cast_signed());
    ((product >> 64) as i64).cast_unsigned()
}

// The upper 64 bits of the product of a signed and an unsigned number.
pub fn high_mixed(a: u64, b: u64) -> u64
    ensures { result ≡ cast_unsigned w64 (int_shr (cast_signed w64 a *ℤ pos b) 64) }
{
    let product = i128::from(a.cast_signed()) * i128::from(b);
    ((product >> 64) as i64).cast_unsigned()
}

// The upper 64 bits of the product of two unsigned numbers.
pub fn high_unsigned(a: u64, b: u64) -> u64
    ensures { result ≡ a * b / 2 ^ 64 }
{
    ((u128::from(a) * u128::from(b)) >> 64) as u64
}

// The quotient of two signed numbers, towards zero.
pub fn divided(a: u64, b: u64) -> u64
    requires { 0 < b }
    ensures { result ≡ cast_unsigned w64 (int_div (cast_signed w64 a) (cast_signed w64 b)) }
{
    a.cast_signed()
        .wrapping_div(b.cast_signed())
        .cast_unsigned()
}

// What that division leaves, with the sign of the dividend.
pub fn left_over(a: u64, b: u64) -> u64
    requires { 0 < b }
    ensures { result ≡ cast_unsigned w64 (int_rem (cast_signed w64 a) (cast_signed w64 b)) }
{
    a.cast_signed()
        .wrapping_rem(b.cast_signed())
        .cast_unsigned()
}

// Whether the low 32 bits of a are less than those of b, as signed numbers.
pub fn low_less(a: u64, b: u64) -> bool
    ensures { result ≡ int_lt (cast_signed w64 (sext_of 32 a)) (cast_signed w64 (sext_of 32 b)) }
{
    sext(a, 32).cast_signed() < sext(b, 32).cast_signed()
}

// One of two numbers.
pub fn chosen(second: bool, a: u64, b: u64) -> u64
    ensures { result ≡ (if second then b else a) }
{
    if second { b } else { a }
}

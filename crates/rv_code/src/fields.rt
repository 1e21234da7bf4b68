// Fields of a word, and signed numbers of a few bits.
ghost use Rattle.std.specs.Prelude.{◌≡◌, ℕ, ◌+◌, ◌-◌, ◌*◌, ◌/◌, ◌%◌, ◌^◌, ◌<◌, ◌≤◌, IsTrue};
ghost use Rattle.isa_model.specs.Decode.{signed_of, low_of, has_bits, imm_s, imm_b, imm_j};

// `len` bits of the word, from bit `lo` on.
#[inline(always)]
pub fn field(w: u32, lo: u32, len: u32) -> u32
    requires inside { lo + len ≤ 32 }
    requires some { 1 ≤ len }
    requires proper { len < 32 }
    ensures { result ≡ w / 2 ^ lo % 2 ^ len }
{
    (w >> lo) & ((1 << len) - 1)
}

// A register's number.
#[inline(always)]
pub fn register(w: u32, lo: u32) -> u8
    requires inside { lo + 5 ≤ 32 }
    ensures { result ≡ w / 2 ^ lo % 32 }
{
    field(w, lo, 5) as u8
}

// The number whose two's complement at `bits` bits is `n`.
#[inline(always)]
pub fn signed(n: u32, bits: u32) -> i32
    requires some { 1 ≤ bits }
    requires few { bits < 32 }
    requires fits { n < 2 ^ bits }
    ensures { result ≡ signed_of bits n }
{
    if n < 1 << (bits - 1) {
        n as i32
    } else {
        -((((1u32 << bits) - 1) - n) as i32) - 1
    }
}

// The two's complement of a number at `bits` bits.
pub fn low(z: i32, bits: u32) -> u32
    requires some { 1 ≤ bits }
    requires few { bits < 32 }
    requires fits { IsTrue (has_bits bits z) }
    ensures { result ≡ low_of bits z }
{
    if z >= 0 {
        z as u32
    } else {
        ((1u32 << bits) - 1) - (-(z + 1)) as u32
    }
}

// The bits of the immediate of S, B and J, as a number.
#[inline(always)]
pub fn offset_s(w: u32) -> u32
    ensures value { result ≡ imm_s w }
    ensures below { result < 2 ^ 12 }
{
    field(w, 25, 7) * 32 + field(w, 7, 5)
}

#[inline(always)]
pub fn offset_b(w: u32) -> u32
    ensures value { result ≡ imm_b w }
    ensures below { result < 2 ^ 13 }
{
    field(w, 31, 1) * 4096 + field(w, 7, 1) * 2048 + field(w, 25, 6) * 32 + field(w, 8, 4) * 2
}

#[inline(always)]
pub fn offset_j(w: u32) -> u32
    ensures value { result ≡ imm_j w }
    ensures below { result < 2 ^ 21 }
{
    field(w, 31, 1) * 1048576
        + field(w, 12, 8) * 4096
        + field(w, 20, 1) * 2048
        + field(w, 21, 10) * 2
}

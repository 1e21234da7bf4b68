// What the instructions compute from two numbers of 64 bits.
ghost use Rattle.std.specs.Prelude.{◌≡◌, ◌<◌, ℕ, ◌+◌, ◌*◌, ◌/◌, ◌%◌, ◌^◌, IsTrue};
ghost use Rattle.std.specs.Int.{w64, cast_unsigned};
ghost use Rattle.isa_model.specs.Arith.{sra_of, computed, is_taken, load_size, load_value, store_size};

use isa_model::Op;
use mck_word::sext;

// A signed number in 64 bits.
#[inline(always)]
pub fn wide(z: i32) -> u64
    ensures { result ≡ cast_unsigned w64 z }
{
    i64::from(z).cast_unsigned()
}

#[inline(always)]
fn shift_right_signed(a: u64, k: u64) -> u64
    requires { k < 64 }
    ensures { result ≡ sra_of a k }
{
    (a.cast_signed() >> k).cast_unsigned()
}

// What an instruction computes from its two operands.
#[inline(always)]
pub fn compute(op: Op, a: u64, b: u64) -> u64
    ensures { result ≡ computed op a b }
{
    match op {
        Op::Add | Op::Addi => a.wrapping_add(b),
        Op::Sub => a.wrapping_sub(b),
        Op::Sll | Op::Slli => a << (b % 64),
        Op::Slt | Op::Slti => (a.cast_signed() < b.cast_signed()) as u64,
        Op::Sltu | Op::Sltiu => (a < b) as u64,
        Op::Xor | Op::Xori => a ^ b,
        Op::Srl | Op::Srli => a >> (b % 64),
        Op::Sra | Op::Srai => shift_right_signed(a, b % 64),
        Op::Or | Op::Ori => a | b,
        Op::And | Op::Andi => a & b,
        Op::Addw | Op::Addiw => sext(a.wrapping_add(b), 32),
        Op::Subw => sext(a.wrapping_sub(b), 32),
        Op::Sllw | Op::Slliw => sext(a << (b % 32), 32),
        Op::Srlw | Op::Srliw => sext((a & 0xffff_ffff) >> (b % 32), 32),
        Op::Sraw | Op::Sraiw => shift_right_signed(sext(a, 32), b % 32),
        _ => 0,
    }
}

// Whether a branch is taken.
#[inline(always)]
pub fn taken(op: Op, a: u64, b: u64) -> bool
    ensures { result ≡ is_taken op a b }
{
    match op {
        Op::Beq => a == b,
        Op::Bne => a != b,
        Op::Blt => a.cast_signed() < b.cast_signed(),
        Op::Bge => a.cast_signed() >= b.cast_signed(),
        Op::Bltu => a < b,
        Op::Bgeu => a >= b,
        _ => false,
    }
}

// How many bytes a load reads.
#[inline(always)]
pub fn bytes_loaded(op: Op) -> u32
    ensures { result ≡ load_size op }
{
    match op {
        Op::Lb | Op::Lbu => 1,
        Op::Lh | Op::Lhu => 2,
        Op::Lw | Op::Lwu => 4,
        _ => 8,
    }
}

// What a load puts into its register.
#[inline(always)]
pub fn extended(op: Op, v: u64) -> u64
    ensures { result ≡ load_value op v }
{
    match op {
        Op::Lb => sext(v, 8),
        Op::Lh => sext(v, 16),
        Op::Lw => sext(v, 32),
        _ => v,
    }
}

// How many bytes a store writes.
#[inline(always)]
pub fn bytes_stored(op: Op) -> u32
    ensures { result ≡ store_size op }
{
    match op {
        Op::Sb => 1,
        Op::Sh => 2,
        Op::Sw => 4,
        _ => 8,
    }
}

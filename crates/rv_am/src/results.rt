// What the instructions compute.
ghost use Rattle.std.specs.Prelude.{◌≡◌, true, false};
ghost use Rattle.isa_model.specs.Atomics.{am_result, am_size, is_atomic, old_value};

use crate::coded::AmIns;
use crate::parts::{
    chosen, divided, high_mixed, high_signed, high_unsigned, left_over, low, low_less,
};
use isa_model::AmOp;
use mck_word::sext;

/// Whether the instruction is an atomic memory operation.
#[inline(always)]
pub fn is_atomic(op: AmOp) -> bool
    ensures { result ≡ is_atomic op }
{
    match op {
        AmOp::Mul | AmOp::Mulh | AmOp::Mulhsu | AmOp::Mulhu => false,
        AmOp::Div | AmOp::Divu | AmOp::Rem | AmOp::Remu => false,
        AmOp::Mulw | AmOp::Divw | AmOp::Divuw | AmOp::Remw | AmOp::Remuw => false,
        _ => true,
    }
}

/// How many bytes an atomic operation reads and writes.
#[inline(always)]
pub fn size_of_access(op: AmOp) -> u32
    ensures { result ≡ am_size op }
{
    match op {
        AmOp::AddD | AmOp::SwapD | AmOp::XorD | AmOp::OrD | AmOp::AndD => 8,
        AmOp::MinD | AmOp::MaxD | AmOp::MinuD | AmOp::MaxuD => 8,
        _ => 4,
    }
}

/// The old value of an atomic operation as its register gets it.
#[inline(always)]
pub fn old_value(op: AmOp, v: u64) -> u64
    ensures { result ≡ old_value op v }
{
    if size_of_access(op) == 4 {
        sext(v, 32)
    } else {
        v
    }
}

// The result of a multiplication or a division, and 0 of an atomic operation.
fn multiply_or_divide(op: AmOp, a: u64, b: u64) -> u64
    ensures { is_atomic op ≡ false → result ≡ am_result op a b }
{
    match op {
        AmOp::Mul => a.wrapping_mul(b),
        AmOp::Mulh => high_signed(a, b),
        AmOp::Mulhsu => high_mixed(a, b),
        AmOp::Mulhu => high_unsigned(a, b),
        AmOp::Div => { if b == 0 { u64::MAX } else { divided(a, b) } }
        AmOp::Divu => { if b == 0 { u64::MAX } else { a / b } }
        AmOp::Rem => { if b == 0 { a } else { left_over(a, b) } }
        AmOp::Remu => { if b == 0 { a } else { a % b } }
        AmOp::Mulw => sext(a.wrapping_mul(b), 32),
        AmOp::Divw => {
            if low(b) == 0 {
                u64::MAX
            } else {
                sext(divided(sext(a, 32), sext(b, 32)), 32)
            }
        }
        AmOp::Divuw => {
            if low(b) == 0 {
                u64::MAX
            } else {
                sext(low(a) / low(b), 32)
            }
        }
        AmOp::Remw => {
            if low(b) == 0 {
                sext(a, 32)
            } else {
                sext(left_over(sext(a, 32), sext(b, 32)), 32)
            }
        }
        AmOp::Remuw => {
            if low(b) == 0 {
                sext(a, 32)
            } else {
                sext(low(a) % low(b), 32)
            }
        }
        _ => 0,
    }
}

// What an atomic operation stores, and 0 for the others.
fn combine(op: AmOp, a: u64, b: u64) -> u64
    ensures { is_atomic op ≡ true → result ≡ am_result op a b }
{
    match op {
        AmOp::AddW => low(a.wrapping_add(b)),
        AmOp::SwapW => low(b),
        AmOp::XorW => low(a) ^ low(b),
        AmOp::OrW => low(a) | low(b),
        AmOp::AndW => low(a) & low(b),
        AmOp::MinW => chosen(low_less(low(b), low(a)), low(a), low(b)),
        AmOp::MaxW => chosen(low_less(low(a), low(b)), low(a), low(b)),
        AmOp::MinuW => chosen(low(b) < low(a), low(a), low(b)),
        AmOp::MaxuW => chosen(low(a) < low(b), low(a), low(b)),
        AmOp::AddD => a.wrapping_add(b),
        AmOp::SwapD => b,
        AmOp::XorD => a ^ b,
        AmOp::OrD => a | b,
        AmOp::AndD => a & b,
        AmOp::MinD => chosen(b.cast_signed() < a.cast_signed(), a, b),
        AmOp::MaxD => chosen(a.cast_signed() < b.cast_signed(), a, b),
        AmOp::MinuD => chosen(b < a, a, b),
        AmOp::MaxuD => chosen(a < b, a, b),
        _ => 0,
    }
}

/// What an operation computes: the result of a multiplication or division of `a` by `b`; what an atomic operation stores, where `a` is
/// the old value and `b` the register's.
///
/// A quotient by zero has all bits set, and the remainder is then the dividend; the least number by -1 gives itself and leaves 0.
#[inline(always)]
pub fn result_of(op: AmOp, a: u64, b: u64) -> u64
    ensures { result ≡ am_result op a b }
{
    if is_atomic(op) {
        combine(op, a, b)
    } else {
        multiply_or_divide(op, a, b)
    }
}

/// What an instruction computes, as `result_of` its operation.
#[inline(always)]
pub fn arith(i: &AmIns, a: u64, b: u64) -> u64
    ensures { result ≡ am_result i.now.op a b }
{
    result_of(i.op, a, b)
}

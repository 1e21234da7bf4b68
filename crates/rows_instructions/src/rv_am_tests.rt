// Words and results of multiplication, division and atomic operations.
use rv_am::{
    AmOp, arith, decode, encode, instruction, is_atomic, old_value, result_of, size_of_access,
};

const LEAST: u64 = 0x8000_0000_0000_0000;

// What a word says.
fn said(w: u32) -> Option<(AmOp, u8, u8, u8, u8)> {
    match decode(w) {
        Some(i) => Some((i.op, i.rd, i.rs1, i.rs2, i.order)),
        None => None,
    }
}

// The word of these fields.
fn word(op: AmOp, rd: u8, rs1: u8, rs2: u8, order: u8) -> Option<u32> {
    match instruction(op, rd, rs1, rs2, order) {
        Some(i) => Some(encode(&i)),
        None => None,
    }
}

#[test]
fn words_and_fields(rt: HostRuntime) {
    let rows = [
        (0x02b5_0533, AmOp::Mul, 10, 10, 11, 0),
        (0x00c5_a52f, AmOp::AddW, 10, 11, 12, 0),
        (0xe6c5_b52f, AmOp::MaxuD, 10, 11, 12, 3),
        (0x0273_52bb, AmOp::Divuw, 5, 6, 7, 0),
        (0x023f_f0b3, AmOp::Remu, 1, 31, 3, 0),
    ];
    for (w, op, rd, rs1, rs2, order) in rows {
        assert_eq!(rt; said(w), Some((op, rd, rs1, rs2, order)));
        assert_eq!(rt; word(op, rd, rs1, rs2, order), Some(w));
    }
    // An add, LR.W, SC.D, an AMO of 16 bits, and words of no instruction.
    for w in [
        0x00b5_0533,
        0x1005_a52f,
        0x18c5_b52f,
        0x00c5_952f,
        0,
        0xffff_ffff,
    ] {
        assert_eq!(rt; said(w), None);
    }
    assert_eq!(rt; word(AmOp::Mul, 1, 2, 3, 1), None);
    assert_eq!(rt; word(AmOp::SwapD, 32, 2, 3, 1), None);
}

#[test]
fn multiply_and_divide(rt: HostRuntime) {
    let minus_one = u64::MAX;
    assert_eq!(rt; result_of(AmOp::Div, 7, 0), minus_one);
    assert_eq!(rt; result_of(AmOp::Rem, 7, 0), 7);
    assert_eq!(rt; result_of(AmOp::Div, LEAST, minus_one), LEAST);
    assert_eq!(rt; result_of(AmOp::Rem, LEAST, minus_one), 0);
    assert_eq!(rt;
        result_of(AmOp::Mulhu, minus_one, minus_one),
        0xffff_ffff_ffff_fffe
    );
    assert_eq!(rt; result_of(AmOp::Mulh, minus_one, minus_one), 0);
    assert_eq!(rt; result_of(AmOp::Mulh, LEAST, LEAST), 0x4000_0000_0000_0000);
    assert_eq!(rt; result_of(AmOp::Mulhsu, minus_one, minus_one), minus_one);
    assert_eq!(rt; result_of(AmOp::Div, minus_one - 6, 2), minus_one - 2);
    assert_eq!(rt; result_of(AmOp::Rem, minus_one - 6, 2), minus_one);
    assert_eq!(rt;
        result_of(AmOp::Divw, 0x8000_0000, minus_one),
        0xffff_ffff_8000_0000
    );
    assert_eq!(rt; result_of(AmOp::Remw, 0x8000_0000, minus_one), 0);
    assert_eq!(rt;
        result_of(AmOp::Remuw, 0xffff_ffff, 0x1_0000_0000),
        minus_one
    );
    assert_eq!(rt;
        result_of(AmOp::Mulw, 0x4000_0000, 2),
        0xffff_ffff_8000_0000
    );
}

#[test]
fn atomic_results(rt: HostRuntime) {
    assert_eq!(rt; result_of(AmOp::AddW, 0xffff_ffff, 1), 0);
    assert_eq!(rt; old_value(AmOp::AddW, 0xffff_ffff), u64::MAX);
    assert_eq!(rt; result_of(AmOp::MinW, 0x8000_0000, 1), 0x8000_0000);
    assert_eq!(rt; result_of(AmOp::MinuW, 0x8000_0000, 1), 1);
    assert_eq!(rt; result_of(AmOp::MaxD, LEAST, 5), 5);
    assert_eq!(rt; result_of(AmOp::MaxuD, LEAST, 5), LEAST);
    assert_eq!(rt; result_of(AmOp::SwapW, 3, 0x1_0000_0002), 2);
    assert_eq!(rt; size_of_access(AmOp::XorD), 8);
    assert!(rt; is_atomic(AmOp::AndW) && !is_atomic(AmOp::Rem));
    match decode(0x02b5_0533) {
        Some(i) => assert_eq!(rt; arith(&i, 6, 7), 42),
        None => assert!(rt; false),
    }
}

// Words of RV64I.
use rv_code::{Form, Op, decode, encode, instruction};

// What a word says.
fn said(w: u32) -> Option<Form> {
    match decode(w) {
        Some(i) => Some(i.form),
        None => None,
    }
}

// The word of a form.
fn word(form: Form) -> Option<u32> {
    match instruction(form) {
        Some(i) => Some(encode(&i)),
        None => None,
    }
}

fn i(op: Op, rd: u8, rs1: u8, imm: i32) -> Form {
    Form::I { op, rd, rs1, imm }
}

#[test]
fn words_and_forms(rt: HostRuntime) {
    let pairs = [
        (0x0070_0513, i(Op::Addi, 10, 0, 7)),
        (0x05d0_0893, i(Op::Addi, 17, 0, 93)),
        (0x0000_0073, i(Op::Ecall, 0, 0, 0)),
        (
            0x0000_0597,
            Form::U {
                op: Op::Auipc,
                rd: 11,
                imm: 0,
            },
        ),
        (0x0205_8593, i(Op::Addi, 11, 11, 32)),
        (0x0060_0067, i(Op::Jalr, 0, 0, 6)),
        (0x0010_0073, i(Op::Ebreak, 0, 0, 1)),
        (
            0x0000_006f,
            Form::J {
                op: Op::Jal,
                rd: 0,
                imm: 0,
            },
        ),
        (
            0xfe20_9ee3,
            Form::B {
                op: Op::Bne,
                rs1: 1,
                rs2: 2,
                imm: -4,
            },
        ),
        (
            0xfe11_3c23,
            Form::S {
                op: Op::Sd,
                rs1: 2,
                rs2: 1,
                imm: -8,
            },
        ),
        (0x41f5_5513, i(Op::Srai, 10, 10, 31)),
        (0x0ff0_000f, i(Op::Fence, 0, 0, 255)),
    ];
    for (w, form) in pairs {
        assert_eq!(rt; said(w), Some(form));
        assert_eq!(rt; word(form), Some(w));
    }
}

#[test]
fn no_instructions(rt: HostRuntime) {
    for w in [
        0,
        0xffff_ffff,
        0x02b5_0533,
        0x00c5_a52f,
        0x1005_a52f,
        0x0000_0001,
        0x0000_00f3,
    ] {
        assert_eq!(rt; said(w), None);
    }
    assert_eq!(rt; word(i(Op::Addi, 1, 1, 2048)), None);
    assert_eq!(rt; word(i(Op::Add, 1, 1, 0)), None);
}

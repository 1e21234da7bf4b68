// The table of the instructions, in the order of their names.
use isa_model::AmOp;

/// An instruction: its opcode, its `funct3`, and above them its `funct7`, or the five bits at the top of an atomic one.
#[derive(Clone, Copy, Debug)]
pub struct Row {
    pub op: AmOp,
    pub opcode: u32,
    pub funct3: u32,
    pub top: u32,
}

/// The rows of the 31 instructions.
pub static TABLE: [Row; 31] = [
    Row {
        op: AmOp::Mul,
        opcode: 0x33,
        funct3: 0,
        top: 0x1,
    },
    Row {
        op: AmOp::Mulh,
        opcode: 0x33,
        funct3: 1,
        top: 0x1,
    },
    Row {
        op: AmOp::Mulhsu,
        opcode: 0x33,
        funct3: 2,
        top: 0x1,
    },
    Row {
        op: AmOp::Mulhu,
        opcode: 0x33,
        funct3: 3,
        top: 0x1,
    },
    Row {
        op: AmOp::Div,
        opcode: 0x33,
        funct3: 4,
        top: 0x1,
    },
    Row {
        op: AmOp::Divu,
        opcode: 0x33,
        funct3: 5,
        top: 0x1,
    },
    Row {
        op: AmOp::Rem,
        opcode: 0x33,
        funct3: 6,
        top: 0x1,
    },
    Row {
        op: AmOp::Remu,
        opcode: 0x33,
        funct3: 7,
        top: 0x1,
    },
    Row {
        op: AmOp::Mulw,
        opcode: 0x3b,
        funct3: 0,
        top: 0x1,
    },
    Row {
        op: AmOp::Divw,
        opcode: 0x3b,
        funct3: 4,
        top: 0x1,
    },
    Row {
        op: AmOp::Divuw,
        opcode: 0x3b,
        funct3: 5,
        top: 0x1,
    },
    Row {
        op: AmOp::Remw,
        opcode: 0x3b,
        funct3: 6,
        top: 0x1,
    },
    Row {
        op: AmOp::Remuw,
        opcode: 0x3b,
        funct3: 7,
        top: 0x1,
    },
    Row {
        op: AmOp::AddW,
        opcode: 0x2f,
        funct3: 2,
        top: 0x0,
    },
    Row {
        op: AmOp::SwapW,
        opcode: 0x2f,
        funct3: 2,
        top: 0x1,
    },
    Row {
        op: AmOp::XorW,
        opcode: 0x2f,
        funct3: 2,
        top: 0x4,
    },
    Row {
        op: AmOp::OrW,
        opcode: 0x2f,
        funct3: 2,
        top: 0x8,
    },
    Row {
        op: AmOp::AndW,
        opcode: 0x2f,
        funct3: 2,
        top: 0xc,
    },
    Row {
        op: AmOp::MinW,
        opcode: 0x2f,
        funct3: 2,
        top: 0x10,
    },
    Row {
        op: AmOp::MaxW,
        opcode: 0x2f,
        funct3: 2,
        top: 0x14,
    },
    Row {
        op: AmOp::MinuW,
        opcode: 0x2f,
        funct3: 2,
        top: 0x18,
    },
    Row {
        op: AmOp::MaxuW,
        opcode: 0x2f,
        funct3: 2,
        top: 0x1c,
    },
    Row {
        op: AmOp::AddD,
        opcode: 0x2f,
        funct3: 3,
        top: 0x0,
    },
    Row {
        op: AmOp::SwapD,
        opcode: 0x2f,
        funct3: 3,
        top: 0x1,
    },
    Row {
        op: AmOp::XorD,
        opcode: 0x2f,
        funct3: 3,
        top: 0x4,
    },
    Row {
        op: AmOp::OrD,
        opcode: 0x2f,
        funct3: 3,
        top: 0x8,
    },
    Row {
        op: AmOp::AndD,
        opcode: 0x2f,
        funct3: 3,
        top: 0xc,
    },
    Row {
        op: AmOp::MinD,
        opcode: 0x2f,
        funct3: 3,
        top: 0x10,
    },
    Row {
        op: AmOp::MaxD,
        opcode: 0x2f,
        funct3: 3,
        top: 0x14,
    },
    Row {
        op: AmOp::MinuD,
        opcode: 0x2f,
        funct3: 3,
        top: 0x18,
    },
    Row {
        op: AmOp::MaxuD,
        opcode: 0x2f,
        funct3: 3,
        top: 0x1c,
    },
];

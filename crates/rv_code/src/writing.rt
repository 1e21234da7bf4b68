// Instructions to words.
ghost use Rattle.std.specs.Prelude.{◌≡◌, ℕ, ◌+◌, ◌-◌, ◌*◌, ◌/◌, ◌%◌, ◌^◌, ◌<◌, ◌≤◌, Some, IsTrue};
ghost use Rattle.isa_model.specs.Decode.{decoded, joined, is_code, word_of, above_in};
ghost use Rattle.isa_model.specs.Table.{row_of};
ghost use Rattle.isa_model.specs.declared.forms.Form.{Form};

use crate::coded::Ins;
use crate::fields::low;
use crate::table::TABLE;
use isa_model::shapes::{Row, Shape};
use isa_model::{Form, Op};

// The row of a name.
pub fn row_at(op: Op) -> Row
    ensures { result ≡ row_of op }
{
    TABLE[op as usize]
}

// The word with these five parts, from the lowest on.
fn join(opcode: u32, rd: u32, funct3: u32, rs1: u32, above: u32) -> u32
    requires opcode_fits { opcode < 128 }
    requires rd_fits { rd < 32 }
    requires funct3_fits { funct3 < 8 }
    requires rs1_fits { rs1 < 32 }
    requires above_fits { above < 4096 }
    ensures { result ≡ joined opcode rd funct3 rs1 above }
{
    opcode + (rd << 7) + (funct3 << 12) + (rs1 << 15) + (above << 20)
}

// What stands above `rs1` in the word of a shift or another instruction with an immediate of 12 bits.
fn above_rs1(shape: Shape, top: u32, n: u32) -> u32
    requires top_fits { top < 4096 }
    requires n_fits { n < 4096 }
    ensures { result ≡ above_in shape top n }
{
    match shape {
        Shape::Shift6 => n + top * 64,
        Shape::Shift5 => n + top * 32,
        _ => n,
    }
}

// The words of an instruction in each format.
fn word_r(op: Op, rd: u8, rs1: u8, rs2: u8) -> u32
    requires { IsTrue (is_code (Form.R op rd rs1 rs2)) }
    ensures { result ≡ word_of (Form.R op rd rs1 rs2) }
{
    let row = row_at(op);
    let above = rs2 as u32 + row.top * 32;
    join(row.opcode, rd as u32, row.funct3, rs1 as u32, above)
}

fn word_i(op: Op, rd: u8, rs1: u8, imm: i32) -> u32
    requires { IsTrue (is_code (Form.I op rd rs1 imm)) }
    ensures { result ≡ word_of (Form.I op rd rs1 imm) }
{
    let row = row_at(op);
    let above = above_rs1(row.shape, row.top, low(imm, 12));
    join(row.opcode, rd as u32, row.funct3, rs1 as u32, above)
}

fn word_s(op: Op, rs1: u8, rs2: u8, imm: i32) -> u32
    requires { IsTrue (is_code (Form.S op rs1 rs2 imm)) }
    ensures { result ≡ word_of (Form.S op rs1 rs2 imm) }
{
    let row = row_at(op);
    let v = low(imm, 12);
    let above = rs2 as u32 + v / 32 * 32;
    join(row.opcode, v % 32, row.funct3, rs1 as u32, above)
}

fn word_b(op: Op, rs1: u8, rs2: u8, imm: i32) -> u32
    requires { IsTrue (is_code (Form.B op rs1 rs2 imm)) }
    ensures { result ≡ word_of (Form.B op rs1 rs2 imm) }
{
    let row = row_at(op);
    let v = low(imm, 13);
    let below = v / 2048 % 2 + v / 2 % 16 * 2;
    let above = rs2 as u32 + v / 32 % 64 * 32 + v / 4096 * 2048;
    join(row.opcode, below, row.funct3, rs1 as u32, above)
}

fn word_u(op: Op, rd: u8, imm: u32) -> u32
    requires { IsTrue (is_code (Form.U op rd imm)) }
    ensures { result ≡ word_of (Form.U op rd imm) }
{
    let row = row_at(op);
    row.opcode + rd as u32 * 128 + imm * 4096
}

fn word_j(op: Op, rd: u8, imm: i32) -> u32
    requires { IsTrue (is_code (Form.J op rd imm)) }
    ensures { result ≡ word_of (Form.J op rd imm) }
{
    let row = row_at(op);
    let v = low(imm, 21);
    row.opcode
        + rd as u32 * 128
        + v / 4096 % 256 * 4096
        + v / 2048 % 2 * 1048576
        + v / 2 % 1024 * 2097152
        + v / 1048576 * 2147483648
}

fn word(form: &Form) -> u32
    requires { IsTrue (is_code form.now) }
    ensures { result ≡ word_of form.now }
{
    match *form {
        Form::R { op, rd, rs1, rs2 } => word_r(op, rd, rs1, rs2),
        Form::I { op, rd, rs1, imm } => word_i(op, rd, rs1, imm),
        Form::S { op, rs1, rs2, imm } => word_s(op, rs1, rs2, imm),
        Form::B { op, rs1, rs2, imm } => word_b(op, rs1, rs2, imm),
        Form::U { op, rd, imm } => word_u(op, rd, imm),
        Form::J { op, rd, imm } => word_j(op, rd, imm),
    }
}

/// The word of an instruction.
pub fn encode(i: &Ins) -> u32
    // It decodes to the instruction.
    ensures back { decoded result ≡ Some i.now.form }
    // No other word does.
    ensures only { (w : ℕ) → w < 2 ^ 32 → decoded w ≡ Some i.now.form → w ≡ result }
{
    word(&i.form)
}

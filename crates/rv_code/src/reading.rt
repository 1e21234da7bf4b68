// Words to instructions.
ghost use Rattle.std.specs.Prelude.{◌≡◌, ◌+◌, ◌*◌, ◌/◌, ◌%◌, ◌^◌, option_map, length, IfSome};
ghost use Rattle.std.specs.List.{find};
ghost use Rattle.isa_model.specs.Decode.{decoded, fits, read, AreRegisters};
ghost use Rattle.isa_model.specs.Table.{table};
ghost use Rattle.rv_code.specs.Slots.{slot_of, row_in};

use crate::coded::Ins;
use crate::fields::{field, offset_b, offset_j, offset_s, register, signed};
use crate::slots::SLOTS;
use crate::table::TABLE;
use isa_model::shapes::{Row, Shape};
use isa_model::{Form, Op};

// The word has the row's fixed bits.
#[inline(always)]
fn has_fixed(row: &Row, w: u32) -> bool
    ensures { result ≡ fits row.now w }
{
    let funct3 = field(w, 12, 3);
    field(w, 0, 7) == row.opcode
        && match row.shape {
            Shape::R => funct3 == row.funct3 && field(w, 25, 7) == row.top,
            Shape::I => funct3 == row.funct3,
            Shape::Shift6 => funct3 == row.funct3 && field(w, 26, 6) == row.top,
            Shape::Shift5 => funct3 == row.funct3 && field(w, 25, 7) == row.top,
            Shape::S => funct3 == row.funct3,
            Shape::B => funct3 == row.funct3,
            Shape::U => true,
            Shape::J => true,
            Shape::Whole => field(w, 7, 13) == 0 && field(w, 20, 12) == row.top,
        }
}

// What the word says in a shape.
#[inline(always)]
fn read_as(shape: Shape, op: Op, w: u32) -> Form
    ensures { result ≡ read shape op w }
{
    let rd = register(w, 7);
    let rs1 = register(w, 15);
    let rs2 = register(w, 20);
    match shape {
        Shape::R => Form::R { op, rd, rs1, rs2 },
        Shape::I | Shape::Whole => Form::I {
            op,
            rd,
            rs1,
            imm: signed(field(w, 20, 12), 12),
        },
        Shape::Shift6 => Form::I {
            op,
            rd,
            rs1,
            imm: field(w, 20, 6) as i32,
        },
        Shape::Shift5 => Form::I {
            op,
            rd,
            rs1,
            imm: field(w, 20, 5) as i32,
        },
        Shape::S => Form::S {
            op,
            rs1,
            rs2,
            imm: signed(offset_s(w), 12),
        },
        Shape::B => Form::B {
            op,
            rs1,
            rs2,
            imm: signed(offset_b(w), 13),
        },
        Shape::U => Form::U {
            op,
            rd,
            imm: field(w, 12, 20),
        },
        Shape::J => Form::J {
            op,
            rd,
            imm: signed(offset_j(w), 21),
        },
    }
}

// The word's place among the slots.
#[inline(always)]
fn slot_number(w: u32) -> u32
    ensures { result ≡ slot_of w }
{
    field(w, 2, 5) * 32 + field(w, 12, 3) * 4 + field(w, 30, 1) * 2 + field(w, 20, 1)
}

// The row that the word's slot names, if the word has its fixed bits.
#[inline(always)]
fn row_in_slot(slots: &[u8], rows: &[Row], w: u32) -> Option<Row>
    requires { length slots.now ≡ 1024 }
    ensures { result ≡ row_in slots.now rows.now w }
{
    match rows.get(slots[slot_number(w) as usize] as usize) {
        Some(row) => { if has_fixed(row, w) { Some(*row) } else { None } }
        None => None,
    }
}

// The first row whose fixed bits the word has.
#[inline(always)]
fn row_for(w: u32) -> Option<Row>
    ensures { result ≡ find (λ row. fits row w) table }
{
    row_in_slot(&SLOTS, &TABLE, w)
}

/// The instruction that the word is. None exactly where it is none of the 52.
#[inline(always)]
pub fn decode(w: u32) -> Option<Ins>
    ensures decoded { option_map (λ i. i.form) result ≡ decoded w }
    // Its registers are registers.
    ensures registers { IfSome result (λ i. AreRegisters i.form) }
{
    match row_for(w) {
        Some(row) => Some(Ins {
            form: read_as(row.shape, row.op, w),
        }),
        None => None,
    }
}

// Forms that are instructions, and the laws of words and forms.
ghost use Rattle.std.specs.Prelude.{◌≡◌, ℕ, ◌^◌, ◌<◌, option_map, Some, None, IsTrue, ◌↔◌, if◌then◌else◌};
ghost use Rattle.isa_model.specs.Decode.{decoded, fits, is_code, fills_i};
ghost use Rattle.isa_model.specs.Table.{row_of};
ghost use Rattle.isa_model.specs.declared.forms.Form.{Form};
ghost use Rattle.isa_model.specs.declared.names.Op.{Op};

use crate::coded::Ins;
use crate::writing::row_at;
use isa_model::Form;
use isa_model::shapes::{Row, Shape};

// What stands in I's fields fits its place.
fn fills_fields_of_i(row: &Row, rd: u8, rs1: u8, imm: i32) -> bool
    ensures { result ≡ fills_i row.now row.now.shape rd rs1 imm }
{
    match row.shape {
        Shape::I => rd < 32 && rs1 < 32 && -2048 <= imm && imm < 2048,
        Shape::Shift6 => rd < 32 && rs1 < 32 && 0 <= imm && imm < 64,
        Shape::Shift5 => rd < 32 && rs1 < 32 && 0 <= imm && imm < 32,
        Shape::Whole => rd == 0 && rs1 == 0 && 0 <= imm && imm as u32 == row.top,
        _ => false,
    }
}

// Whether a form is an instruction.
#[tactic(auto, unfolding(isa_model::specs::Decode::is_code))]
fn is_instruction(form: &Form) -> bool
    ensures { result ≡ is_code form.now }
{
    let row = row_at(form.op());
    match *form {
        Form::R { rd, rs1, rs2, .. } => {
            matches!(row.shape, Shape::R) && rd < 32 && rs1 < 32 && rs2 < 32
        }
        Form::I { rd, rs1, imm, .. } => fills_fields_of_i(&row, rd, rs1, imm),
        Form::S { rs1, rs2, imm, .. } => {
            matches!(row.shape, Shape::S) && rs1 < 32 && rs2 < 32 && -2048 <= imm && imm < 2048
        }
        Form::B { rs1, rs2, imm, .. } => {
            matches!(row.shape, Shape::B)
                && rs1 < 32
                && rs2 < 32
                && -4096 <= imm
                && imm < 4096
                && imm.cast_unsigned() % 2 == 0
        }
        Form::U { rd, imm, .. } => matches!(row.shape, Shape::U) && rd < 32 && imm < 1 << 20,
        Form::J { rd, imm, .. } => {
            matches!(row.shape, Shape::J)
                && rd < 32
                && -1048576 <= imm
                && imm < 1048576
                && imm.cast_unsigned() % 2 == 0
        }
    }
}

/// The instruction that a form is. None exactly where its fields don't fit the instruction's row, so that no word says it.
pub fn instruction(form: Form) -> Option<Ins>
    ensures { option_map (λ i. i.form) result
        ≡ (if is_code form then Some form else None) }
{
    if is_instruction(&form) {
        Some(Ins { form })
    } else {
        None
    }
}

/// A form is an instruction exactly where some word decodes to it.
pub fn code_means()
    ensures { (form : Form) → IsTrue (is_code form)
        ↔ ((w : ℕ) × (w < 2 ^ 32) × (decoded w ≡ Some form)) }
{}

/// No word has the fixed bits of two instructions.
pub fn one_row()
    ensures { (a b : Op) (w : ℕ) → IsTrue (fits (row_of a) w) → IsTrue (fits (row_of b) w) → a ≡ b }
{}

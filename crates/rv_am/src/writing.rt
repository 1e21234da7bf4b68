// Instructions to words, and the laws of both.
ghost use Rattle.std.specs.Prelude.{◌≡◌, ℕ, ◌+◌, ◌*◌, ◌^◌, ◌<◌, Some, None, option_map, IsTrue, ◌↔◌, if◌then◌else◌};
ghost use Rattle.isa_model.specs.Atomics.{am_decoded};
ghost use Rattle.isa_model.specs.declared.atomics.AmOp.{AmOp};
ghost use Rattle.rv_am.specs.Words.{above, am, as_row, is_am_code, row_of, word_of};

use crate::coded::AmIns;
use crate::results::is_atomic;
use crate::table::{Row, TABLE};
use isa_model::AmOp;

// The row of a name.
fn row_at(op: AmOp) -> Row
    ensures { as_row result ≡ row_of op }
{
    TABLE[op as usize]
}

// The seven bits at the top of a word.
fn above_rs2(row: &Row, order: u8) -> u32
    requires top_fits { row.now.top < 32 }
    requires order_fits { order < 4 }
    ensures value { result ≡ above (as_row row.now) order }
    ensures below { result < 128 }
{
    if row.opcode == 0x2f {
        order as u32 + row.top * 4
    } else {
        row.top
    }
}

// The word of an instruction.
fn word(i: &AmIns) -> u32
    ensures { result ≡ word_of (am i.now.op i.now.rd i.now.rs1 i.now.rs2 i.now.order) }
{
    let row = row_at(i.op);
    row.opcode
        + i.rd as u32 * 128
        + row.funct3 * 4096
        + i.rs1 as u32 * 32768
        + i.rs2 as u32 * 1048576
        + above_rs2(&row, i.order) * 33554432
}

/// The word of an instruction.
pub fn encode(i: &AmIns) -> u32
    // It decodes to the instruction.
    ensures back { am_decoded result ≡ Some (am i.now.op i.now.rd i.now.rs1 i.now.rs2 i.now.order) }
    // No other word does.
    ensures only { (w : ℕ) → w < 2 ^ 32 → am_decoded w ≡ Some (am i.now.op i.now.rd i.now.rs1 i.now.rs2 i.now.order) → w ≡ result }
{
    word(i)
}

// Whether the fields are an instruction's.
#[tactic(auto, unfolding(crate::specs::Words::is_am_code))]
fn is_instruction(op: AmOp, rd: u8, rs1: u8, rs2: u8, order: u8) -> bool
    ensures { result ≡ is_am_code (am op rd rs1 rs2 order) }
{
    rd < 32 && rs1 < 32 && rs2 < 32 && if is_atomic(op) { order < 4 } else { order == 0 }
}

/// The instruction of these fields. None exactly where no word says it.
pub fn instruction(op: AmOp, rd: u8, rs1: u8, rs2: u8, order: u8) -> Option<AmIns>
    ensures { option_map (λ i. am i.op i.rd i.rs1 i.rs2 i.order) result
        ≡ (if is_am_code (am op rd rs1 rs2 order) then Some (am op rd rs1 rs2 order) else None) }
{
    if is_instruction(op, rd, rs1, rs2, order) {
        Some(AmIns {
            op,
            rd,
            rs1,
            rs2,
            order,
        })
    } else {
        None
    }
}

/// Fields are an instruction's exactly where some word decodes to them.
pub fn code_means()
    ensures { (op : AmOp) (rd rs1 rs2 order : ℕ) → IsTrue (is_am_code (am op rd rs1 rs2 order))
        ↔ ((w : ℕ) × (w < 2 ^ 32) × (am_decoded w ≡ Some (am op rd rs1 rs2 order))) }
{}

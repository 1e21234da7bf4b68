// Words to instructions.
ghost use Rattle.std.specs.Prelude.{◌≡◌, ◌+◌, ◌*◌, ◌/◌, ◌%◌, ◌^◌, ◌<◌, ◌≤◌, option_map, length, IfSome, ◌==◌, if◌then◌else◌};
ghost use Rattle.std.specs.List.{find};
ghost use Rattle.isa_model.specs.Atomics.{am_decoded, am_fits, am_table};
ghost use Rattle.rv_am.specs.Words.{am, as_row, slot_of, row_in};

use crate::coded::AmIns;
use crate::slots::SLOTS;
use crate::table::{Row, TABLE};

// `len` bits of the word, from bit `lo` on.
#[inline(always)]
fn field(w: u32, lo: u32, len: u32) -> u32
    requires inside { lo + len ≤ 32 }
    requires some { 1 ≤ len }
    requires proper { len < 32 }
    ensures value { result ≡ w / 2 ^ lo % 2 ^ len }
    ensures below { result < 2 ^ len }
{
    (w >> lo) & ((1 << len) - 1)
}

// A register's number.
#[inline(always)]
fn register(w: u32, lo: u32) -> u8
    requires inside { lo + 5 ≤ 32 }
    ensures value { result ≡ w / 2 ^ lo % 2 ^ 5 }
    ensures below { result < 32 }
{
    field(w, lo, 5) as u8
}

// The word has the row's fixed bits.
#[inline(always)]
fn has_fixed(row: &Row, w: u32) -> bool
    ensures { result ≡ am_fits w (as_row row.now) }
{
    let top = if row.opcode == 0x2f {
        field(w, 27, 5)
    } else {
        field(w, 25, 7)
    };
    field(w, 0, 7) == row.opcode && field(w, 12, 3) == row.funct3 && top == row.top
}

// The word's place among the slots.
#[inline(always)]
fn slot_number(w: u32) -> u32
    ensures { result ≡ slot_of w }
{
    field(w, 3, 2) * 256 + field(w, 12, 3) * 32 + field(w, 27, 5)
}

// The row that the word's slot names, if the word has its fixed bits.
#[inline(always)]
fn row_in_slot(slots: &[u8], rows: &[Row], w: u32) -> Option<Row>
    requires { length slots.now ≡ 1024 }
    ensures { result ≡ row_in slots.now rows.now w }
{
    match rows.get(slots[slot_number(w) as usize] as usize) {
        Some(row) => { if has_fixed(row, w) { Some(*row) } else { None } }
        None => None,
    }
}

// The first row whose fixed bits the word has.
#[inline(always)]
fn row_for(w: u32) -> Option<Row>
    ensures { option_map as_row result ≡ find (am_fits w) am_table }
{
    row_in_slot(&SLOTS, &TABLE, w)
}

// Bits 25 and 26 of an atomic word.
#[inline(always)]
fn order_in(row: &Row, w: u32) -> u8
    ensures { result ≡ (if row.now.opcode == 0x2f then w / 2 ^ 25 % 2 ^ 2 else 0) }
{
    if row.opcode == 0x2f {
        field(w, 25, 2) as u8
    } else {
        0
    }
}

/// The instruction that the word is. None exactly where it is none of the 31; LR and SC are none of them.
#[inline(always)]
pub fn decode(w: u32) -> Option<AmIns>
    ensures decoded { option_map (λ i. am i.op i.rd i.rs1 i.rs2 i.order) result ≡ am_decoded w }
    // Its registers are registers.
    ensures registers { IfSome result (λ i. (i.rd < 32) × (i.rs1 < 32) × (i.rs2 < 32)) }
{
    match row_for(w) {
        Some(row) => Some(AmIns {
            op: row.op,
            rd: register(w, 7),
            rs1: register(w, 15),
            rs2: register(w, 20),
            order: order_in(&row, w),
        }),
        None => None,
    }
}

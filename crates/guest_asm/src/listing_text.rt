// The text of words.
ghost use Rattle.std.specs.Prelude.{◌≡◌, ◌++◌, ◌∷◌, [], OnOk, IfOk, Ok, decimal};
ghost use Rattle.std.specs.Fmt.{signed_decimal};
ghost use Rattle.guest_asm.specs.Assembly.{words_of};
ghost use Rattle.guest_asm.specs.Names.{name_of};
ghost use Rattle.guest_asm.specs.Listing.{register_text, place_text, i_text, form_text, number_text, listed_form, line_of, listing_of, two, three};

use crate::layout::Layout;
use crate::names::{layout_of, name_of};
use itoa::Buffer;
use mck_word::{Bytes, NoMemory};
use rv_code::{Form, Op, decode};
use std::alloc::Global;

const FULL_FENCE: u32 = 0x0ff0_000f;

fn add_decimal(text: &mut Bytes, n: u32) -> Result<(), NoMemory>
    ensures { OnOk result (text.new ≡ text.old ++ decimal n) }
{
    let mut buffer = Buffer::new();
    text.add(buffer.format(n).as_bytes())
}

fn add_number(text: &mut Bytes, z: i32) -> Result<(), NoMemory>
    ensures { OnOk result (text.new ≡ text.old ++ signed_decimal z) }
{
    let mut buffer = Buffer::new();
    text.add(buffer.format(z).as_bytes())
}

fn add_register(text: &mut Bytes, register: u8) -> Result<(), NoMemory>
    ensures { OnOk result (text.new ≡ text.old ++ register_text register) }
{
    text.push(b'x')?;
    add_decimal(text, u32::from(register))
}

fn add_name(text: &mut Bytes, op: Op) -> Result<(), NoMemory>
    ensures { OnOk result (text.new ≡ text.old ++ name_of op ++ 32 ∷ []) }
{
    text.add(name_of(op))?;
    text.push(b' ')
}

// A register and a comma.
fn add_operand(text: &mut Bytes, register: u8) -> Result<(), NoMemory>
    ensures { OnOk result (text.new ≡ text.old ++ register_text register ++ 44 ∷ []) }
{
    add_register(text, register)?;
    text.push(b',')
}

fn add_place(text: &mut Bytes, offset: i32, base: u8) -> Result<(), NoMemory>
    ensures { OnOk result (text.new ≡ text.old ++ place_text offset base) }
{
    add_number(text, offset)?;
    text.push(b'(')?;
    add_register(text, base)?;
    text.push(b')')
}

fn add_i(text: &mut Bytes, op: Op, rd: u8, rs1: u8, imm: i32) -> Result<(), NoMemory>
    ensures { OnOk result (text.new ≡ text.old ++ form_text (Form.I op rd rs1 imm)) }
{
    match layout_of(op) {
        Layout::Alone => text.add(name_of(op)),
        Layout::Place => {
            add_name(text, op)?;
            add_operand(text, rd)?;
            add_place(text, imm, rs1)
        }
        _ => {
            add_name(text, op)?;
            add_operand(text, rd)?;
            add_operand(text, rs1)?;
            add_number(text, imm)
        }
    }
}

fn add_r(text: &mut Bytes, op: Op, rd: u8, rs1: u8, rs2: u8) -> Result<(), NoMemory>
    ensures { OnOk result (text.new ≡ text.old ++ form_text (Form.R op rd rs1 rs2)) }
{
    add_name(text, op)?;
    add_operand(text, rd)?;
    add_operand(text, rs1)?;
    add_register(text, rs2)
}

fn add_s(text: &mut Bytes, op: Op, rs1: u8, rs2: u8, imm: i32) -> Result<(), NoMemory>
    ensures { OnOk result (text.new ≡ text.old ++ form_text (Form.S op rs1 rs2 imm)) }
{
    add_name(text, op)?;
    add_operand(text, rs2)?;
    add_place(text, imm, rs1)
}

fn add_b(text: &mut Bytes, op: Op, rs1: u8, rs2: u8, imm: i32) -> Result<(), NoMemory>
    ensures { OnOk result (text.new ≡ text.old ++ form_text (Form.B op rs1 rs2 imm)) }
{
    add_name(text, op)?;
    add_operand(text, rs1)?;
    add_operand(text, rs2)?;
    add_number(text, imm)
}

fn add_u(text: &mut Bytes, op: Op, rd: u8, imm: u32) -> Result<(), NoMemory>
    ensures { OnOk result (text.new ≡ text.old ++ form_text (Form.U op rd imm)) }
{
    add_name(text, op)?;
    add_operand(text, rd)?;
    add_decimal(text, imm)
}

fn add_j(text: &mut Bytes, op: Op, rd: u8, imm: i32) -> Result<(), NoMemory>
    ensures { OnOk result (text.new ≡ text.old ++ form_text (Form.J op rd imm)) }
{
    add_name(text, op)?;
    add_operand(text, rd)?;
    add_number(text, imm)
}

fn add_data(text: &mut Bytes, word: u32) -> Result<(), NoMemory>
    ensures { OnOk result (text.new ≡ text.old ++ number_text word) }
{
    text.add(b".word ")?;
    add_decimal(text, word)
}

fn add_form(text: &mut Bytes, word: u32, form: &Form) -> Result<(), NoMemory>
    ensures { OnOk result (text.new ≡ text.old ++ listed_form word form.now) }
{
    match *form {
        Form::I { op: Op::Fence, .. } if word != FULL_FENCE => add_data(text, word),
        Form::I { op, rd, rs1, imm } => add_i(text, op, rd, rs1, imm),
        Form::R { op, rd, rs1, rs2 } => add_r(text, op, rd, rs1, rs2),
        Form::S { op, rs1, rs2, imm } => add_s(text, op, rs1, rs2, imm),
        Form::B { op, rs1, rs2, imm } => add_b(text, op, rs1, rs2, imm),
        Form::U { op, rd, imm } => add_u(text, op, rd, imm),
        Form::J { op, rd, imm } => add_j(text, op, rd, imm),
    }
}

// The line of a word, without its line feed.
#[tactic(auto, unfolding(crate::specs::Listing::line_of))]
fn add_line(text: &mut Bytes, word: u32) -> Result<(), NoMemory>
    ensures { OnOk result (text.new ≡ text.old ++ line_of word) }
{
    match decode(word) {
        Some(ins) => add_form(text, word, &ins.form),
        None => add_data(text, word),
    }
}

/// The text of words, a line for each: an instruction with x names, decimal numbers and offsets for labels, or `.word` and the
/// number of what is none.
pub fn listing(alloc: Global, words: &[u32]) -> Result<Bytes, NoMemory>
    ensures value { IfOk result (λ text. text ≡ listing_of words.now) }

    // The text assembles to the same words.
    ensures again { IfOk result (λ text. words_of text ≡ Ok words.now) }
{
    let mut text = Bytes::new(alloc);
    for word in words {
        add_line(&mut text, *word)?;
        text.push(b'\n')?;
    }
    Ok(text)
}

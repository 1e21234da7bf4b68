// The word that a line says.
ghost use Rattle.std.specs.Prelude.{◌≡◌, ◌≤◌, ◌<◌, ◌^◌, ◌++◌, ◌∷◌, List, ℕ, Some, None, IfSome, IfNone, option_map};
ghost use Rattle.isa_model.specs.Decode.{is_code};
ghost use Rattle.guest_asm.specs.Labels.{marks_in};
ghost use Rattle.guest_asm.specs.Numbers.{immediate_of};
ghost use Rattle.guest_asm.specs.Lines.{cut, label_target, number_target, target_of, defined_in, offset_to, in_brackets, place_of, registers_form, immediate_form, place_form, store_form, branch_form, upper_form, jump_form, form_in, alone_form, coded, number_word, with_operands, without_operands, word_in, is_new, said};

use crate::labels::{Labels, before_last, defined_in, is_label, is_silent};
use crate::layout::Layout;
use crate::names::{layout_of, named, register_of};
use crate::numbers::{MOST_IMMEDIATE, Number, immediate_of, literal_of, natural_of};
use rv_code::{Form, Op, encode, instruction};

// The text before the first such byte, and what stands behind it.
fn cut(text: &[u8], at: u8) -> Option<(&[u8], &[u8])>
    ensures { option_map (λ p. (p.0.now, p.1.now)) result ≡ cut at text.now }
{
    let mut done = 0;
    while done < text.len() {
        if text[done] == at {
            let (front, rest) = text.split_at(done);
            let (_, behind) = rest.split_at(1);
            return Some((front, behind));
        }
        done += 1;
    }
    None
}

// How far a place lies from here, in bytes, if it is near enough for an instruction.
fn offset_to(here: u64, place: u64) -> Option<i32>
    ensures { result ≡ immediate_of (offset_to here place) }
{
    let words = here.abs_diff(place);
    if MOST_IMMEDIATE / 4 < words {
        return None;
    }
    immediate_of(Number {
        negative: place < here,
        size: 4 * words,
    })
}

fn number_target(text: &[u8]) -> Option<i32>
    ensures { result ≡ number_target text.now }
{
    let number = literal_of(text)?;
    immediate_of(number)
}

fn label_target(labels: &Labels, here: u64, text: &[u8]) -> Option<i32>
    ensures { result ≡ label_target (marks_in labels.now) here text.now }
{
    let mark = labels.mark(text)?;
    offset_to(here, mark.place)
}

// A label or an offset.
fn target_of(labels: &Labels, here: u64, text: &[u8]) -> Option<i32>
    ensures { result ≡ target_of (marks_in labels.now) here text.now }
{
    if is_label(text) {
        label_target(labels, here, text)
    } else {
        number_target(text)
    }
}

fn in_brackets(text: &[u8]) -> Option<u8>
    ensures { result ≡ in_brackets text.now }
{
    let name = before_last(text, b')')?;
    register_of(name)
}

// A place in memory, as 8(sp).
fn place_of(text: &[u8]) -> Option<(i32, u8)>
    ensures { result ≡ place_of text.now }
{
    let (number, base) = cut(text, b'(')?;
    let number = literal_of(number)?;
    let offset = immediate_of(number)?;
    let base = in_brackets(base)?;
    Some((offset, base))
}

#[tactic(auto, unfolding(crate::specs::Lines::registers_form))]
fn registers_form(op: Op, text: &[u8]) -> Option<Form>
    ensures { result ≡ registers_form op text.now }
{
    let (first, rest) = cut(text, b',')?;
    let (second, third) = cut(rest, b',')?;
    let rd = register_of(first)?;
    let rs1 = register_of(second)?;
    let rs2 = register_of(third)?;
    Some(Form::R { op, rd, rs1, rs2 })
}

#[tactic(auto, unfolding(crate::specs::Lines::immediate_form))]
fn immediate_form(op: Op, text: &[u8]) -> Option<Form>
    ensures { result ≡ immediate_form op text.now }
{
    let (first, rest) = cut(text, b',')?;
    let (second, third) = cut(rest, b',')?;
    let rd = register_of(first)?;
    let rs1 = register_of(second)?;
    let number = literal_of(third)?;
    let imm = immediate_of(number)?;
    Some(Form::I { op, rd, rs1, imm })
}

#[tactic(auto, unfolding(crate::specs::Lines::place_form))]
fn place_form(op: Op, text: &[u8]) -> Option<Form>
    ensures { result ≡ place_form op text.now }
{
    let (first, rest) = cut(text, b',')?;
    let rd = register_of(first)?;
    let (imm, rs1) = place_of(rest)?;
    Some(Form::I { op, rd, rs1, imm })
}

#[tactic(auto, unfolding(crate::specs::Lines::store_form))]
fn store_form(op: Op, text: &[u8]) -> Option<Form>
    ensures { result ≡ store_form op text.now }
{
    let (first, rest) = cut(text, b',')?;
    let rs2 = register_of(first)?;
    let (imm, rs1) = place_of(rest)?;
    Some(Form::S { op, rs1, rs2, imm })
}

#[tactic(auto, unfolding(crate::specs::Lines::branch_form))]
fn branch_form(labels: &Labels, here: u64, op: Op, text: &[u8]) -> Option<Form>
    ensures { result ≡ branch_form (marks_in labels.now) here op text.now }
{
    let (first, rest) = cut(text, b',')?;
    let (second, third) = cut(rest, b',')?;
    let rs1 = register_of(first)?;
    let rs2 = register_of(second)?;
    let imm = target_of(labels, here, third)?;
    Some(Form::B { op, rs1, rs2, imm })
}

#[tactic(auto, unfolding(crate::specs::Lines::upper_form))]
fn upper_form(op: Op, text: &[u8]) -> Option<Form>
    ensures { result ≡ upper_form op text.now }
{
    let (first, rest) = cut(text, b',')?;
    let rd = register_of(first)?;
    let number = literal_of(rest)?;
    let imm = natural_of(0xf_ffff, number)?;
    Some(Form::U { op, rd, imm })
}

#[tactic(auto, unfolding(crate::specs::Lines::jump_form))]
fn jump_form(labels: &Labels, here: u64, op: Op, text: &[u8]) -> Option<Form>
    ensures { result ≡ jump_form (marks_in labels.now) here op text.now }
{
    let (first, rest) = cut(text, b',')?;
    let rd = register_of(first)?;
    let imm = target_of(labels, here, rest)?;
    Some(Form::J { op, rd, imm })
}

fn form_in(labels: &Labels, here: u64, layout: Layout, op: Op, text: &[u8]) -> Option<Form>
    ensures { result ≡ form_in (marks_in labels.now) here layout op text.now }
{
    match layout {
        Layout::Alone => None,
        Layout::Registers => registers_form(op, text),
        Layout::Immediate => immediate_form(op, text),
        Layout::Place => place_form(op, text),
        Layout::Store => store_form(op, text),
        Layout::Branch => branch_form(labels, here, op, text),
        Layout::Upper => upper_form(op, text),
        Layout::Jump => jump_form(labels, here, op, text),
    }
}

// An instruction without operands.
fn alone_form(op: Op) -> Option<Form>
    ensures { result ≡ alone_form op }
{
    let imm = match op {
        Op::Fence => 255,
        Op::Ecall => 0,
        Op::Ebreak => 1,
        _ => return None,
    };
    Some(Form::I {
        op,
        rd: 0,
        rs1: 0,
        imm,
    })
}

// The word of a form whose numbers fit.
fn coded(form: Form) -> Option<u32>
    ensures { result ≡ coded form }
{
    let ins = instruction(form)?;
    Some(encode(&ins))
}

fn number_word(text: &[u8]) -> Option<u32>
    ensures { result ≡ number_word text.now }
{
    let number = literal_of(text)?;
    natural_of(u32::MAX, number)
}

#[tactic(auto, unfolding(crate::specs::Lines::with_operands))]
fn with_operands(labels: &Labels, here: u64, key: &[u8], text: &[u8]) -> Option<u32>
    ensures { result ≡ with_operands (marks_in labels.now) here key.now text.now }
{
    if key == b".word".as_slice() {
        return number_word(text);
    }
    let op = named(key)?;
    let form = form_in(labels, here, layout_of(op), op, text)?;
    coded(form)
}

#[tactic(auto, unfolding(crate::specs::Lines::without_operands))]
fn without_operands(text: &[u8]) -> Option<u32>
    ensures { result ≡ without_operands text.now }
{
    let op = named(text)?;
    let form = alone_form(op)?;
    coded(form)
}

fn word_in(labels: &Labels, here: u64, text: &[u8]) -> Option<u32>
    ensures { result ≡ word_in (marks_in labels.now) here text.now }
{
    match cut(text, b' ') {
        Some((key, operands)) => with_operands(labels, here, key, operands),
        None => without_operands(text),
    }
}

// Whether the line of that number is the first that defines its label.
fn is_new(labels: &Labels, line: u64, text: &[u8]) -> bool
    ensures { result ≡ is_new (marks_in labels.now) line (defined_in text.now) }
{
    let Some(name) = defined_in(text) else {
        return false;
    };
    match labels.mark(name) {
        Some(mark) => mark.line == line,
        None => false,
    }
}

/// What the line of that number says, with so many words above: a word, nothing, or None where it is broken.
#[tactic(auto, unfolding(crate::specs::Lines::said))]
pub fn said(labels: &Labels, line: u64, here: u64, text: &[u8]) -> Option<Option<u32>>
    ensures { result ≡ said (marks_in labels.now) line here text.now }
{
    if is_silent(text) {
        if text.is_empty() || is_new(labels, line, text) {
            return Some(None);
        }
        return None;
    }
    let word = word_in(labels, here, text)?;
    Some(Some(word))
}

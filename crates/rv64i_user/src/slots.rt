// Instructions as slots: one flat name of what it does, three registers and an immediate, beside its word.
ghost use Rattle.std.specs.Prelude.{◌≡◌, ◌<◌, Some, None};
ghost use Rattle.isa_model.specs.Atomics.{am_decoded};
ghost use Rattle.isa_model.specs.Decode.{AreRegisters, decoded};
ghost use Rattle.rv64i_user.specs.Slots.{act_by, imm_by, imm_in, rd_by, rd_in, rs1_by, rs1_in, rs2_by, rs2_in, writable};
ghost use Rattle.rv_am.specs.Words.{am};

use crate::acts::{Act, act_of, am_act_of};
use isa_model::Form;
use rv_am::AmIns;
use rv_code::decode;

// Where a slot goes on: to the slot behind it, to other code, or not in code that is known.
#[derive(Clone, Copy, PartialEq, Eq)]
pub enum Next {
    Straight,
    Elsewhere,
    Leave,
}

// A word and what it says. Where it writes no register, `rd` is 1; the immediate of U is its 20 bits as a number.
#[derive(Clone, Copy)]
pub struct Slot {
    pub word: u32,
    pub imm: i32,
    pub act: Act,
    pub rd: u8,
    pub rs1: u8,
    pub rs2: u8,
    pub ghost act_said: { act ≡ act_by (decoded word) (am_decoded word) },
    pub ghost rd_said: { rd ≡ rd_by (decoded word) (am_decoded word) },
    pub ghost rs1_said: { rs1 ≡ rs1_by (decoded word) (am_decoded word) },
    pub ghost rs2_said: { rs2 ≡ rs2_by (decoded word) (am_decoded word) },
    pub ghost imm_said: { imm ≡ imm_by (decoded word) (am_decoded word) },
    pub ghost written: { 0 < rd },
    pub ghost rd_small: { rd < 32 },
    pub ghost rs1_small: { rs1 < 32 },
    pub ghost rs2_small: { rs2 < 32 },
}

// A register that may be written.
fn writable(rd: u8) -> u8
    requires { rd < 32 }
    ensures value { result ≡ writable rd }
    ensures written { 0 < result }
    ensures small { result < 32 }
{
    if rd == 0 { 1 } else { rd }
}

// The register that a form writes.
fn rd_of(form: &Form) -> u8
    requires { AreRegisters form.now }
    ensures value { result ≡ rd_in form.now }
    ensures written { 0 < result }
    ensures small { result < 32 }
{
    match *form {
        Form::R { rd, .. } => writable(rd),
        Form::I { rd, .. } => writable(rd),
        Form::S { .. } => 1,
        Form::B { .. } => 1,
        Form::U { rd, .. } => writable(rd),
        Form::J { rd, .. } => writable(rd),
    }
}

// The first register that it reads.
fn rs1_of(form: &Form) -> u8
    requires { AreRegisters form.now }
    ensures value { result ≡ rs1_in form.now }
    ensures small { result < 32 }
{
    match *form {
        Form::R { rs1, .. } => rs1,
        Form::I { rs1, .. } => rs1,
        Form::S { rs1, .. } => rs1,
        Form::B { rs1, .. } => rs1,
        Form::U { .. } => 0,
        Form::J { .. } => 0,
    }
}

// The second.
fn rs2_of(form: &Form) -> u8
    requires { AreRegisters form.now }
    ensures value { result ≡ rs2_in form.now }
    ensures small { result < 32 }
{
    match *form {
        Form::R { rs2, .. } => rs2,
        Form::I { .. } => 0,
        Form::S { rs2, .. } => rs2,
        Form::B { rs2, .. } => rs2,
        Form::U { .. } => 0,
        Form::J { .. } => 0,
    }
}

// Its immediate.
fn imm_of(form: &Form) -> i32
    ensures { result ≡ imm_in form.now }
{
    match *form {
        Form::R { .. } => 0,
        Form::I { imm, .. } => imm,
        Form::S { imm, .. } => imm,
        Form::B { imm, .. } => imm,
        Form::U { imm, .. } => imm.cast_signed(),
        Form::J { imm, .. } => imm,
    }
}

// The slot of a word that is a form.
fn slot_with(word: u32, form: &Form) -> Slot
    requires said { decoded word ≡ Some form.now }
    requires registers { AreRegisters form.now }
    ensures { result.word ≡ word }
{
    Slot {
        word,
        imm: imm_of(form),
        act: act_of(form),
        rd: rd_of(form),
        rs1: rs1_of(form),
        rs2: rs2_of(form),
    }
}

// The slot of a word of M or A.
fn am_slot_with(word: u32, i: &AmIns) -> Slot
    requires none { decoded word ≡ None }
    requires said { am_decoded word ≡ Some (am i.now.op i.now.rd i.now.rs1 i.now.rs2 i.now.order) }
    requires rd { i.now.rd < 32 }
    requires rs1 { i.now.rs1 < 32 }
    requires rs2 { i.now.rs2 < 32 }
    ensures { result.word ≡ word }
{
    Slot {
        word,
        imm: 0,
        act: am_act_of(i),
        rd: writable(i.rd),
        rs1: i.rs1,
        rs2: i.rs2,
    }
}

// The slot of a word that is no instruction.
fn slot_without(word: u32) -> Slot
    requires none { decoded word ≡ None }
    requires none_of_am { am_decoded word ≡ None }
    ensures { result.word ≡ word }
{
    Slot {
        word,
        imm: 0,
        act: Act::Other,
        rd: 1,
        rs1: 0,
        rs2: 0,
    }
}

// The slot of a word that is no form.
fn am_slot_of(word: u32) -> Slot
    requires none { decoded word ≡ None }
    ensures { result.word ≡ word }
{
    match rv_am::decode(word) {
        Some(i) => am_slot_with(word, &i),
        None => slot_without(word),
    }
}

// The slot of a word.
pub fn slot_of(word: u32) -> Slot
    ensures { result.word ≡ word }
{
    match decode(word) {
        Some(ins) => slot_with(word, &ins.form),
        None => am_slot_of(word),
    }
}

//! Reads words in hexadecimal, one a line, and prints for each the word, the instruction with its fields, and the word that `encode`
//! makes of the instruction; `none` where the word is no instruction, and `no word` where the line is none.
#![tactic(auto)]

use isa_model::Form;
use std::alloc::{AllocError, Global};

// An instruction of RV64I with its fields.
fn told(alloc: Global, form: Form) -> Result<String, AllocError> {
    match form {
        Form::R { op, rd, rs1, rs2 } => { format!(in alloc; "{op:?} rd={rd} rs1={rs1} rs2={rs2}") }
        Form::I { op, rd, rs1, imm } => format!(in alloc; "{op:?} rd={rd} rs1={rs1} imm={imm}"),
        Form::S { op, rs1, rs2, imm } => {
            format!(in alloc; "{op:?} rs1={rs1} rs2={rs2} imm={imm}")
        }
        Form::B { op, rs1, rs2, imm } => {
            format!(in alloc; "{op:?} rs1={rs1} rs2={rs2} imm={imm}")
        }
        Form::U { op, rd, imm } => format!(in alloc; "{op:?} rd={rd} imm={imm}"),
        Form::J { op, rd, imm } => format!(in alloc; "{op:?} rd={rd} imm={imm}"),
    }
}

// What a word says, with the word that is made of it.
fn described(alloc: Global, w: u32) -> Result<String, AllocError> {
    if let Some(ins) = rv_code::decode(w) {
        let text = told(alloc, ins.form)?;
        let again = rv_code::encode(&ins);
        return format!(in alloc; "{text} {again:08x}");
    }
    match rv_am::decode(w) {
        Some(i) => {
            let again = rv_am::encode(&i);
            let (op, rd, rs1, rs2, order) = (i.op, i.rd, i.rs1, i.rs2, i.order);
            format!(in alloc; "{op:?} rd={rd} rs1={rs1} rs2={rs2} order={order} {again:08x}")
        }
        None => format!(in alloc; "none"),
    }
}

fn main(rt: HostRuntime) -> anyhow::Result<()> {
    for line in rt.lines(rt.alloc()) {
        let line = line?;
        match u32::from_str_radix(line.as_str(), 16) {
            Ok(w) => {
                let text = described(rt.alloc(), w)?;
                println!(rt; "{w:08x} {text}")?;
            }
            Err(_e) => println!(rt; "no word")?,
        }
    }
    Ok(())
}

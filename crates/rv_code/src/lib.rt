//! The words of the 52 instructions of RV64I: `decode` and `encode` between words and instructions (RISC-V Unprivileged ISA,
//! chapter RV64I and its listings).
//!
//! Promises: `decode` is the table of instructions, and None exactly where a word is none of them; `encode` gives the one word that
//! decodes to an instruction; so each is the other's way back. The definition stands in isa_model: specs/Table has a line for
//! each instruction, specs/Decode the fields. Here specs/Slots has a quicker way through the table, with the same result.
#![tactic(auto)]

mod checking;
mod coded;
mod fields;
mod reading;
mod slots;
mod table;
mod writing;

pub use checking::{code_means, instruction, one_row};
pub use coded::Ins;
pub use isa_model::{Form, Op};
pub use reading::decode;
pub use writing::encode;

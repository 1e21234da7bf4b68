//! The words of multiplication, division and atomic memory operations (RISC-V Unprivileged ISA, extensions M and A without LR and
//! SC): `decode` and `encode` between words and instructions, and `arith`, what an instruction computes.
//!
//! Promises: `decode` is the table of these instructions, and None exactly where a word is none of them; `encode` gives the one word
//! that decodes to an instruction; `arith` is the rules of the definition. It stands in isa_model, specs/Atomics. Here
//! specs/Words has the words of instructions and a quicker way through the table, with the same result.
#![tactic(auto)]

mod coded;
mod parts;
mod reading;
mod results;
mod slots;
mod table;
mod writing;

pub use coded::AmIns;
pub use isa_model::AmOp;
pub use reading::decode;
pub use results::{arith, is_atomic, old_value, result_of, size_of_access};
pub use writing::{code_means, encode, instruction};

//! One instruction of RV64I with M and the AMO instructions of A (RISC-V Unprivileged ISA): the table of the instructions, and what
//! each does to the registers and to a memory of pages.
//!
//! This crate has definitions and the plain types that they speak of. Read specs/Memory, Table, Decode, Arith, Atomics, Instr.
#![tactic(auto)]

pub mod atomics;
pub mod forms;
pub mod kinds;
pub mod names;
pub mod rights_needed;
pub mod shapes;
pub mod stops;

pub use atomics::AmOp;
pub use forms::Form;
pub use names::Op;
pub use rights_needed::allows;
pub use stops::{Lack, Stop};

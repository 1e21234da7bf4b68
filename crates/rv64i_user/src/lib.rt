//! One instruction of RV64I with M and the atomic operations of A, over any memory of pages.
//!
//! Promises: `step` is the definition of one instruction over every memory that meets `UserMem`, and `run_most` is that definition
//! n times, up to the first stop; `run_known` is the same with instructions that were decoded before: slots, in lines of 16 that
//! are compared with the code once. An instruction that stops
//! changes nothing, and what instructions do rests on the pages that they touch. The definition stands in isa_model (specs/Instr); here specs/Runs has several instructions, specs/Seen what
//! pages decide, specs/Places numbers in a page.
#![tactic(auto)]

mod across;
mod acts;
mod arith;
mod atomic;
mod flat;
mod in_page;
mod kept;
mod known;
mod known_runs;
mod laws;
mod memory;
mod page_memory;
mod page_numbers;
mod page_runs;
mod registers;
mod running;
mod several;
mod slot_atomics;
mod slot_runs;
mod slot_steps;
mod slots;
mod steps;

pub use isa_model::{Lack, Stop};
pub use kept::Kept;
pub use known::KnownWords;
pub use known_runs::{run_known, step_known};
pub use laws::{seen_pages_decide, seen_pages_decide_runs, stops_change_nothing};
pub use memory::UserMem;
pub use page_memory::PageMem;
pub use page_numbers::write_some;
pub use several::run_most;
pub use steps::{step, step_to};

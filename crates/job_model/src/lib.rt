//! A job and the images of its guests, as plain data.
//!
//! The types stand here since all definitions speak of them; `job_text` reads a `Job` and `elf_load` an `Image`. A list is seen as
//! a plain list, so that clauses read a job as the record of its lists.
#![tactic(auto)]

pub mod image;
pub mod job;

pub use image::{Image, Segment, Segments};
pub use job::{
    ArgList, FileLine, FileLines, GuestLine, GuestLines, InputLine, InputLines, Job, SignalLine,
    SignalLines,
};

//! The text of a job, and the lines of a text.
//!
//! Promises: `read_job` answers the job that a text spells, or its first broken line with the first check that it breaks. What it
//! answers keeps `IsJob`. `sources` is the job's guest, file and input lines in their order in the text. Reading is linear in the
//! text, and no word is copied but those that the job keeps. `read_lines` reads any text whose lines keep the same rules of length
//! and bytes: a type says by `TakesLines` what the words of each line add. The definitions stand in specs/: Words, Checks and
//! TextLines (the lines of any text), Paths, Lines (the checks of each kind of line), Reading (the whole job), Kept (what each job
//! keeps), Order (the order of the lines).
#![tactic(auto)]

mod checks;
mod draft;
mod fault;
mod order;
mod paths;
mod read;
mod text_lines;
mod words;

pub use draft::Draft;
pub use fault::{BrokenLine, JobError, JobFault, Key, LineError, TextError, Why};
pub use job_model::{
    ArgList, FileLine, FileLines, GuestLine, GuestLines, InputLine, InputLines, Job, SignalLine,
    SignalLines,
};
pub use order::{Source, SourceKind, sources};
pub use read::read_job;
pub use text_lines::{TakesLines, read_lines};
pub use words::{Words, in_range};

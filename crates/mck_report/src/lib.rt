//! The texts of a run: the report, the trace and its reading, the texts of a check and of grow, and the line of a status.
//!
//! Promises: each text is its definition byte for byte; a trace reads back as the journal that it spells, no other bytes read as that
//! journal but the first version's spelling, and a refusal names the first line that is no entry. Writing and reading go over their
//! bytes once. The definitions stand in run_model (reports, traces), run_summary, and specs/ here.
#![tactic(auto)]

mod check_text;
mod reading;
mod report_text;
mod status;
mod status_text;
mod trace_text;
mod writing;

pub use check_text::{check, needed_frames};
pub use reading::{TraceError, read_trace, split_entry, split_version};
pub use report_text::{grow, report};
pub use status::{Status, status_number};
pub use status_text::status_line;
pub use trace_text::trace;

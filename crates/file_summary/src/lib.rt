//! What a report says of a store of files: its paths in the order of their bytes, and what was written to its consoles.
//!
//! Promises: `paths` and `outputs` are those of the definitions (run_model, Reports; run_summary, Summaries), over any store whose nodes
//! and consoles can be gone through. They fail for want of memory alone. The words on rows stand in specs/Rows.
#![tactic(auto)]

mod console_rows;
mod path_rows;

pub use console_rows::outputs;
pub use path_rows::paths;

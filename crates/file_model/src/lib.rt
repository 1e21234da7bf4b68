//! Files: the tree, pipes, consoles and open descriptions, and what each operation does to them.
//!
//! This crate has definitions and the plain types that they speak of. The file calls are those of man-pages section 2 in the
//! profile of docs/FORMATS.md; the lists, the limits and the order of checks are this project's own. Read specs/Files, Paths,
//! Operations, Acts, Streams, FileSteps in this order.
#![tactic(auto)]

pub mod descriptions;
pub mod operations;

pub use descriptions::{Description, Target};
pub use operations::{FileAns, FileOp, PathRow, Readiness};

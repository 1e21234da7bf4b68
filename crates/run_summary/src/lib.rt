//! What a report says of a one-kernel state, as plain data: ends, outputs, paths, unsent lines, and two counts.
//!
//! Promises: the report of a state is the report of its summary (`one_report`), and so are grow's lines (`one_grow`). A part that makes a summary owes `summary_of`; a part that
//! writes a report needs the summary alone. The definitions stand in specs/Summaries.
#![tactic(auto)]

ghost use Rattle.hybrid_model.specs.declared.events.Ending.{Ending};
ghost use Rattle.hybrid_model.specs.declared.events.Event.{Event};
ghost use Rattle.kernel_model.specs.OneKernel.{OneKernel};
ghost use Rattle.run_model.specs.Reports.{report_parts, count_lines};
ghost use Rattle.run_summary.specs.Summaries.{summary_of, summary_parts, summary_counts};
ghost use Rattle.std.specs.Prelude.{◌≡◌, ℕ, List};

use file_model::PathRow;
use mck_word::{Bytes, End, Items, Pid};

/// A process, and its end once it has one.
#[derive(Clone, Copy, Debug, PartialEq, Eq)]
pub struct ProcessEnd {
    pub pid: Pid,
    pub end: Option<End>,
}

/// The console of a process, and what was written to it.
#[derive(Drop)]
pub struct Output {
    pub pid: Pid,
    pub bytes: Bytes,
}

/// The processes by their numbers.
pub type Ends = Items<ProcessEnd>;

/// The consoles by their processes' numbers.
pub type Outputs = Items<Output>;

/// The paths in byte order, without the root.
pub type Paths = Items<PathRow>;

/// Numbers of lines of a job.
pub type Lines = Items<u64>;

/// What a report says of a state: each process with its end or none, each console with its output, each path in byte order, the line
/// of each signal that was not sent, the sum of the processes' instructions, and the frames that are free.
#[derive(Drop)]
pub struct Summary {
    pub ends: Ends,
    pub outputs: Outputs,
    pub paths: Paths,
    pub unsent: Lines,
    pub instructions: u64,
    pub free: u64,
}

/// The report of a state is the report of its summary.
pub fn one_report()
    ensures { (shown : OneKernel) (ending : Ending) (given : ℕ) (journal : List Event) →
        report_parts shown ending given journal ≡ summary_parts (summary_of shown) ending given journal }
{}

/// The counts of a state are those of its summary.
pub fn one_count()
    ensures { (shown : OneKernel) (given : ℕ) (journal : List Event) →
        count_lines shown given journal ≡ summary_counts (summary_of shown) given journal }
{}

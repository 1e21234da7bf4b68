//! The top calls of the program: the command that the words are, the chain of refusals before a run, the walk, the run on threads, the
//! replay and the audit of a trace, and what each call answers, keeps and writes.
//!
//! Promises: each status has its cause as a clause, and the outcome of a call is one relation with a case for each row of the table
//! of statuses; a walk's journal is the one that its order names, up to where no event is offered, a replay's the one that its trace
//! spells, and a run's some legal one up to where no event may happen; each is legal, and its text is written byte for byte. Of every
//! journal that is kept the whole main theorem holds (hybrid_model, Claims), whatever the host is. An audit runs the one-kernel machine over
//! the steps that the journal's events stand for, prints from it and hands it out; it writes what a replay writes. The calls are over any
//! `Machine` and any `SingleKernel` (node_machine); those named `.._prepared` take a job and its images as they are. The definitions
//! stand in specs/: Commands, Chain and Given (what stands before a run), Running, Replaying, Growing, Audits (what each comes to), Outcome
//! and Calls (the table), and Lockstep (the two machines side by side).
#![tactic(auto)]

mod audits;
mod calls;
mod chain;
mod checks;
mod command;
mod fetches;
mod lockstep;
mod replaying;
mod replays;
mod runs;
mod stages;
mod walks;

pub use audits::{Audited, audit, audit_prepared};
pub use calls::{Ended, mcexec};
pub use chain::{Fetched, Prepared, gather};
pub use checks::{check, check_prepared};
pub use command::{Command, Form, read_command};
pub use lockstep::Lockstep;
pub use replaying::{Refusal, replay_trace};
pub use replays::{Replayed, replay, replay_job, replay_prepared};
pub use runs::{run, run_prepared};
pub use stages::Text;
pub use walks::{grow, walk, walk_prepared};

//! The text of a plan of partitions: the node that is divided, and the commands that divide it.
//!
//! Promises: `read_plan` answers the plan that a text spells, or its first broken line with the first check that it breaks, or that
//! there is no command. What it answers keeps `IsPlan`: numbers in their ranges, cores of the node. Reading is linear in the text, and
//! no word is copied but the names of jobs. The definitions stand in specs/: Lines (the checks of each command), Reading (the whole
//! text), Kept (what each plan keeps); the lines and their words are those of job_text.
#![tactic(auto)]

mod commands;
mod draft;
mod fault;
mod plan;
mod read;

pub use draft::Draft;
pub use fault::{PlanError, PlanFault};
pub use job_text::Why;
pub use plan::{Plan, PlanCommand, PlanLine};
pub use read::read_plan;

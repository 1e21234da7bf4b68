//! Instructions of a thread over the pages of its process, in the frames of the node.
//!
//! Promises: `run` is the definition of that many instructions, up to and with the first that stops, over the memory that the table
//! shows; the frames afterwards are those before with that memory written back, and no page is copied on the way. The laws say that this is
//! the node's run of a thread and its event Run (hybrid_model's specs/Run). How many instructions are counted and the node after
//! them stand in specs/Counts, what a run leaves of the frames in specs/Lent.
#![tactic(auto)]

mod laws;
mod pages;
mod running;

pub use laws::{a_run_is_the_event, a_run_is_the_nodes_run};
pub use pages::{Begun, Frames, UserPages};
pub use running::run;

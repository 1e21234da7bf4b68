//! Walks of the two kernels, the texts of a journal, and the work that it may hold.
#![tactic(auto)]

pub mod actors;

ghost use Rattle.std.specs.Prelude.{◌≡◌};
ghost use Rattle.run_model.specs.Walks.{most_per_run};

pub use actors::Actor;

/// How many instructions a run executes at most.
pub fn most_per_run() -> u32
    ensures { result ≡ most_per_run }
{
    64
}

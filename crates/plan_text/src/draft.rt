// The lines of a plan so far.
ghost use Rattle.std.specs.Prelude.{◌≡◌};
ghost use Rattle.plan_text.specs.Reading.{no_lines};

use crate::commands::{first_command, next_command};
use crate::plan::Plan;
use job_text::{LineError, TakesLines, Words};
use std::alloc::Global;

/// What the lines so far say: nothing before the first command.
#[derive(Drop)]
pub struct Draft {
    pub plan: Option<Plan>,
}

impl Draft {
    /// No lines so far. Can't fail.
    pub fn new() -> Draft
        ensures { result ≡ no_lines }
    {
        Draft { plan: None }
    }
}

impl TakesLines for Draft {
    ghost use Rattle.plan_text.specs.Kept.{IsDraft};
    ghost use Rattle.plan_text.specs.Reading.{add_words};

    ghost adds = { add_words };

    ghost keeps = { IsDraft };

    fn add_words(&mut self, alloc: Global, line: u64, words: &Words) -> Result<(), LineError> {
        match &mut self.plan {
            Some(plan) => next_command(alloc, plan, line, words),
            None => {
                self.plan = Some(first_command(alloc, words)?);
                Ok(())
            }
        }
    }
}

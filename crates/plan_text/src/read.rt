// The plan that a text spells.
ghost use Rattle.std.specs.Prelude.{IfOk};
ghost use Rattle.plan_text.specs.Kept.{IsPlan};
ghost use Rattle.plan_text.specs.Reading.{ReadGives, plan_of};

use crate::draft::Draft;
use crate::fault::{PlanError, PlanFault};
use crate::plan::Plan;
use job_text::read_lines;
use std::alloc::Global;

/// The plan that the text spells, or its first broken line, or that there is no command.
#[tactic(auto, unfolding(crate::specs::Reading::plan_of))]
pub fn read_plan(alloc: Global, text: &[u8]) -> Result<Plan, PlanError>
    ensures value { ReadGives result (plan_of text.now) }
    ensures plan { IfOk result IsPlan }
{
    let draft = read_lines(alloc, Draft::new(), text)?;
    match draft.plan {
        Some(plan) => Ok(plan),
        None => Err(PlanError::Fault(PlanFault::Empty)),
    }
}

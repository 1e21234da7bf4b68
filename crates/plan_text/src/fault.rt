// Why a text is no plan.
use job_text::{BrokenLine, TextError, Why};
use thiserror::Error;

/// The first broken rule. Lines count from 1.
#[derive(Clone, Copy, Debug, PartialEq, Eq, Error)]
pub enum PlanFault {
    /// The first line that breaks a check.
    #[error("line {line} {why}")]
    Line { line: u64, why: Why },
    /// There is no command.
    #[error("empty")]
    Empty,
}

/// Why no plan was read.
#[derive(Clone, Copy, Debug, PartialEq, Eq, Error)]
pub enum PlanError {
    /// The text breaks this rule.
    #[error("{0}")]
    Fault(PlanFault),
    /// There was no memory for the plan.
    #[error("no memory")]
    NoMemory,
}

impl From<TextError> for PlanError {
    ghost use Rattle.std.specs.Prelude.{◌≡◌};
    ghost use Rattle.plan_text.specs.Reading.{error_of};

    ghost from_gives = { λ error e. e ≡ error_of error };

    fn from(error: TextError) -> PlanError {
        match error {
            TextError::Broken(BrokenLine { line, why }) => {
                PlanError::Fault(PlanFault::Line { line, why })
            }
            TextError::NoMemory => PlanError::NoMemory,
        }
    }
}

// Why a text is no job.
use mck_word::NoMemory;
use thiserror::Error;

/// The first check that a line breaks. They are made in this order.
#[derive(Clone, Copy, Debug, PartialEq, Eq, Error)]
pub enum Why {
    /// Over 1,024 bytes, or the text's last line has no line feed.
    #[error("length")]
    Length,
    /// A byte outside 0x20 to 0x7e.
    #[error("byte")]
    Byte,
    /// No line begins with this word.
    #[error("keyword")]
    Keyword,
    /// Too few or too many words, or an empty one.
    #[error("count")]
    Count,
    /// A line that may stand once stands again, or an input of the same guest.
    #[error("repeat")]
    Repeat,
    /// One guest, signal or file line too many.
    #[error("toomany")]
    TooMany,
    /// No number, or one out of range.
    #[error("number")]
    Number,
    /// No guest line above has this number.
    #[error("guest")]
    Guest,
    /// No path, or one that is, passes through or lies above an earlier file.
    #[error("path")]
    Path,
}

/// A line that has to stand in a job.
#[derive(Clone, Copy, Debug, PartialEq, Eq, Error)]
pub enum Key {
    #[error("frames")]
    Frames,
    #[error("guest")]
    Guest,
}

/// The first broken rule. Lines count from 1.
#[derive(Clone, Copy, Debug, PartialEq, Eq, Error)]
pub enum JobFault {
    #[error("line {line} {why}")]
    Line { line: u64, why: Why },
    #[error("lacks {0}")]
    Missing(Key),
}

/// The first line of a text that breaks a check. Lines count from 1.
#[derive(Clone, Copy, Debug, PartialEq, Eq, Error)]
#[error("line {line} {why}")]
pub struct BrokenLine {
    pub line: u64,
    pub why: Why,
}

/// Why the lines of a text were not taken.
#[derive(Clone, Copy, Debug, PartialEq, Eq, Error)]
pub enum TextError {
    #[error("{0}")]
    Broken(BrokenLine),
    #[error("no memory")]
    NoMemory,
}

/// Why no job was read.
#[derive(Clone, Copy, Debug, PartialEq, Eq, Error)]
pub enum JobError {
    /// The text breaks this rule.
    #[error("{0}")]
    Fault(JobFault),
    /// There was no memory for the job.
    #[error("no memory")]
    NoMemory,
}

/// Why a line was not taken.
#[derive(Clone, Copy, Debug, PartialEq, Eq, Error)]
pub enum LineError {
    #[error("{0}")]
    Broken(Why),
    #[error("no memory")]
    NoMemory,
}

impl From<NoMemory> for LineError {
    ghost use Rattle.std.specs.Prelude.{◌≡◌};
    ghost use Rattle.job_text.specs.declared.fault.LineError.TheVariants.{NoMemory};

    ghost from_gives = { λ _ e. e ≡ NoMemory };

    fn from(_e: NoMemory) -> LineError {
        LineError::NoMemory
    }
}

impl From<Why> for LineError {
    ghost use Rattle.std.specs.Prelude.{◌≡◌};
    ghost use Rattle.job_text.specs.declared.fault.LineError.TheVariants.{Broken};

    ghost from_gives = { λ why e. e ≡ Broken why };

    fn from(why: Why) -> LineError {
        LineError::Broken(why)
    }
}

impl From<TextError> for JobError {
    ghost use Rattle.std.specs.Prelude.{◌≡◌};
    ghost use Rattle.job_text.specs.Reading.{error_of};

    ghost from_gives = { λ error e. e ≡ error_of error };

    fn from(error: TextError) -> JobError {
        match error {
            TextError::Broken(BrokenLine { line, why }) => {
                JobError::Fault(JobFault::Line { line, why })
            }
            TextError::NoMemory => JobError::NoMemory,
        }
    }
}

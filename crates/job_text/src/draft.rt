// The lines of a job so far.
ghost use Rattle.std.specs.Prelude.{◌≡◌};
ghost use Rattle.job_text.specs.Reading.{no_lines};

use crate::checks::add_key;
use crate::fault::LineError;
use crate::text_lines::TakesLines;
use crate::words::Words;
use job_model::{FileLines, GuestLines, InputLines, SignalLines};
use mck_word::Items;
use std::alloc::Global;

/// What the lines so far say.
#[derive(Drop)]
pub struct Draft {
    pub frames: Option<u32>,
    pub cores: Option<u32>,
    pub workers: Option<u32>,
    pub rings: Option<u32>,
    pub limit: Option<u64>,
    pub guests: GuestLines,
    pub signals: SignalLines,
    pub files: FileLines,
    pub inputs: InputLines,
}

impl Draft {
    /// No lines so far. Can't fail.
    pub fn new(alloc: Global) -> Draft
        ensures { result ≡ no_lines }
    {
        Draft {
            frames: None,
            cores: None,
            workers: None,
            rings: None,
            limit: None,
            guests: Items::new(alloc),
            signals: Items::new(alloc),
            files: Items::new(alloc),
            inputs: Items::new(alloc),
        }
    }
}

impl TakesLines for Draft {
    ghost use Rattle.job_text.specs.Kept.{IsDraft};
    ghost use Rattle.job_text.specs.Reading.{add_words};

    ghost adds = { add_words };

    ghost keeps = { IsDraft };

    fn add_words(&mut self, alloc: Global, line: u64, words: &Words) -> Result<(), LineError> {
        add_key(alloc, self, line, words)
    }
}

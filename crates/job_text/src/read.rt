// The job that a text spells.
ghost use Rattle.std.specs.Prelude.{IfOk};
ghost use Rattle.job_text.specs.Kept.{IsJob};
ghost use Rattle.job_text.specs.Reading.{ReadGives, job_of};

use crate::draft::Draft;
use crate::fault::{JobError, JobFault, Key};
use crate::text_lines::read_lines;
use job_model::Job;
use std::alloc::Global;

/// The job that the text spells, or its first broken line, or the line that it lacks.
#[tactic(auto, unfolding(crate::specs::Reading::job_of))]
pub fn read_job(alloc: Global, bytes: &[u8]) -> Result<Job, JobError>
    ensures value { ReadGives result (job_of bytes.now) }
    ensures job { IfOk result IsJob }
{
    let draft = read_lines(alloc, Draft::new(alloc), bytes)?;
    let Some(frames) = draft.frames else {
        return Err(JobError::Fault(JobFault::Missing(Key::Frames)));
    };
    if draft.guests.len() == 0 {
        return Err(JobError::Fault(JobFault::Missing(Key::Guest)));
    }
    Ok(Job {
        frames,
        cores: draft.cores.unwrap_or(1),
        workers: draft.workers.unwrap_or(2),
        rings: draft.rings.unwrap_or(1),
        limit: draft.limit.unwrap_or(1_000_000),
        guests: draft.guests,
        signals: draft.signals,
        files: draft.files,
        inputs: draft.inputs,
    })
}

// The lines that name something of the host, in their order in the text.
ghost use Rattle.std.specs.Prelude.{◌≡◌, [], ◌++◌, ℕ, IfOk, length};
ghost use Rattle.job_text.specs.Order.{by_line, guests_from, files_from, inputs_from, sources_of};

use job_model::{FileLine, GuestLine, InputLine, Job};
use mck_word::{Items, NoMemory};
use std::alloc::Global;

/// What kind of line it is.
#[derive(Clone, Copy, Debug, PartialEq, Eq)]
pub enum SourceKind {
    Guest,
    File,
    Input,
}

/// A line of a job that names an image or a file of the host: its number, its kind, and its place among those of its kind,
/// counted from 0.
#[derive(Clone, Copy, Debug, PartialEq, Eq)]
pub struct Source {
    pub line: u64,
    pub kind: SourceKind,
    pub place: usize,
}

fn guests_of(alloc: Global, guests: &[GuestLine]) -> Result<Items<Source>, NoMemory>
    ensures { IfOk result (λ sources. sources ≡ guests_from 0 guests.now) }
{
    let mut sources = Items::new(alloc);
    let mut place = 0usize;
    let mut rest = guests;
    while let Some((guest, more)) = rest.split_first() {
        sources.push(Source {
            line: guest.line,
            kind: SourceKind::Guest,
            place,
        })?;
        place += 1;
        rest = more;
    }
    Ok(sources)
}

fn files_of(alloc: Global, files: &[FileLine]) -> Result<Items<Source>, NoMemory>
    ensures { IfOk result (λ sources. sources ≡ files_from 0 files.now) }
{
    let mut sources = Items::new(alloc);
    let mut place = 0usize;
    let mut rest = files;
    while let Some((file, more)) = rest.split_first() {
        sources.push(Source {
            line: file.line,
            kind: SourceKind::File,
            place,
        })?;
        place += 1;
        rest = more;
    }
    Ok(sources)
}

fn inputs_of(alloc: Global, inputs: &[InputLine]) -> Result<Items<Source>, NoMemory>
    ensures { IfOk result (λ sources. sources ≡ inputs_from 0 inputs.now) }
{
    let mut sources = Items::new(alloc);
    let mut place = 0usize;
    let mut rest = inputs;
    while let Some((input, more)) = rest.split_first() {
        sources.push(Source {
            line: input.line,
            kind: SourceKind::Input,
            place,
        })?;
        place += 1;
        rest = more;
    }
    Ok(sources)
}

// Two lists in one, by line.
fn by_line(alloc: Global, firsts: &[Source], seconds: &[Source]) -> Result<Items<Source>, NoMemory>
    ensures { IfOk result (λ sources. sources ≡ by_line firsts.now seconds.now) }
{
    let mut sources = Items::new(alloc);
    let mut left = firsts;
    let mut right = seconds;
    while let Some((first, lefts)) = left.split_first() {
        match right.split_first() {
            Some((second, rights)) if second.line < first.line => {
                sources.push(*second)?;
                right = rights;
            }
            _ => {
                sources.push(*first)?;
                left = lefts;
            }
        }
    }
    while let Some((second, rights)) = right.split_first() {
        sources.push(*second)?;
        right = rights;
    }
    Ok(sources)
}

/// The guest, file and input lines of a job in their order in the text.
pub fn sources(alloc: Global, job: &Job) -> Result<Items<Source>, NoMemory>
    ensures { IfOk result (λ sources. sources ≡ sources_of job.now) }
{
    let guests = guests_of(alloc, job.guests.as_slice())?;
    let files = files_of(alloc, job.files.as_slice())?;
    let inputs = inputs_of(alloc, job.inputs.as_slice())?;
    let both = by_line(alloc, guests.as_slice(), files.as_slice())?;
    by_line(alloc, both.as_slice(), inputs.as_slice())
}

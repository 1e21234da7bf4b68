// The files at the boot.
ghost use Rattle.std.specs.Prelude.{◌≡◌, ◌≤◌, ◌==◌, IfOk, OnOk, find, fold, length};
ghost use Rattle.std.specs.Option.{option_copied};
ghost use Rattle.kernel_model.specs.OneKernel.{boot_files, input_of, with_consoles, with_line};
ghost use Rattle.mck_word.specs.Lists.{count_from};
ghost use Rattle.mck_word.specs.Maps.{no_rows};

use job_files::JobFiles;
use job_model::{FileLine, InputLine, Job};
use mck_word::{NoMemory, Pid};
use std::alloc::Global;

/// The line of a guest's console input: None exactly where it has none.
fn input_line(lines: &[InputLine], guest: u32) -> Option<&InputLine>
    ensures { option_copied result ≡ find (λ l. l.guest == guest) lines.now }
{
    lines.iter().find(|line| line.guest == guest)
}

/// The console input of a guest.
fn input_of(job: &Job, guest: u32) -> &[u8]
    ensures { result.now ≡ input_of job.now guest }
{
    match input_line(job.inputs.as_slice(), guest) {
        Some(line) => line.bytes.as_slice(),
        None => &[],
    }
}

/// Adds the files of the lines.
fn add_files<F: JobFiles>(files: &mut F, lines: &[FileLine]) -> Result<(), NoMemory>
    ensures { OnOk result (F.files files.new ≡ fold with_line (F.files files.old) lines.now) }
{
    let mut rest = lines;
    while let Some((line, more)) = rest.split_first() {
        files.add_file(line.path.as_slice(), line.bytes.as_slice())?;
        rest = more;
    }
    Ok(())
}

/// Adds the consoles of the guests, and their descriptors.
fn add_consoles<F: JobFiles>(files: &mut F, job: &Job) -> Result<(), NoMemory>
    requires few { length job.now.guests ≤ 16 }
    requires none { (F.files files.old).descriptors ≡ no_rows }
    ensures { OnOk result (F.files files.new ≡ with_consoles job.now (count_from 1 (length job.now.guests)) (F.files files.old)) }
{
    let mut guest = 1u32;
    let mut rest = job.guests.as_slice();
    while let Some((_, more)) = rest.split_first() {
        files.process(Pid(guest), input_of(job, guest))?;
        guest += 1;
        rest = more;
    }
    Ok(())
}

/// The files of a job: its files, and a console for each guest.
pub fn boot_files<F: JobFiles>(alloc: Global, job: &Job) -> Result<F, NoMemory>
    requires { length job.now.guests ≤ 16 }
    ensures { IfOk result (λ files. F.files files ≡ boot_files job.now) }
{
    let mut files: F = F::with_root(alloc)?;
    add_files(&mut files, job.files.as_slice())?;
    add_consoles(&mut files, job)?;
    Ok(files)
}

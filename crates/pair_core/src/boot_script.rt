// The script at the boot.
ghost use Rattle.std.specs.Prelude.{◌≡◌, All, IfOk, length, map};
ghost use Rattle.job_model.specs.Prepared.{IsForGuest, IsWithin};
ghost use Rattle.kernel_model.specs.OneKernel.{script_lines};
ghost use Rattle.kernel_tables.specs.Shown.{shown_line};

use job_model::{Job, SignalLine};
use kernel_tables::ScriptLine;
use mck_word::{NoMemory, Pid};
use std::alloc::Global;

/// A signal line of that index, as a line of the script. `NoMemory` where its index or its line has more than 32 bits:
/// no job of that length is held in memory.
fn script_line(index: u64, line: &SignalLine) -> Result<ScriptLine, NoMemory>
    requires { IsWithin 1 64 line.now.sig }
    ensures { IfOk result (λ x. shown_line x ≡ record { index = index; line = line.now.line; process = line.now.guest; signal = line.now.sig; after = line.now.after }) }
{
    if index > u64::from(u32::MAX) || line.line > u64::from(u32::MAX) {
        return Err(NoMemory);
    }
    Ok(ScriptLine {
        index: index as u32,
        line: line.line as u32,
        process: Pid(line.guest),
        signal: line.sig,
        after: line.after,
    })
}

/// The lines of the script, unsent.
pub fn boot_script(alloc: Global, job: &Job) -> Result<Vec<ScriptLine>, NoMemory>
    requires { All (IsForGuest (length job.now.guests)) job.now.signals }
    ensures { IfOk result (λ script. map shown_line script.items ≡ script_lines 0 job.now.signals) }
{
    let mut script = Vec::new(alloc);
    let mut index = 0u64;
    let mut rest = job.signals.as_slice();
    while let Some((line, more)) = rest.split_first() {
        script.push(script_line(index, line)?)?;
        index += 1;
        rest = more;
    }
    Ok(script)
}

// What a report says of the state.
ghost use Rattle.mck_word.specs.Maps.{entries};
ghost use Rattle.one_kernel.specs.Parts.{one_of};
ghost use Rattle.one_kernel.specs.Summed.{end_at};
ghost use Rattle.run_summary.specs.Summaries.{end_of, summary_of};
ghost use Rattle.std.specs.Prelude.{◌≡◌, IfOk, map};

use crate::parts::One;
use file_summary::{outputs, paths};
use kernel_model::Life;
use kernel_tables::{Processes, ScriptLine};
use mck_word::{End, Items, NoMemory, Pid};
use run_summary::{Ends, Lines, ProcessEnd, Summary};
use std::alloc::Global;

/// The end that a life has come to.
fn end_of(life: Life) -> Option<End>
    ensures { result ≡ end_of life }
{
    match life {
        Life::Living => None,
        Life::Dying(end) | Life::Ended(end) => Some(end),
    }
}

/// The processes with their ends.
fn ends(alloc: Global, processes: &Processes) -> Result<Ends, NoMemory>
    ensures { IfOk result (λ ends. ends ≡ map end_at (entries processes.now.map)) }
{
    let mut ends = Items::new(alloc);
    let mut rest = processes.rows();
    while let Some((row, more)) = rest.split_first() {
        ends.push(ProcessEnd {
            pid: Pid(row.0 as u32),
            end: end_of(row.1.life),
        })?;
        rest = more;
    }
    Ok(ends)
}

/// The lines of the job whose signals weren't sent.
fn lines_of(alloc: Global, script: &[ScriptLine]) -> Result<Lines, NoMemory>
    ensures { IfOk result (λ lines. lines ≡ map (λ l. l.line) script.now) }
{
    let lines = script
        .iter()
        .map(|line| u64::from(line.line))
        .collect(alloc)?;
    Ok(Items::from_vec(lines))
}

impl One {
    /// What a report says of the state.
    pub fn summary(&self) -> Result<Summary, NoMemory>
        ensures { IfOk result (λ summary. summary ≡ summary_of (one_of self.now)) }
    {
        Ok(Summary {
            ends: ends(self.alloc, &self.node.processes)?,
            outputs: outputs(self.alloc, &self.files)?,
            paths: paths(self.alloc, &self.files)?,
            unsent: lines_of(self.alloc, &self.node.unsent)?,
            instructions: self.node.instructions_in_all(),
            free: self.free,
        })
    }
}

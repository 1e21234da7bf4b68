// What a report says of the state.
ghost use Rattle.hybrid_model.specs.Shown.{one};
ghost use Rattle.pair_core.specs.Shown.{pair_of};
ghost use Rattle.pair_node.specs.Summed.{end_at, numbered_in};
ghost use Rattle.run_model.specs.Reports.{requests};
ghost use Rattle.run_summary.specs.Summaries.{end_of, summary_of};
ghost use Rattle.std.specs.Prelude.{◌≡◌, ◌<◌, ◌^◌, IfOk, map, sum_by};

use crate::pair::Pair;
use file_calls::listing::Listing;
use file_calls::store::FileStore;
use file_summary::{outputs, paths};
use kernel_model::Life;
use kernel_tables::ScriptLine;
use mck_word::{End, Items, NoMemory, Pid};
use page_map::PageTable;
use pair_core::{Parts, Side};
use run_summary::{Ends, Lines, ProcessEnd, Summary};
use std::alloc::Global;

// How many requests were numbered in these processes.
fn numbered_in<T: PageTable>(rows: &[(u64, Side<T>)]) -> u64
    requires { sum_by numbered_in rows.now < 2 ^ 64 }
    ensures { result ≡ sum_by numbered_in rows.now }
{
    rows.iter()
        .map(|row| row.1.channel.book.fresh().0.saturating_sub(1))
        .sum()
}

fn end_of(life: Life) -> Option<End>
    ensures { result ≡ end_of life }
{
    match life {
        Life::Living => None,
        Life::Dying(end) | Life::Ended(end) => Some(end),
    }
}

fn end_at<T: PageTable + Drop, F: FileStore>(parts: &Parts<T, F>, pid: Pid) -> ProcessEnd
    ensures { result ≡ end_at (pair_of T.rows F.files parts.now).node pid }
{
    ProcessEnd {
        pid,
        end: end_of(parts.lwk.node.life(pid)),
    }
}

// The processes with their ends.
fn ends<T: PageTable + Drop, F: FileStore>(
    alloc: Global,
    parts: &Parts<T, F>,
    pids: &[Pid],
) -> Result<Ends, NoMemory>
    ensures { IfOk result (λ ends. ends ≡ map (end_at (pair_of T.rows F.files parts.now).node) pids.now) }
{
    let mut ends = Items::new(alloc);
    for pid in pids {
        ends.push(end_at(parts, *pid))?;
    }
    Ok(ends)
}

// The lines of the job whose signals weren't sent.
fn lines_of(alloc: Global, script: &[ScriptLine]) -> Result<Lines, NoMemory>
    ensures { IfOk result (λ lines. lines ≡ map (λ l. l.line) script.now) }
{
    let lines = script
        .iter()
        .map(|line| u64::from(line.line))
        .collect(alloc)?;
    Ok(Items::from_vec(lines))
}

impl<T: PageTable + Drop, F: FileStore> Pair<T, F> {
    /// How many requests were numbered in all processes.
    pub fn requests(&self) -> u64
        ensures { result ≡ requests (pair_of T.rows F.files self.now.parts) }
    {
        numbered_in(self.parts.sides.as_slice())
    }
}

impl<T: PageTable + Drop, F: Listing> Pair<T, F> {
    /// What a report says of the state.
    pub fn summary(&self) -> Result<Summary, NoMemory>
        ensures { IfOk result (λ summary. summary ≡ summary_of (one (pair_of T.rows F.files self.now.parts))) }
    {
        let parts = &self.parts;
        Ok(Summary {
            ends: ends(self.alloc, parts, self.pids())?,
            outputs: outputs(self.alloc, &parts.files)?,
            paths: paths(self.alloc, &parts.files)?,
            unsent: lines_of(self.alloc, &parts.lwk.node.unsent)?,
            instructions: parts.lwk.node.instructions_in_all(),
            free: parts.lwk.pool.free(),
        })
    }
}

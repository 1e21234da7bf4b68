// What was written to the consoles.
ghost use Rattle.file_summary.specs.Rows.{output_at};
ghost use Rattle.mck_word.specs.Maps.{entries};
ghost use Rattle.run_summary.specs.Summaries.{output_of};
ghost use Rattle.std.specs.Prelude.{◌≡◌, IfOk, map};

use file_calls::listing::Listing;
use mck_word::{Bytes, Items, NoMemory, Pid};
use run_summary::{Output, Outputs};
use std::alloc::Global;

// What was written to the console of a guest.
fn output_of<F: Listing>(alloc: Global, files: &F, pid: Pid) -> Result<Output, NoMemory>
    ensures { IfOk result (λ output. output ≡ output_at (F.files files.now) pid.0) }
{
    let bytes = match files.output(pid) {
        Some(bytes) => Bytes::from_slice(alloc, bytes)?,
        None => Bytes::new(alloc),
    };
    Ok(Output { pid, bytes })
}

/// The consoles by their guests' numbers, with what was written to them.
pub fn outputs<F: Listing>(alloc: Global, files: &F) -> Result<Outputs, NoMemory>
    ensures { IfOk result (λ outputs. outputs ≡ map output_of (entries (F.files files.now).consoles)) }
{
    let mut outputs = Items::new(alloc);
    let mut place = 0;
    'consoles: while let Some(pid) = files.console_at(place) {
        outputs.push(output_of(alloc, files, pid)?)?;
        place += 1;
    }
    Ok(outputs)
}

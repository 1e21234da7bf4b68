// The boot of a job and its images.
ghost use Rattle.file_model.specs.Files.{Files};
ghost use Rattle.hybrid_model.specs.Boot.{boot, shortage};
ghost use Rattle.job_model.specs.Prepared.{IsPrepared};
ghost use Rattle.kernel_tables.specs.Shown.{node_of};
ghost use Rattle.mck_word.specs.Maps.{keys};
ghost use Rattle.node_machine.specs.Booting.{BootFails};
ghost use Rattle.pair_core.specs.Shown.{pair_of};
ghost use Rattle.std.specs.Prelude.{◌≡◌, IfOk, MatchResult, None, map};

use crate::members::Members;
use crate::pair::Pair;
use job_files::JobFiles;
use job_model::{Image, Job};
use kernel_tables::KernelTables;
use mck_word::{NoMemory, Pid};
use node_machine::BootError;
use page_map::PageTable;
use pair_core::Parts;
use std::alloc::Global;

/// The numbers of the processes, rising.
fn numbers(alloc: Global, node: &KernelTables) -> Result<Vec<Pid>, NoMemory>
    ensures { IfOk result (λ pids. (files : Files) → map (λ p. p.0) pids.items ≡ keys (node_of node.now files).processes) }
{
    let mut pids = Vec::new(alloc);
    let mut rest = node.processes.rows();
    while let Some((row, more)) = rest.split_first() {
        pids.push(Pid(row.0 as u32))?;
        rest = more;
    }
    Ok(pids)
}

impl<T: PageTable + Drop, F: JobFiles> Pair<T, F> {
    /// The two kernels at the boot of a job and its images. `NoFrames` names the first guest for which the frames
    /// don't suffice.
    pub fn boot(alloc: Global, job: &Job, images: &[Image]) -> Result<Self, BootError>
        requires { IsPrepared job.now images.now }
        ensures state { IfOk result (λ x. pair_of T.rows F.files x.parts ≡ boot job.now images.now) }
        ensures frames { MatchResult result (λ _. shortage job.now images.now ≡ None) (λ e. BootFails e (shortage job.now images.now)) }
    {
        let parts: Parts<T, F> = Parts::boot(alloc, job, images)?;
        let pids = numbers(alloc, &parts.lwk.node)?;
        let members = Members::of_table(alloc, parts.lwk.cores, &parts.lwk.node.threads)?;
        Ok(Pair {
            alloc,
            parts,
            pids,
            members,
        })
    }
}

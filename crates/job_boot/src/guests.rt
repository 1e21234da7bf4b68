// What a guest has in the tables at the boot: its process and its first thread.
ghost use Rattle.file_model.specs.Files.{Files};
ghost use Rattle.job_boot.specs.Guests.{IsBefore, begun, new_process, without_guests};
ghost use Rattle.job_model.specs.Prepared.{IsForGuest};
ghost use Rattle.kernel_model.specs.OneKernel.{boot_files};
ghost use Rattle.kernel_tables.specs.Shown.{node_of, shown_process};
ghost use Rattle.std.specs.Prelude.{◌≡◌, ◌≤◌, All, IfOk, OnOk, length};

use crate::script::boot_script;
use job_model::Job;
use kernel_model::Life;
use kernel_tables::{KernelTables, Process};
use lwk_signals::Actions;
use mck_flags::SigSet;
use mck_word::{NoMemory, Pid, Regs, Tid};
use std::alloc::Global;

/// The tables before the first guest, with the script.
pub fn boot_node(alloc: Global, job: &Job) -> Result<KernelTables, NoMemory>
    requires { All (IsForGuest (length job.now.guests)) job.now.signals }
    ensures { IfOk result (λ node. node_of node (boot_files job.now) ≡ without_guests job.now) }
{
    let mut node = KernelTables::new(alloc, job.frames, job.limit);
    node.unsent = boot_script(alloc, job)?;
    Ok(node)
}

/// The process of a guest whose heap begins there.
fn new_process(base: u64) -> Process
    ensures is { shown_process result ≡ new_process base }
    ensures new { result.instructions ≡ 0 }
{
    Process {
        parent: Pid(0),
        waited: false,
        first_code: None,
        life: Life::Living,
        instructions: 0,
        actions: Actions::new(),
        pending: SigSet(0),
        program_break: base,
        heap_base: base,
    }
}

/// Makes room for the process of a guest and its thread. The node stays, also where memory lacks.
pub fn reserve_guest(node: &mut KernelTables) -> Result<(), NoMemory>
    ensures node { (files : Files) → node_of node.new files ≡ node_of node.old files }
    ensures process { OnOk result (1 ≤ node.new.processes.spare) }
    ensures thread { OnOk result (1 ≤ node.new.threads.spare) }
{
    node.reserve_process()?;
    node.reserve_thread()
}

/// Puts the process of a guest in whose heap begins there, and its thread with these registers, which has the same number.
pub fn put_guest(node: &mut KernelTables, number: u32, regs: Regs, base: u64)
    requires process_room { 1 ≤ node.old.processes.spare }
    requires thread_room { 1 ≤ node.old.threads.spare }
    requires most { number ≤ 16 }
    requires before { (files : Files) → IsBefore number (node_of node.old files) }
    ensures { (files : Files) → node_of node.new files ≡ begun number regs base (node_of node.old files) }
{
    let _all = node.instructions_in_all();
    node.put_process(Pid(number), new_process(base));
    node.begin_thread(Pid(number), Tid(number), regs, SigSet(0), 0);
}

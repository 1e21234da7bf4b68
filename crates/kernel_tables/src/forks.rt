// The process that a fork makes.
ghost use Rattle.std.specs.Prelude.{◌≡◌, ◌≤◌, ◌<◌, ◌+◌, ◌-◌, ◌^◌, IsTrue, IsSome, slice_index};
ghost use Rattle.file_model.specs.Files.{Files, share};
ghost use Rattle.kernel_model.specs.CloneCalls.{child_process, with_child};
ghost use Rattle.kernel_model.specs.Nodes.{has_process, has_thread, process_of, thread_of};
ghost use Rattle.mck_word.specs.Maps.{at};
ghost use Rattle.kernel_tables.specs.Shown.{node_of, shown_process};

use crate::process_rows::Process;
use crate::tables::KernelTables;
use crate::thread_rows;
use kernel_model::Life;
use lwk_threads::child_registers;
use lwk_threads::clone_values::clear_of_clone;
use mck_flags::SigSet;
use mck_word::{Pid, Tid};

#[tactic(auto, using(crate::proofs::Rows::process_at, crate::proofs::Rows::thread_at))]
impl KernelTables {
    /// A child of the process: with its actions and its break, and nothing of what happened to it.
    fn child_of(&self, p: Pid) -> Process
        requires { IsSome (at self.now.processes.map p.0) }
        ensures is { (files : Files) → shown_process result ≡ child_process p.0 (process_of (node_of self.now files) p.0) }
        ensures new { result.instructions ≡ 0 }
    {
        match self.processes.process(p) {
            Some(x) => Process {
                parent: p,
                waited: false,
                first_code: None,
                life: Life::Living,
                instructions: 0,
                actions: x.actions.copied(),
                pending: SigSet(0),
                program_break: x.program_break,
                heap_base: x.heap_base,
            },
            None => unreachable!(),
        }
    }

    /// Puts a process in that the caller of a fork call with these arguments makes, with its first thread, and answers its number. Its
    /// files are shared elsewhere.
    pub fn fork(&mut self, t: Tid, args: &[u64; 6]) -> Pid
        requires process_room { 1 ≤ self.old.processes.spare }
        requires thread_room { 1 ≤ self.old.threads.spare }
        requires lives { (files : Files) → IsTrue (has_thread (node_of self.old files) t.0) }
        requires there { (files : Files) → IsTrue (has_process (node_of self.old files) (thread_of (node_of self.old files) t.0).process) }
        requires below { (files : Files) → (node_of self.old files).next_number < 2 ^ 32 - 1 }
        ensures number { (files : Files) → result.0 ≡ (node_of self.old files).next_number }
        ensures node { (files : Files) → node_of self.new (share (thread_of (node_of self.old files) t.0).process result.0 files) ≡ with_child t.0 result.0 (slice_index args.now 0) (slice_index args.now 1) (slice_index args.now 3) (slice_index args.now 4) (node_of self.old files) }
        ensures takes_process { self.old.processes.spare ≤ self.new.processes.spare + 1 }
        ensures takes_thread { self.old.threads.spare ≤ self.new.threads.spare + 1 }
        ensures sleepers { self.new.sleepers ≡ self.old.sleepers }
    {
        // The instructions of all, which don't grow by a child, fit.
        let _all = self.processes.instructions();
        let number = self.threads.fresh();
        let child = Pid(number.0);
        let Some(x) = self.threads.thread(t) else {
            unreachable!()
        };
        let parent = x.pid;
        let mask = x.mask;
        let regs = child_registers(&x.regs, args);
        let process = self.child_of(parent);
        self.processes.put(child, process);
        thread_rows::begin(
            &mut self.threads,
            child,
            number,
            regs,
            mask,
            clear_of_clone(args),
        );
        child
    }
}

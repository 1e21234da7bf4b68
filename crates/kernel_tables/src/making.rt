// Room in the tables, and the processes, threads and sleepers that are put in.
ghost use Rattle.std.specs.Prelude.{◌≡◌, ◌≤◌, ◌<◌, ◌+◌, ◌-◌, ◌^◌, ◌==◌, IsTrue, OnOk, false, length, max, slice_index};
ghost use Rattle.std.specs.List.{list_any};
ghost use Rattle.file_model.specs.Files.{Files};
ghost use Rattle.kernel_model.specs.CloneCalls.{cloned_thread, with_thread};
ghost use Rattle.kernel_model.specs.LocalCalls.{falls_asleep, waiters};
ghost use Rattle.kernel_model.specs.Nodes.{has_thread, most_threads, thread_of, threads_of};
ghost use Rattle.kernel_model.specs.declared.Does.TheVariants.{Ready};
ghost use Rattle.mck_word.specs.Maps.{put};
ghost use Rattle.kernel_tables.specs.Room.{KeepsRoom};
ghost use Rattle.kernel_tables.specs.Shown.{node_of, shown_process};
ghost use Rattle.kernel_tables.specs.Totals.{instructions_in};

use crate::process_rows::Process;
use crate::tables::KernelTables;
use crate::thread_rows;
use kernel_model::Does;
use mck_flags::SigSet;
use mck_word::{NoMemory, Pid, Regs, Tid};

impl KernelTables {
    /// Makes room for one process. The node stays, also where memory lacks.
    pub fn reserve_process(&mut self) -> Result<(), NoMemory>
        ensures node { (files : Files) → node_of self.new files ≡ node_of self.old files }
        ensures room { KeepsRoom self.old self.new }
        ensures one { OnOk result (1 ≤ self.new.processes.spare) }
    {
        self.processes.reserve()
    }

    /// Makes room for one thread. The node stays, also where memory lacks.
    pub fn reserve_thread(&mut self) -> Result<(), NoMemory>
        ensures node { (files : Files) → node_of self.new files ≡ node_of self.old files }
        ensures room { KeepsRoom self.old self.new }
        ensures one { OnOk result (1 ≤ self.new.threads.spare) }
    {
        self.threads.reserve()
    }

    /// Makes room for one sleeper. The node stays, also where memory lacks.
    pub fn reserve_sleeper(&mut self) -> Result<(), NoMemory>
        ensures node { (files : Files) → node_of self.new files ≡ node_of self.old files }
        ensures room { KeepsRoom self.old self.new }
        ensures one { OnOk result (1 ≤ self.new.sleepers.spare) }
    {
        self.sleepers.reserve()
    }

    /// Puts a process in, in place of the one of that number where there is one.
    pub fn put_process(&mut self, p: Pid, process: Process)
        requires room { 1 ≤ self.old.processes.spare }
        requires fits { instructions_in self.old.processes.map + process.instructions < 2 ^ 64 }
        ensures node { (files : Files) → node_of self.new files ≡ record (node_of self.old files) { processes = put (node_of self.old files).processes p.0 (shown_process process) } }
        ensures map { self.new.processes.map ≡ put self.old.processes.map p.0 process }
        ensures takes { self.old.processes.spare ≤ self.new.processes.spare + 1 }
        ensures threads { self.new.threads ≡ self.old.threads }
        ensures sleepers { self.new.sleepers ≡ self.old.sleepers }
    {
        self.processes.put(p, process);
    }

    /// Puts the first thread of a process in that has none: it is Ready, its place is 0, and nothing is pending.
    pub fn begin_thread(&mut self, p: Pid, t: Tid, regs: Regs, mask: SigSet, clear: u64)
        requires room { 1 ≤ self.old.threads.spare }
        requires alone { (files : Files) → length (threads_of (node_of self.old files) p.0) ≡ 0 }
        requires known { p.0 ≤ t.0 }
        requires below { t.0 < 2 ^ 32 - 1 }
        requires unused { (files : Files) → has_thread (node_of self.old files) t.0 ≡ false }
        ensures node { (files : Files) → node_of self.new files ≡ record (node_of self.old files) {
          threads = put (node_of self.old files).threads t.0 (record { process = p.0; place = 0; regs = regs; mask = mask.0; pending = 0; clear_address = clear; back = false; does = Ready });
          next_number = max (node_of self.old files).next_number (t.0 + 1);
        } }
        ensures takes { self.old.threads.spare ≤ self.new.threads.spare + 1 }
        ensures processes { self.new.processes ≡ self.old.processes }
        ensures sleepers { self.new.sleepers ≡ self.old.sleepers }
    {
        thread_rows::begin(&mut self.threads, p, t, regs, mask, clear);
    }

    /// Puts a thread in beside the caller of a clone call with these arguments, and answers its number.
    pub fn clone_thread(&mut self, t: Tid, args: &[u64; 6]) -> Tid
        requires room { 1 ≤ self.old.threads.spare }
        requires lives { (files : Files) → IsTrue (has_thread (node_of self.old files) t.0) }
        requires few { (files : Files) → length (threads_of (node_of self.old files) (thread_of (node_of self.old files) t.0).process) < most_threads }
        requires below { (files : Files) → (node_of self.old files).next_number < 2 ^ 32 - 1 }
        ensures number { (files : Files) → result.0 ≡ (node_of self.old files).next_number }
        ensures node { (files : Files) → node_of self.new files ≡ with_thread (cloned_thread (node_of self.old files) (thread_of (node_of self.old files) t.0) (slice_index args.now 0) (slice_index args.now 1) (slice_index args.now 3) (slice_index args.now 4)) (node_of self.old files) }
        ensures takes { self.old.threads.spare ≤ self.new.threads.spare + 1 }
        ensures processes { self.new.processes ≡ self.old.processes }
        ensures sleepers { self.new.sleepers ≡ self.old.sleepers }
    {
        self.threads.clone_thread(t, args, Does::Ready)
    }

    /// The thread sleeps at the address from now on.
    pub fn falls_asleep(&mut self, t: Tid, address: u64)
        requires room { 1 ≤ self.old.sleepers.spare }
        requires awake { (files : Files) → list_any (λ s. s.thread == t.0) (node_of self.old files).sleepers ≡ false }
        requires few { (files : Files) → length (waiters (node_of self.old files) (thread_of (node_of self.old files) t.0).process address) < most_threads }
        ensures node { (files : Files) → node_of self.new files ≡ falls_asleep t.0 address (node_of self.old files) }
        ensures processes { self.old.processes.spare ≤ self.new.processes.spare }
        ensures threads { self.old.threads.spare ≤ self.new.threads.spare }
    {
        let p = self.process_of_thread(t);
        self.sleepers.wait(p, address, t);
        self.set_does(t, Does::Asleep(address));
    }
}

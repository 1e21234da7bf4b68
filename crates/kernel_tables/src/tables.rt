// The tables of a node, and what is looked up there.
ghost use Rattle.std.specs.Prelude.{◌≡◌, ◌≤◌, ◌<◌, ◌+◌, ◌-◌, ◌^◌, []};
ghost use Rattle.file_model.specs.Files.{Files};
ghost use Rattle.kernel_model.specs.CloneCalls.{parent_number};
ghost use Rattle.kernel_model.specs.Nodes.{action_of, has_process, has_thread, instructions_in_all, is_dying, is_ended, is_living, is_there, process_of, thread_of};
ghost use Rattle.mck_word.specs.Maps.{count, no_rows};
ghost use Rattle.kernel_tables.specs.Shown.{node_of};
ghost use Rattle.kernel_tables.specs.Totals.{instructions_in};

use crate::process_rows::Processes;
use crate::script_lines::ScriptLine;
use futex_queues::Sleepers;
use kernel_model::{Action, Does, Life};
use lwk_threads::ThreadTable;
use mck_flags::SigSet;
use mck_word::{End, NoMemory, Pid, Regs, Tid};
use std::alloc::Global;

/// The tables of a node.
#[derive(Drop)]
pub struct KernelTables {
    pub processes: Processes,
    pub threads: ThreadTable<Does>,
    pub sleepers: Sleepers,
    pub unsent: Vec<ScriptLine>,
    pub frame_count: u32,
    pub limit: u64,
}

#[tactic(auto, using(crate::proofs::Rows::process_at, crate::proofs::Rows::thread_at, crate::proofs::Rows::all_instructions, crate::proofs::Rows::limit_is, crate::proofs::Rows::next_is))]
impl KernelTables {
    /// A node without processes, threads, sleepers and lines. Can't fail.
    pub fn new(alloc: Global, frame_count: u32, limit: u64) -> KernelTables
        ensures { (files : Files) → node_of result files ≡ record { processes = no_rows; threads = no_rows; sleepers = []; files = files; unsent = []; next_number = 17; frame_count = frame_count; limit = limit } }
    {
        KernelTables {
            processes: Processes::new(alloc),
            threads: ThreadTable::new(alloc),
            sleepers: Sleepers::new(alloc),
            unsent: Vec::new(alloc),
            frame_count,
            limit,
        }
    }

    /// Whether there is the process.
    pub fn has_process(&self, p: Pid) -> bool
        ensures { (files : Files) → result ≡ has_process (node_of self.now files) p.0 }
    {
        self.processes.process(p).is_some()
    }

    /// How many processes were made.
    #[tactic(auto, using(crate::proofs::Counted::count_shown))]
    pub fn process_count(&self) -> usize
        ensures { (files : Files) → result ≡ count (node_of self.now files).processes }
    {
        self.processes.count()
    }

    /// How far the process's life is; one that isn't there has ended.
    pub fn life(&self, p: Pid) -> Life
        ensures { (files : Files) → result ≡ (process_of (node_of self.now files) p.0).life }
    {
        match self.processes.process(p) {
            Some(x) => x.life,
            None => Life::Ended(End::Exit(0)),
        }
    }

    /// Whether the process lives.
    pub fn is_living(&self, p: Pid) -> bool
        ensures { (files : Files) → result ≡ is_living (node_of self.now files) p.0 }
    {
        matches!(self.life(p), Life::Living)
    }

    /// Whether the process dies.
    pub fn is_dying(&self, p: Pid) -> bool
        ensures { (files : Files) → result ≡ is_dying (node_of self.now files) p.0 }
    {
        matches!(self.life(p), Life::Dying(_))
    }

    /// Whether the process is Ended, or isn't there.
    pub fn is_ended(&self, p: Pid) -> bool
        ensures { (files : Files) → result ≡ is_ended (node_of self.now files) p.0 }
    {
        matches!(self.life(p), Life::Ended(_))
    }

    /// Whether the process was made and isn't Ended.
    pub fn is_there(&self, p: Pid) -> bool
        ensures { (files : Files) → result ≡ is_there (node_of self.now files) p.0 }
    {
        self.has_process(p) && !self.is_ended(p)
    }

    /// The process's parent, or 0 where there is none.
    pub fn parent(&self, p: Pid) -> Pid
        ensures { (files : Files) → result.0 ≡ (process_of (node_of self.now files) p.0).parent }
    {
        match self.processes.process(p) {
            Some(x) => x.parent,
            None => Pid(0),
        }
    }

    /// The parent's number, or 0 where it is Ended or there is none.
    pub fn parent_number(&self, p: Pid) -> u32
        ensures { (files : Files) → result ≡ parent_number (node_of self.now files) p.0 }
    {
        let parent = self.parent(p);
        if self.is_there(parent) { parent.0 } else { 0 }
    }

    /// The instructions of the process.
    pub fn instructions(&self, p: Pid) -> u64
        ensures { (files : Files) → result ≡ (process_of (node_of self.now files) p.0).instructions }
    {
        match self.processes.process(p) {
            Some(x) => x.instructions,
            None => 0,
        }
    }

    /// The process's program break.
    pub fn program_break(&self, p: Pid) -> u64
        ensures { (files : Files) → result ≡ (process_of (node_of self.now files) p.0).program_break }
    {
        match self.processes.process(p) {
            Some(x) => x.program_break,
            None => 0,
        }
    }

    /// Where the process's heap begins.
    pub fn heap_base(&self, p: Pid) -> u64
        ensures { (files : Files) → result ≡ (process_of (node_of self.now files) p.0).heap_base }
    {
        match self.processes.process(p) {
            Some(x) => x.heap_base,
            None => 0,
        }
    }

    /// The signals that are pending for the process.
    pub fn shared_pending(&self, p: Pid) -> SigSet
        ensures { (files : Files) → result.0 ≡ (process_of (node_of self.now files) p.0).pending }
    {
        match self.processes.process(p) {
            Some(x) => x.pending,
            None => SigSet(0),
        }
    }

    /// What the process does at the signal.
    pub fn action(&self, p: Pid, signal: u32) -> Action
        requires least { 1 ≤ signal }
        requires most { signal ≤ 64 }
        ensures { (files : Files) → result ≡ action_of (process_of (node_of self.now files) p.0) signal }
    {
        match self.processes.process(p) {
            Some(x) => x.actions.of(signal),
            None => Action {
                handler: 0,
                flags: 0,
                mask: SigSet(0),
            },
        }
    }

    /// The instructions of all processes together.
    pub fn instructions_in_all(&self) -> u64
        ensures is { (files : Files) → result ≡ instructions_in_all (node_of self.now files) }
        ensures kept { result ≡ instructions_in self.now.processes.map }
    {
        self.processes.instructions()
    }

    /// How many instructions the limit leaves.
    pub fn left_of_limit(&self) -> u64
        ensures is { (files : Files) → result ≡ (node_of self.now files).limit - instructions_in_all (node_of self.now files) }
        ensures fits { instructions_in self.now.processes.map + result < 2 ^ 64 }
    {
        self.limit.saturating_sub(self.processes.instructions())
    }

    /// Whether the thread lives.
    pub fn has_thread(&self, t: Tid) -> bool
        ensures { (files : Files) → result ≡ has_thread (node_of self.now files) t.0 }
    {
        self.threads.thread(t).is_some()
    }

    /// The process of the thread, or 0 where it doesn't live.
    pub fn process_of_thread(&self, t: Tid) -> Pid
        ensures { (files : Files) → result.0 ≡ (thread_of (node_of self.now files) t.0).process }
    {
        match self.threads.thread(t) {
            Some(x) => x.pid,
            None => Pid(0),
        }
    }

    /// The thread's place, one of sixteen in its process, or 0 where it doesn't live.
    pub fn place(&self, t: Tid) -> u32
        ensures { (files : Files) → result ≡ (thread_of (node_of self.now files) t.0).place }
    {
        match self.threads.thread(t) {
            Some(x) => x.place,
            None => 0,
        }
    }

    /// What the thread does; one that doesn't live is Ready.
    pub fn does(&self, t: Tid) -> Does
        ensures { (files : Files) → result ≡ (thread_of (node_of self.now files) t.0).does }
    {
        match self.threads.thread(t) {
            Some(x) => x.state,
            None => Does::Ready,
        }
    }

    /// The thread's registers.
    pub fn regs(&self, t: Tid) -> Regs
        ensures { (files : Files) → result ≡ (thread_of (node_of self.now files) t.0).regs }
    {
        match self.threads.thread(t) {
            Some(x) => x.regs,
            None => Regs { pc: 0, x: [0; 32] },
        }
    }

    /// The thread's mask.
    pub fn mask(&self, t: Tid) -> SigSet
        ensures { (files : Files) → result.0 ≡ (thread_of (node_of self.now files) t.0).mask }
    {
        match self.threads.thread(t) {
            Some(x) => x.mask,
            None => SigSet(0),
        }
    }

    /// The signals that are pending for the thread alone.
    pub fn own_pending(&self, t: Tid) -> SigSet
        ensures { (files : Files) → result.0 ≡ (thread_of (node_of self.now files) t.0).pending }
    {
        match self.threads.thread(t) {
            Some(x) => x.pending,
            None => SigSet(0),
        }
    }

    /// The address that is cleared when the thread ends, or 0.
    pub fn clear_address(&self, t: Tid) -> u64
        ensures { (files : Files) → result ≡ (thread_of (node_of self.now files) t.0).clear_address }
    {
        match self.threads.thread(t) {
            Some(x) => x.clear,
            None => 0,
        }
    }

    /// Whether the thread stands back on an interrupted ecall.
    pub fn stands_back(&self, t: Tid) -> bool
        ensures { (files : Files) → result ≡ (thread_of (node_of self.now files) t.0).back }
    {
        match self.threads.thread(t) {
            Some(x) => x.back,
            None => false,
        }
    }

    /// The number of the next thread or process.
    pub fn next_number(&self) -> u32
        ensures { (files : Files) → result ≡ (node_of self.now files).next_number }
    {
        self.threads.fresh().0
    }
}

// When a step of a thread, a line or a process may happen.
ghost use Rattle.std.specs.Prelude.{◌≡◌, ◌≤◌, MatchOption, option_map, find, ◌&&◌, ◌==◌};
ghost use Rattle.std.specs.Option.{option_copied};
ghost use Rattle.file_model.specs.Files.{Files};
ghost use Rattle.kernel_model.specs.Nodes.{is_called, thread_of};
ghost use Rattle.kernel_model.specs.Signals.{is_deliverable, next_of_sets, next_signal};
ghost use Rattle.std.specs.List.{list_any};
ghost use Rattle.kernel_model.specs.Steps.{may_change, may_end, some_called};
ghost use Rattle.kernel_model.specs.Traps.{line_of, may_be_called_back, may_be_marked, may_deliver, may_run, may_script, may_trap};
ghost use Rattle.kernel_tables.specs.Shown.{node_of, shown_line};

use crate::script_lines::ScriptLine;
use crate::tables::KernelTables;
use kernel_model::Does;
use lwk_signals::choose;
use lwk_threads::Thread;
use mck_flags::SigSet;
use mck_word::{Pid, Tid};

/// The lowest signal of either set that isn't masked, which is one of 1 to 64.
fn chosen(own: SigSet, shared: SigSet, mask: SigSet) -> Option<u32>
    ensures is { result ≡ next_of_sets own.0 shared.0 mask.0 }
    ensures least { MatchOption result (Unit {0}) (λ s. 1 ≤ s) }
    ensures most { MatchOption result (Unit {0}) (λ s. s ≤ 64) }
{
    choose(own, shared, mask)
}

/// The line of that index.
fn find_line(lines: &[ScriptLine], k: u32) -> Option<&ScriptLine>
    ensures { option_copied result ≡ find (λ x. x.index == k) lines.now }
{
    lines.iter().find(|x| x.index == k)
}

/// Whether one of the threads is of the process and has a call.
fn any_called(rows: &[(u64, Thread<Does>)], p: Pid) -> bool
    ensures { result ≡ list_any (λ e. e.1.pid.0 == p.0 && is_called e.1.state) rows.now }
{
    rows.iter()
        .any(|e| e.1.pid.0 == p.0 && matches!(e.1.state, Does::Called))
}

#[tactic(auto, using(crate::proofs::Rows::process_at, crate::proofs::Rows::thread_at))]
impl KernelTables {
    /// The thread's process, its own pending set and its mask.
    fn sets_of(&self, t: Tid) -> (Pid, SigSet, SigSet)
        ensures process { (files : Files) → result.0.0 ≡ (thread_of (node_of self.now files) t.0).process }
        ensures own { (files : Files) → result.1.0 ≡ (thread_of (node_of self.now files) t.0).pending }
        ensures mask { (files : Files) → result.2.0 ≡ (thread_of (node_of self.now files) t.0).mask }
    {
        match self.threads.thread(t) {
            Some(x) => (x.pid, x.pending, x.mask),
            None => (Pid(0), SigSet(0), SigSet(0)),
        }
    }

    /// The next signal of the thread: the lowest that is pending for it or its process and that it doesn't mask.
    pub fn next_signal(&self, t: Tid) -> Option<u32>
        ensures is { (files : Files) → result ≡ next_signal (node_of self.now files) t.0 }
        ensures least { MatchOption result (Unit {0}) (λ s. 1 ≤ s) }
        ensures most { MatchOption result (Unit {0}) (λ s. s ≤ 64) }
    {
        let (pid, own, mask) = self.sets_of(t);
        let shared = self.shared_pending(pid);
        chosen(own, shared, mask)
    }

    /// Whether a signal is deliverable to the thread.
    pub fn is_deliverable(&self, t: Tid) -> bool
        ensures { (files : Files) → result ≡ is_deliverable (node_of self.now files) t.0 }
    {
        self.next_signal(t).is_some()
    }

    /// Whether the thread may execute an instruction, as far as the limit allows it: it is Ready, its process lives, and no signal is
    /// deliverable to it.
    pub fn may_run(&self, t: Tid) -> bool
        ensures { (files : Files) → result ≡ may_run (node_of self.now files) t.0 }
    {
        match self.threads.thread(t) {
            Some(x) => {
                matches!(x.state, Does::Ready) && self.is_living(x.pid) && !self.is_deliverable(t)
            }
            None => false,
        }
    }

    /// Whether the thread is stopped, in a process that lives.
    pub fn may_trap(&self, t: Tid) -> bool
        ensures { (files : Files) → result ≡ may_trap (node_of self.now files) t.0 }
    {
        match self.threads.thread(t) {
            Some(x) => matches!(x.state, Does::Stopped(_)) && self.is_living(x.pid),
            None => false,
        }
    }

    /// Whether a signal may be delivered to the thread.
    pub fn may_deliver(&self, t: Tid) -> bool
        ensures { (files : Files) → result ≡ may_deliver (node_of self.now files) t.0 }
    {
        match self.threads.thread(t) {
            Some(x) => {
                matches!(x.state, Does::Ready) && self.is_living(x.pid) && self.is_deliverable(t)
            }
            None => false,
        }
    }

    /// Whether the thread changes the memory of its process.
    pub fn may_change(&self, t: Tid) -> bool
        ensures { (files : Files) → result ≡ may_change (node_of self.now files) t.0 }
    {
        match self.threads.thread(t) {
            Some(x) => matches!(x.state, Does::InVm(_)),
            None => false,
        }
    }

    /// Whether a signal is deliverable to the thread, which rests.
    pub fn may_be_called_back(&self, t: Tid) -> bool
        ensures { (files : Files) → result ≡ may_be_called_back (node_of self.now files) t.0 }
    {
        match self.threads.thread(t) {
            Some(x) => {
                matches!(x.state, Does::Asleep(_) | Does::InWait { .. })
                    && self.is_living(x.pid)
                    && self.is_deliverable(t)
            }
            None => false,
        }
    }

    /// Whether the call of the thread may be marked.
    pub fn may_be_marked(&self, t: Tid) -> bool
        ensures { (files : Files) → result ≡ may_be_marked (node_of self.now files) t.0 }
    {
        self.is_deliverable(t) || self.is_dying(self.process_of_thread(t))
    }

    /// The unsent line of that index: None exactly where there is none.
    #[tactic(auto, using(crate::proofs::Lines::line_found))]
    pub fn line(&self, k: u32) -> Option<&ScriptLine>
        ensures { (files : Files) → option_map shown_line (option_copied result) ≡ line_of (node_of self.now files) k }
    {
        find_line(&self.unsent, k)
    }

    /// Whether the line may send its signal: its process lives, and has executed as many instructions as it says.
    pub fn may_script(&self, k: u32) -> bool
        ensures { (files : Files) → result ≡ may_script (node_of self.now files) k }
    {
        match self.line(k) {
            Some(l) => self.is_living(l.process) && l.after <= self.instructions(l.process),
            None => false,
        }
    }

    /// Whether a thread of the process has a call.
    #[tactic(auto, using(crate::proofs::Passing::called_shown))]
    pub fn some_called(&self, p: Pid) -> bool
        ensures { (files : Files) → result ≡ some_called (node_of self.now files) p.0 }
    {
        any_called(self.threads.rows(), p)
    }

    /// Whether the process may end: it dies, and none of its threads has a call.
    pub fn may_end(&self, p: Pid) -> bool
        ensures { (files : Files) → result ≡ may_end (node_of self.now files) p.0 }
    {
        self.is_dying(p) && !self.some_called(p)
    }
}

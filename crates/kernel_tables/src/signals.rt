// Signals that are generated, taken and raised, and the actions of a process.
ghost use Rattle.std.specs.Prelude.{◌≡◌, ◌≤◌, Some};
ghost use Rattle.file_model.specs.Errno.{EINTR, EPIPE};
ghost use Rattle.file_model.specs.Files.{Files};
ghost use Rattle.kernel_model.specs.Nodes.{change_process, change_thread, dies, process_of};
ghost use Rattle.kernel_model.specs.SignalSets.{with_signal as set_with, without_signal as set_without};
ghost use Rattle.kernel_model.specs.Signals.{drop_ignored, generate_for_process, generate_for_thread, ignores, moved_to_own, raised, taken, with_action};
ghost use Rattle.kernel_model.specs.Traps.{called_back, is_error, returns, returns_living};
ghost use Rattle.kernel_model.specs.declared.Does.TheVariants.{Ready};
ghost use Rattle.kernel_tables.specs.Room.{KeepsRoom};
ghost use Rattle.kernel_tables.specs.Shown.{node_of};
ghost use Rattle.kernel_tables.specs.Steps.{threads_without_pending};

use crate::tables::KernelTables;
use crate::{passes, thread_rows};
use kernel_model::{Action, Does};
use lwk_signals::has;
use mck_word::{End, Pid, Tid};
use system_calls::errors;

/// Whether the answer says that the call was interrupted.
fn is_eintr(answer: i64) -> bool
    ensures { result ≡ is_error EINTR answer }
{
    answer == errors::EINTR
}

/// Whether the answer says that nobody reads the pipe.
fn is_epipe(answer: i64) -> bool
    ensures { result ≡ is_error EPIPE answer }
{
    answer == errors::EPIPE
}

#[tactic(auto, using(crate::proofs::Rows::process_at, crate::proofs::Rows::thread_at))]
impl KernelTables {
    /// Whether the process ignores the signal, by its action or by default.
    pub fn ignores(&self, p: Pid, signal: u32) -> bool
        requires least { 1 ≤ signal }
        requires most { signal ≤ 64 }
        ensures { (files : Files) → result ≡ ignores (process_of (node_of self.now files) p.0) signal }
    {
        match self.processes.process(p) {
            Some(x) => x.actions.ignores(signal),
            None => matches!(signal, 17 | 18 | 23 | 28),
        }
    }

    /// The process dies with that end, where it lives.
    pub fn dies(&mut self, p: Pid, end: End)
        ensures node { (files : Files) → node_of self.new files ≡ change_process p.0 (dies end) (node_of self.old files) }
        ensures room { KeepsRoom self.old self.new }
    {
        self.processes.dies(p, end);
    }

    /// A signal is pending for the process.
    fn pend_process(&mut self, p: Pid, signal: u32)
        requires least { 1 ≤ signal }
        requires most { signal ≤ 64 }
        ensures node { (files : Files) → node_of self.new files ≡ change_process p.0 (λ x. record x { pending = set_with signal x.pending }) (node_of self.old files) }
        ensures room { KeepsRoom self.old self.new }
    {
        self.processes.pend(p, signal);
    }

    /// A signal is pending for the process no longer.
    fn unpend_process(&mut self, p: Pid, signal: u32)
        requires least { 1 ≤ signal }
        requires most { signal ≤ 64 }
        ensures node { (files : Files) → node_of self.new files ≡ change_process p.0 (λ x. record x { pending = set_without signal x.pending }) (node_of self.old files) }
        ensures room { KeepsRoom self.old self.new }
    {
        self.processes.unpend(p, signal);
    }

    /// A signal is pending for the thread.
    fn pend_thread(&mut self, t: Tid, signal: u32)
        requires least { 1 ≤ signal }
        requires most { signal ≤ 64 }
        ensures node { (files : Files) → node_of self.new files ≡ change_thread t.0 (λ x. record x { pending = set_with signal x.pending }) (node_of self.old files) }
        ensures room { KeepsRoom self.old self.new }
    {
        thread_rows::pend(&mut self.threads, t, signal);
    }

    /// A signal is pending for the thread no longer.
    fn unpend_thread(&mut self, t: Tid, signal: u32)
        requires least { 1 ≤ signal }
        requires most { signal ≤ 64 }
        ensures node { (files : Files) → node_of self.new files ≡ change_thread t.0 (λ x. record x { pending = set_without signal x.pending }) (node_of self.old files) }
        ensures room { KeepsRoom self.old self.new }
    {
        thread_rows::unpend(&mut self.threads, t, signal);
    }

    /// Generates a signal for the process, which drops it where it ignores it.
    pub fn generate_for_process(&mut self, p: Pid, signal: u32)
        requires least { 1 ≤ signal }
        requires most { signal ≤ 64 }
        ensures node { (files : Files) → node_of self.new files ≡ generate_for_process p.0 signal (node_of self.old files) }
        ensures room { KeepsRoom self.old self.new }
    {
        if !self.ignores(p, signal) {
            self.pend_process(p, signal);
        }
    }

    /// Generates a signal for the thread, whose process drops it where it ignores it.
    pub fn generate_for_thread(&mut self, t: Tid, signal: u32)
        requires least { 1 ≤ signal }
        requires most { signal ≤ 64 }
        ensures node { (files : Files) → node_of self.new files ≡ generate_for_thread t.0 signal (node_of self.old files) }
        ensures room { KeepsRoom self.old self.new }
    {
        let p = self.process_of_thread(t);
        if !self.ignores(p, signal) {
            self.pend_thread(t, signal);
        }
    }

    /// Takes the signal from the thread's own set, and from its process's where it isn't there.
    pub fn taken(&mut self, t: Tid, signal: u32)
        requires least { 1 ≤ signal }
        requires most { signal ≤ 64 }
        ensures node { (files : Files) → node_of self.new files ≡ taken t.0 signal (node_of self.old files) }
        ensures room { KeepsRoom self.old self.new }
    {
        let p = self.process_of_thread(t);
        let own = self.own_pending(t);
        if has(signal, own) {
            self.unpend_thread(t, signal);
        } else {
            self.unpend_process(p, signal);
        }
    }

    /// The signal that is next moves into the thread's own set.
    pub fn moved_to_own(&mut self, t: Tid)
        ensures node { (files : Files) → node_of self.new files ≡ moved_to_own t.0 (node_of self.old files) }
        ensures room { KeepsRoom self.old self.new }
    {
        if let Some(signal) = self.next_signal(t) {
            self.taken(t, signal);
            self.pend_thread(t, signal);
        }
    }

    /// A signal is pending for the thread, and it is Ready.
    fn pend_ready(&mut self, t: Tid, signal: u32)
        requires least { 1 ≤ signal }
        requires most { signal ≤ 64 }
        ensures node { (files : Files) → node_of self.new files ≡ change_thread t.0 (λ x. record x { pending = set_with signal x.pending; does = Ready }) (node_of self.old files) }
        ensures room { KeepsRoom self.old self.new }
    {
        self.pend_thread(t, signal);
        self.set_does(t, Does::Ready);
    }

    /// A signal of the thread's own making: blocked or ignored, it ends the process at once, else it is pending. The thread is Ready.
    pub fn raised(&mut self, t: Tid, signal: u32)
        requires least { 1 ≤ signal }
        requires most { signal ≤ 64 }
        ensures node { (files : Files) → node_of self.new files ≡ raised t.0 signal (node_of self.old files) }
        ensures room { KeepsRoom self.old self.new }
    {
        let p = self.process_of_thread(t);
        let mask = self.mask(t);
        if has(signal, mask) || self.ignores(p, signal) {
            self.set_does(t, Does::Ready);
            self.dies(p, End::Killed(signal));
        } else {
            self.pend_ready(t, signal);
        }
    }

    /// The thread of a call, whose process lives, gets its answer: one that was interrupted goes back on its ecall, and where nobody
    /// reads the pipe, signal 13 comes too.
    fn returns_living(&mut self, t: Tid, answer: i64)
        ensures node { (files : Files) → node_of self.new files ≡ returns_living t.0 answer (node_of self.old files) }
        ensures room { KeepsRoom self.old self.new }
    {
        if is_eintr(answer) {
            self.sent_back(t);
        } else if is_epipe(answer) {
            self.answered(t, answer);
            self.generate_for_thread(t, 13);
        } else {
            self.answered(t, answer);
        }
    }

    /// The thread of a call gets its answer; in a process that doesn't live it is gone.
    #[tactic(auto, unfolding(kernel_model::specs::Traps::returns))]
    pub fn returns(&mut self, t: Tid, answer: i64)
        ensures node { (files : Files) → node_of self.new files ≡ returns t.0 answer (node_of self.old files) }
        ensures room { KeepsRoom self.old self.new }
    {
        if self.is_living(self.process_of_thread(t)) {
            self.returns_living(t, answer);
        } else {
            self.without_thread(t);
        }
    }

    /// A resting thread is back on its ecall.
    #[tactic(auto, unfolding(kernel_model::specs::Traps::called_back))]
    pub fn called_back(&mut self, t: Tid)
        ensures node { (files : Files) → node_of self.new files ≡ called_back t.0 (node_of self.old files) }
        ensures room { KeepsRoom self.old self.new }
    {
        self.without_sleeper(t);
        self.sent_back(t);
    }

    /// Gives a signal another action.
    pub fn with_action(&mut self, p: Pid, signal: u32, a: Action)
        requires least { 1 ≤ signal }
        requires most { signal ≤ 64 }
        ensures node { (files : Files) → node_of self.new files ≡ with_action p.0 signal a (node_of self.old files) }
        ensures room { KeepsRoom self.old self.new }
    {
        self.processes.set_action(p, signal, a);
    }

    /// A signal is pending no longer for the threads of the process.
    fn unpend_threads(&mut self, p: Pid, signal: u32)
        requires least { 1 ≤ signal }
        requires most { signal ≤ 64 }
        ensures node { (files : Files) → node_of self.new files ≡ threads_without_pending p.0 signal (node_of self.old files) }
        ensures room { KeepsRoom self.old self.new }
    {
        passes::unpend_all(&mut self.threads, p, signal);
    }

    /// A signal that the process ignores from now on leaves all pending sets.
    pub fn drop_ignored(&mut self, p: Pid, signal: u32)
        requires least { 1 ≤ signal }
        requires most { signal ≤ 64 }
        ensures node { (files : Files) → node_of self.new files ≡ drop_ignored p.0 signal (node_of self.old files) }
        ensures room { KeepsRoom self.old self.new }
    {
        if self.ignores(p, signal) {
            self.unpend_process(p, signal);
            self.unpend_threads(p, signal);
        }
    }
}

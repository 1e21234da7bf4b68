// The wait for a child, and the threads that a futex call wakes.
ghost use Rattle.std.specs.Prelude.{◌≡◌, find, length, min, map, option_map, take, true};
ghost use Rattle.std.specs.List.{list_any};
ghost use Rattle.file_model.specs.Files.{Files};
ghost use Rattle.futex_queues.specs.Sleep.{thread_of as number_of_sleeper};
ghost use Rattle.kernel_model.specs.CloneCalls.{any_selected, ended_child, is_selected, is_selected_end, may_end_wait, selects};
ghost use Rattle.kernel_model.specs.LocalCalls.{waiters, wake};
ghost use Rattle.kernel_model.specs.Nodes.{change_process};
ghost use Rattle.kernel_model.specs.Traps.{may_wait};
ghost use Rattle.kernel_tables.specs.Room.{KeepsRoom};
ghost use Rattle.kernel_tables.specs.Shown.{node_of, shown_process};
ghost use Rattle.kernel_tables.specs.Steps.{all_answered, left_queue};

use crate::process_rows::Process;
use crate::tables::KernelTables;
use futex_queues::Woken;
use kernel_model::{Does, Life};
use mck_word::{Pid, Tid};

/// Whether the argument of wait4 selects the child of that number.
fn selects(pid: i32, child: u64) -> bool
    ensures { result ≡ selects pid child }
{
    if pid > 0 {
        pid as u64 == child
    } else {
        pid == 0 || pid == -1
    }
}

/// Whether the process is a child of the other, selected, whose end wasn't waited for.
fn is_selected(p: Pid, pid: i32, number: u64, x: &Process) -> bool
    ensures { result ≡ is_selected p.0 pid number (shown_process x.now) }
{
    x.parent.0 == p.0 && !x.waited && selects(pid, number)
}

/// Whether one of the processes is selected.
fn any_of(rows: &[(u64, Process)], p: Pid, pid: i32) -> bool
    ensures { result ≡ list_any (λ e. is_selected p.0 pid e.0 (shown_process e.1)) rows.now }
{
    rows.iter().any(|e| is_selected(p, pid, e.0, &e.1))
}

/// The lowest of the processes that is selected and Ended.
fn ended_of(rows: &[(u64, Process)], p: Pid, pid: i32) -> Option<u64>
    ensures { result ≡ option_map (λ e. e.0) (find (λ e. is_selected_end p.0 pid e.0 (shown_process e.1)) rows.now) }
{
    rows.iter()
        .find(|e| is_selected(p, pid, e.0, &e.1) && matches!(e.1.life, Life::Ended(_)))
        .map(|e| e.0)
}

#[tactic(auto, using(crate::proofs::Rows::process_at, crate::proofs::Rows::thread_at))]
impl KernelTables {
    /// The lowest selected child that is Ended.
    #[tactic(auto, using(crate::proofs::Passing::child_shown, crate::proofs::Passing::child_small))]
    pub fn ended_child(&self, p: Pid, pid: i32) -> Option<Pid>
        ensures { (files : Files) → option_map (λ q. q.0) result ≡ ended_child (node_of self.now files) p.0 pid }
    {
        let rows = self.processes.rows();
        match ended_of(rows, p, pid) {
            Some(number) => Some(Pid(number as u32)),
            None => None,
        }
    }

    /// Whether a child of the process is selected.
    #[tactic(auto, using(crate::proofs::Passing::selected_shown))]
    pub fn any_selected(&self, p: Pid, pid: i32) -> bool
        ensures { (files : Files) → result ≡ any_selected (node_of self.now files) p.0 pid }
    {
        any_of(self.processes.rows(), p, pid)
    }

    /// Whether a wait of the process is over: a selected child is Ended, or none is selected.
    pub fn may_end_wait(&self, p: Pid, pid: i32) -> bool
        ensures { (files : Files) → result ≡ may_end_wait (node_of self.now files) p.0 pid }
    {
        self.ended_child(p, pid).is_some() || !self.any_selected(p, pid)
    }

    /// Whether the wait of the thread is over, in a process that lives.
    pub fn may_wait(&self, t: Tid) -> bool
        ensures { (files : Files) → result ≡ may_wait (node_of self.now files) t.0 }
    {
        match self.threads.thread(t) {
            Some(x) => match x.state {
                Does::InWait { pid, .. } => self.is_living(x.pid) && self.may_end_wait(x.pid, pid),
                _ => false,
            },
            None => false,
        }
    }

    /// Notes that the end of the process was waited for.
    pub fn noted_waited(&mut self, child: Pid)
        ensures node { (files : Files) → node_of self.new files ≡ change_process child.0 (λ x. record x { waited = true }) (node_of self.old files) }
        ensures room { KeepsRoom self.old self.new }
    {
        self.processes.set_waited(child);
    }

    /// The threads answer 0, one after another.
    fn answer_all(&mut self, threads: &[Tid])
        ensures node { (files : Files) → node_of self.new files ≡ all_answered threads.now (node_of self.old files) }
        ensures room { KeepsRoom self.old self.new }
    {
        for t in threads {
            self.answered(*t, 0);
        }
    }

    /// Takes the first `n` that sleep there out of the queue, and answers their number.
    fn leave_queue(&mut self, p: Pid, address: u64, n: u32, woken: &mut Woken) -> u32
        ensures count { (files : Files) → result ≡ min n (length (waiters (node_of self.old files) p.0 address)) }
        ensures woken { (files : Files) → woken.new ≡ map number_of_sleeper (take n (waiters (node_of self.old files) p.0 address)) }
        ensures node { (files : Files) → node_of self.new files ≡ left_queue p.0 address n (node_of self.old files) }
        ensures room { KeepsRoom self.old self.new }
    {
        self.sleepers.wake(p, address, n, woken)
    }

    /// The first `n` that sleep at the address of the process wake and answer 0. Answers their number.
    pub fn wake(&mut self, p: Pid, address: u64, n: u32) -> u32
        ensures count { (files : Files) → result ≡ min n (length (waiters (node_of self.old files) p.0 address)) }
        ensures node { (files : Files) → node_of self.new files ≡ wake p.0 address n (node_of self.old files) }
        ensures room { KeepsRoom self.old self.new }
    {
        let mut woken = Woken::new();
        let count = self.leave_queue(p, address, n, &mut woken);
        self.answer_all(woken.as_slice());
        count
    }
}

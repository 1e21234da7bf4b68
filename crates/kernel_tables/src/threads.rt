// What a thread does, and the answers that it gets.
ghost use Rattle.std.specs.Prelude.{◌≡◌, ◌+◌, ◌<◌, ◌^◌, false};
ghost use Rattle.file_model.specs.Files.{Files};
ghost use Rattle.kernel_model.specs.Nodes.{answered, change_process, change_thread, sent_back, set_a0, set_does, set_pc, without_sleeper, without_thread};
ghost use Rattle.kernel_model.specs.declared.Does.TheVariants.{Ready};
ghost use Rattle.kernel_tables.specs.Totals.{instructions_in};
ghost use Rattle.kernel_model.specs.Steps.{set_break};
ghost use Rattle.kernel_model.specs.Traps.{finishes};
ghost use Rattle.kernel_tables.specs.Room.{KeepsRoom};
ghost use Rattle.kernel_tables.specs.Shown.{node_of};
ghost use Rattle.kernel_tables.specs.Steps.{ran_over};

use crate::tables::KernelTables;
use crate::thread_rows;
use kernel_model::Does;
use mck_flags::SigSet;
use mck_word::{Pid, Regs, Tid};

#[tactic(auto, using(crate::proofs::Rows::process_at, crate::proofs::Rows::thread_at))]
impl KernelTables {
    /// The thread does something else.
    pub fn set_does(&mut self, t: Tid, does: Does)
        ensures node { (files : Files) → node_of self.new files ≡ set_does t.0 does (node_of self.old files) }
        ensures room { KeepsRoom self.old self.new }
    {
        thread_rows::set_state(&mut self.threads, t, does);
    }

    /// The thread has other registers.
    pub fn set_regs(&mut self, t: Tid, regs: Regs)
        ensures node { (files : Files) → node_of self.new files ≡ change_thread t.0 (λ x. record x { regs = regs }) (node_of self.old files) }
        ensures room { KeepsRoom self.old self.new }
    {
        thread_rows::set_regs(&mut self.threads, t, regs);
    }

    /// The thread has another mask.
    pub fn set_mask(&mut self, t: Tid, mask: SigSet)
        ensures node { (files : Files) → node_of self.new files ≡ change_thread t.0 (λ x. record x { mask = mask.0 }) (node_of self.old files) }
        ensures room { KeepsRoom self.old self.new }
    {
        thread_rows::set_mask(&mut self.threads, t, mask);
    }

    /// The thread has another address that is cleared when it ends, or 0.
    pub fn set_clear_address(&mut self, t: Tid, address: u64)
        ensures node { (files : Files) → node_of self.new files ≡ change_thread t.0 (λ x. record x { clear_address = address }) (node_of self.old files) }
        ensures room { KeepsRoom self.old self.new }
    {
        thread_rows::set_clear(&mut self.threads, t, address);
    }

    /// The thread has the word in a0, and is Ready.
    pub fn answered_with(&mut self, t: Tid, word: u64)
        ensures node { (files : Files) → node_of self.new files ≡ change_thread t.0 (λ x. record x { regs = set_a0 word x.regs; does = Ready }) (node_of self.old files) }
        ensures room { KeepsRoom self.old self.new }
    {
        thread_rows::answer(&mut self.threads, t, word);
    }

    /// The thread has its answer in a0, and is Ready.
    pub fn answered(&mut self, t: Tid, answer: i64)
        ensures node { (files : Files) → node_of self.new files ≡ answered t.0 answer (node_of self.old files) }
        ensures room { KeepsRoom self.old self.new }
    {
        self.answered_with(t, thread_rows::word_of(answer));
    }

    /// The thread is back on its ecall with a0 as it was, and Ready.
    pub fn sent_back(&mut self, t: Tid)
        ensures node { (files : Files) → node_of self.new files ≡ sent_back t.0 (node_of self.old files) }
        ensures room { KeepsRoom self.old self.new }
    {
        thread_rows::send_back(&mut self.threads, t);
    }

    /// The thread stands behind its ecall.
    pub fn past_ecall(&mut self, t: Tid)
        ensures node { (files : Files) → node_of self.new files ≡ change_thread t.0 (λ x. record x { regs = set_pc (x.regs.pc + 4) x.regs }) (node_of self.old files) }
        ensures room { KeepsRoom self.old self.new }
    {
        thread_rows::pass_ecall(&mut self.threads, t);
    }

    /// The thread lives no longer.
    pub fn without_thread(&mut self, t: Tid)
        ensures node { (files : Files) → node_of self.new files ≡ without_thread t.0 (node_of self.old files) }
        ensures room { KeepsRoom self.old self.new }
    {
        thread_rows::remove(&mut self.threads, t);
    }

    /// The thread sleeps no longer.
    pub fn without_sleeper(&mut self, t: Tid)
        ensures node { (files : Files) → node_of self.new files ≡ without_sleeper t.0 (node_of self.old files) }
        ensures room { KeepsRoom self.old self.new }
    {
        self.sleepers.leave(t);
    }

    /// The thread of a change gets its answer; in a process that doesn't live it is gone.
    #[tactic(auto, unfolding(kernel_model::specs::Traps::finishes))]
    pub fn finishes(&mut self, t: Tid, answer: i64)
        ensures node { (files : Files) → node_of self.new files ≡ finishes t.0 answer (node_of self.old files) }
        ensures room { KeepsRoom self.old self.new }
    {
        if self.is_living(self.process_of_thread(t)) {
            self.answered(t, answer);
        } else {
            self.without_thread(t);
        }
    }

    /// The process has another program break.
    pub fn set_break(&mut self, p: Pid, address: u64)
        ensures node { (files : Files) → node_of self.new files ≡ set_break p.0 address (node_of self.old files) }
        ensures room { KeepsRoom self.old self.new }
    {
        self.processes.set_break(p, address);
    }

    /// Counts instructions of the process.
    pub fn counts(&mut self, p: Pid, n: u64)
        requires { instructions_in self.old.processes.map + n < 2 ^ 64 }
        ensures node { (files : Files) → node_of self.new files ≡ change_process p.0 (λ x. record x { instructions = x.instructions + n }) (node_of self.old files) }
        ensures room { KeepsRoom self.old self.new }
    {
        self.processes.add_instructions(p, n);
    }

    /// The thread has other registers, doesn't stand back, and does something else.
    fn stands_after(&mut self, t: Tid, regs: Regs, does: Does)
        ensures node { (files : Files) → node_of self.new files ≡ change_thread t.0 (λ x. record x { regs = regs; does = does; back = false }) (node_of self.old files) }
        ensures processes { self.new.processes ≡ self.old.processes }
        ensures room { KeepsRoom self.old self.new }
    {
        thread_rows::set_run(&mut self.threads, t, regs, does);
    }

    /// The thread has run for so many instructions: they are counted, it has other registers, doesn't stand back, and does something else.
    pub fn run_over(&mut self, t: Tid, regs: Regs, does: Does, n: u64)
        requires { instructions_in self.old.processes.map + n < 2 ^ 64 }
        ensures node { (files : Files) → node_of self.new files ≡ ran_over t.0 regs does n (node_of self.old files) }
        ensures room { KeepsRoom self.old self.new }
    {
        let p = self.process_of_thread(t);
        self.stands_after(t, regs, does);
        self.counts(p, n);
    }
}

// What a thread has when a signal is delivered to it, and when it returns from a handler.
ghost use Rattle.std.specs.Prelude.{◌≡◌, ◌≤◌, ◌<◌, false};
ghost use Rattle.file_model.specs.Files.{Files};
ghost use Rattle.kernel_model.specs.Nodes.{change_thread};
ghost use Rattle.kernel_model.specs.Signals.{after_reset, handler_mask as mask_of_handler, handler_regs as regs_of_handler, interrupted_regs};
ghost use Rattle.kernel_model.specs.declared.Does.TheVariants.{Ready};
ghost use Rattle.kernel_tables.specs.Room.{KeepsRoom};
ghost use Rattle.kernel_tables.specs.Shown.{node_of};
ghost use Rattle.mck_word.specs.Words.{has_bit};

use crate::tables::KernelTables;
use crate::thread_rows;
use kernel_model::Action;
use lwk_signals::handler_regs;
use mck_flags::SigSet;
use mck_word::{Pid, Regs, Tid};

const SA_RESETHAND: u32 = 31;

fn has_bit(place: u32, word: u64) -> bool
    requires { place < 64 }
    ensures { result ≡ has_bit place word }
{
    (word >> place) % 2 == 1
}

#[tactic(auto, using(crate::proofs::Rows::process_at, crate::proofs::Rows::thread_at))]
impl KernelTables {
    /// The thread has other registers, and doesn't stand back.
    pub fn stands_in_front(&mut self, t: Tid, regs: Regs)
        ensures node { (files : Files) → node_of self.new files ≡ change_thread t.0 (λ x. record x { regs = regs; back = false }) (node_of self.old files) }
        ensures room { KeepsRoom self.old self.new }
    {
        thread_rows::set_front(&mut self.threads, t, regs);
    }

    /// The thread meets a signal that kills: one that stands back goes on behind its ecall with -EINTR, unless the action restarts.
    pub fn interrupted(&mut self, t: Tid, a: &Action)
        ensures node { (files : Files) → node_of self.new files ≡ change_thread t.0 (λ x. record x { regs = interrupted_regs x.back a.now x.regs; back = false }) (node_of self.old files) }
        ensures room { KeepsRoom self.old self.new }
    {
        thread_rows::interrupt(&mut self.threads, t, a);
    }

    fn masks_handler(&mut self, t: Tid, a: &Action, signal: u32)
        requires least { 1 ≤ signal }
        requires most { signal ≤ 64 }
        ensures node { (files : Files) → node_of self.new files ≡ change_thread t.0 (λ x. record x { mask = mask_of_handler a.now signal x.mask }) (node_of self.old files) }
        ensures room { KeepsRoom self.old self.new }
    {
        thread_rows::mask_handler(&mut self.threads, t, a, signal);
    }

    /// The thread begins the handler of the signal, its frame at `sp`, where it had the registers `r`.
    pub fn enters_handler(&mut self, t: Tid, a: &Action, signal: u32, sp: u64, r: &Regs)
        requires least { 1 ≤ signal }
        requires most { signal ≤ 64 }
        ensures node { (files : Files) → node_of self.new files ≡ change_thread t.0 (λ x. record x { regs = regs_of_handler a.now signal sp r.now; mask = mask_of_handler a.now signal x.mask; back = false }) (node_of self.old files) }
        ensures room { KeepsRoom self.old self.new }
    {
        let regs = handler_regs(a, signal, sp, r);
        self.stands_in_front(t, regs);
        self.masks_handler(t, a, signal);
    }

    fn is_ready_with(&mut self, t: Tid, regs: Regs)
        ensures node { (files : Files) → node_of self.new files ≡ change_thread t.0 (λ x. record x { regs = regs; does = Ready }) (node_of self.old files) }
        ensures room { KeepsRoom self.old self.new }
    {
        thread_rows::set_ready(&mut self.threads, t, regs);
    }

    /// The thread returns from a handler, with the registers and the mask of its frame, and is Ready.
    pub fn returns_from_handler(&mut self, t: Tid, regs: Regs, mask: SigSet)
        ensures node { (files : Files) → node_of self.new files ≡ change_thread t.0 (λ x. record x { regs = regs; mask = mask.0; does = Ready }) (node_of self.old files) }
        ensures room { KeepsRoom self.old self.new }
    {
        self.is_ready_with(t, regs);
        self.set_mask(t, mask);
    }

    /// The action, where it asks for that, is the default from now on.
    pub fn after_reset(&mut self, p: Pid, signal: u32, a: &Action)
        requires least { 1 ≤ signal }
        requires most { signal ≤ 64 }
        ensures node { (files : Files) → node_of self.new files ≡ after_reset p.0 signal a.now (node_of self.old files) }
        ensures room { KeepsRoom self.old self.new }
    {
        if has_bit(SA_RESETHAND, a.flags) {
            self.with_action(p, signal, Action { handler: 0, ..*a });
            self.drop_ignored(p, signal);
        }
    }
}

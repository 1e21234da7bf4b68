// Changes of a thread's row, where the thread lives.
ghost use Rattle.std.specs.Prelude.{◌≡◌, ◌≤◌, ◌<◌, ◌+◌, ◌-◌, ◌^◌, None, false, true};
ghost use Rattle.kernel_model.specs.Nodes.{set_a0, set_pc};
ghost use Rattle.kernel_model.specs.SignalSets.{with_signal as set_with, without_signal as set_without};
ghost use Rattle.kernel_model.specs.declared.Does.TheVariants.{Ready};
ghost use Rattle.lwk_threads.specs.Threads.{changed, live_threads, with_thread, without_thread};
ghost use Rattle.kernel_tables.specs.Passes.{begun};
ghost use Rattle.mck_word.specs.Maps.{at};
ghost use Rattle.kernel_model.specs.Signals.{handler_mask as mask_of_handler, interrupted_regs as regs_interrupted};
ghost use Rattle.mck_word.specs.Words.{word_of};

use kernel_model::{Action, Does};
use lwk_signals::{handler_mask, interrupted_regs, with_signal, without_signal};
use lwk_threads::ThreadTable;
use mck_flags::SigSet;
use mck_word::{Pid, Regs, Tid};

/// The word of a signed number.
pub fn word_of(answer: i64) -> u64
    ensures { result ≡ word_of answer }
{
    answer.cast_unsigned()
}

/// The registers with that word in a0.
pub fn with_a0(r: &Regs, value: u64) -> Regs
    ensures { result ≡ set_a0 value r.now }
{
    let mut x = r.x;
    x[10] = value;
    Regs { pc: r.pc, x }
}

/// The registers behind an ecall.
fn behind(r: &Regs) -> Regs
    ensures { result ≡ set_pc (r.now.pc + 4) r.now }
{
    Regs {
        pc: r.pc.wrapping_add(4),
        x: r.x,
    }
}

/// The registers back on an ecall.
fn back_on(r: &Regs) -> Regs
    ensures { result ≡ set_pc (r.now.pc + (2 ^ 64 - 4)) r.now }
{
    Regs {
        pc: r.pc.wrapping_sub(4),
        x: r.x,
    }
}

/// The thread has other registers.
pub fn set_regs(threads: &mut ThreadTable<Does>, t: Tid, regs: Regs)
    ensures { threads.new ≡ record threads.old { threads = changed t.0 (λ x. record x { regs = regs }) threads.old.threads } }
{
    if threads.thread(t).is_some() {
        threads.set_regs(t, regs);
    }
}

/// The thread has another mask.
pub fn set_mask(threads: &mut ThreadTable<Does>, t: Tid, mask: SigSet)
    ensures { threads.new ≡ record threads.old { threads = changed t.0 (λ x. record x { mask = mask }) threads.old.threads } }
{
    if threads.thread(t).is_some() {
        threads.set_mask(t, mask);
    }
}

/// The thread has another address to clear.
pub fn set_clear(threads: &mut ThreadTable<Does>, t: Tid, address: u64)
    ensures { threads.new ≡ record threads.old { threads = changed t.0 (λ x. record x { clear = address }) threads.old.threads } }
{
    if threads.thread(t).is_some() {
        threads.set_clear(t, address);
    }
}

/// The thread does something else.
pub fn set_state(threads: &mut ThreadTable<Does>, t: Tid, does: Does)
    ensures { threads.new ≡ record threads.old { threads = changed t.0 (λ x. record x { state = does }) threads.old.threads } }
{
    if threads.thread(t).is_some() {
        threads.set_state(t, does);
    }
}

/// The thread has run: other registers, not back on an ecall, and what it does then.
pub fn set_run(threads: &mut ThreadTable<Does>, t: Tid, regs: Regs, state: Does)
    ensures { threads.new ≡ record threads.old { threads = changed t.0 (λ x. record x { regs = regs; back = false; state = state }) threads.old.threads } }
{
    if threads.thread(t).is_some() {
        threads.set_stand(t, regs, false, state);
    }
}

/// The thread has the word in a0, and is Ready.
pub fn answer(threads: &mut ThreadTable<Does>, t: Tid, value: u64)
    ensures { threads.new ≡ record threads.old { threads = changed t.0 (λ x. record x { regs = set_a0 value x.regs; state = Ready }) threads.old.threads } }
{
    if let Some(x) = threads.thread(t) {
        let regs = with_a0(&x.regs, value);
        let back = x.back;
        threads.set_stand(t, regs, back, Does::Ready);
    }
}

/// The thread is back on its ecall, and Ready.
pub fn send_back(threads: &mut ThreadTable<Does>, t: Tid)
    ensures { threads.new ≡ record threads.old { threads = changed t.0 (λ x. record x { regs = set_pc (x.regs.pc + (2 ^ 64 - 4)) x.regs; back = true; state = Ready }) threads.old.threads } }
{
    if let Some(x) = threads.thread(t) {
        let regs = back_on(&x.regs);
        threads.set_stand(t, regs, true, Does::Ready);
    }
}

/// The thread stands behind its ecall.
pub fn pass_ecall(threads: &mut ThreadTable<Does>, t: Tid)
    ensures { threads.new ≡ record threads.old { threads = changed t.0 (λ x. record x { regs = set_pc (x.regs.pc + 4) x.regs }) threads.old.threads } }
{
    if let Some(x) = threads.thread(t) {
        let regs = behind(&x.regs);
        threads.set_regs(t, regs);
    }
}

/// The thread lives no longer.
pub fn remove(threads: &mut ThreadTable<Does>, t: Tid)
    ensures threads { threads.new.threads ≡ without_thread t.0 threads.old.threads }
    ensures room { threads.old.spare ≤ threads.new.spare }
{
    match threads.thread(t) {
        Some(_) => threads.gone(t),
        None => {}
    }
}

/// A signal is pending for the thread.
pub fn pend(threads: &mut ThreadTable<Does>, t: Tid, signal: u32)
    requires least { 1 ≤ signal }
    requires most { signal ≤ 64 }
    ensures { threads.new ≡ record threads.old { threads = changed t.0 (λ x. record x { pending = record { 0 = set_with signal x.pending.0 } }) threads.old.threads } }
{
    if let Some(x) = threads.thread(t) {
        let pending = with_signal(signal, x.pending);
        threads.set_pending(t, pending);
    }
}

/// A signal is pending for the thread no longer.
pub fn unpend(threads: &mut ThreadTable<Does>, t: Tid, signal: u32)
    requires least { 1 ≤ signal }
    requires most { signal ≤ 64 }
    ensures { threads.new ≡ record threads.old { threads = changed t.0 (λ x. record x { pending = record { 0 = set_without signal x.pending.0 } }) threads.old.threads } }
{
    if let Some(x) = threads.thread(t) {
        let pending = without_signal(signal, x.pending);
        threads.set_pending(t, pending);
    }
}

/// The thread has other registers, and doesn't stand back.
pub fn set_front(threads: &mut ThreadTable<Does>, t: Tid, regs: Regs)
    ensures { threads.new ≡ record threads.old { threads = changed t.0 (λ x. record x { regs = regs; back = false }) threads.old.threads } }
{
    if let Some(x) = threads.thread(t) {
        let does = x.state;
        threads.set_stand(t, regs, false, does);
    }
}

/// The thread has other registers, and is Ready.
pub fn set_ready(threads: &mut ThreadTable<Does>, t: Tid, regs: Regs)
    ensures { threads.new ≡ record threads.old { threads = changed t.0 (λ x. record x { regs = regs; state = Ready }) threads.old.threads } }
{
    if let Some(x) = threads.thread(t) {
        let back = x.back;
        threads.set_stand(t, regs, back, Does::Ready);
    }
}

/// The thread meets a signal: one that stands back goes on behind its ecall with -EINTR, unless the action restarts.
pub fn interrupt(threads: &mut ThreadTable<Does>, t: Tid, a: &Action)
    ensures { threads.new ≡ record threads.old { threads = changed t.0 (λ x. record x { regs = regs_interrupted x.back a.now x.regs; back = false }) threads.old.threads } }
{
    if let Some(x) = threads.thread(t) {
        let regs = interrupted_regs(x.back, a, &x.regs);
        let does = x.state;
        threads.set_stand(t, regs, false, does);
    }
}

/// The thread has the mask with which the handler of a signal begins.
pub fn mask_handler(threads: &mut ThreadTable<Does>, t: Tid, a: &Action, signal: u32)
    requires least { 1 ≤ signal }
    requires most { signal ≤ 64 }
    ensures { threads.new ≡ record threads.old { threads = changed t.0 (λ x. record x { mask = record { 0 = mask_of_handler a.now signal x.mask.0 } }) threads.old.threads } }
{
    if let Some(x) = threads.thread(t) {
        let mask = handler_mask(a, signal, x.mask);
        threads.set_mask(t, mask);
    }
}

/// The first thread of a process that has none, which is Ready: its place is 0, and nothing is pending.
pub fn begin(threads: &mut ThreadTable<Does>, p: Pid, t: Tid, regs: Regs, mask: SigSet, clear: u64)
    requires room { 1 ≤ threads.old.spare }
    requires alone { live_threads p.0 threads.old.threads ≡ 0 }
    requires known { p.0 ≤ t.0 }
    requires below { t.0 < 2 ^ 32 - 1 }
    requires unused { at threads.old.threads.rows t.0 ≡ None }
    ensures threads { threads.new.threads ≡ with_thread (begun p t regs mask clear) threads.old.threads }
    ensures takes { threads.old.spare ≤ threads.new.spare + 1 }
{
    threads.first(p, t, regs, mask, Does::Ready);
    set_clear(threads, t, clear);
}

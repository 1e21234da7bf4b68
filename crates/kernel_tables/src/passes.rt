// Passes over the threads of a process.
ghost use Rattle.std.specs.Prelude.{◌≡◌, ◌≤◌, ℕ};
ghost use Rattle.kernel_model.specs.declared.Does.{Does as KernelDoes};
ghost use Rattle.lwk_threads.specs.declared.Thread.{Thread};
ghost use Rattle.mck_word.specs.Maps.{collect};
ghost use Rattle.kernel_tables.specs.Passes.{passed, unless_of, without_pending};

use crate::thread_rows::unpend;
use kernel_model::Does;
use lwk_threads::ThreadTable;
use mck_word::{Pid, Tid};

/// The thread, where it is one of the process, lives no longer.
#[tactic(auto, using(crate::proofs::RowsPassed::put_same, crate::proofs::Rows::cut_none))]
fn end_one(threads: &mut ThreadTable<Does>, t: Tid, p: Pid)
    ensures threads { threads.new.threads ≡ record threads.old.threads { rows = passed (unless_of p.0) threads.old.threads.rows t.0 } }
    ensures room { threads.old.spare ≤ threads.new.spare }
{
    match threads.thread(t) {
        Some(x) => {
            if x.pid.0 == p.0 {
                threads.gone(t);
            }
        }
        None => {}
    }
}

/// The threads of the process live no longer.
pub fn end_all(threads: &mut ThreadTable<Does>, p: Pid)
    ensures threads { threads.new.threads ≡ record threads.old.threads { rows = collect (λ (t : ℕ) (x : Thread KernelDoes). unless_of p.0 x) threads.old.threads.rows } }
    ensures room { threads.old.spare ≤ threads.new.spare }
{
    let mut from = 0;
    // No number is above the next, which fits.
    let _end = threads.fresh();
    'pass: while let Some(t) = threads.next(Tid(from)) {
        end_one(threads, t, p);
        from = t.0 + 1;
    }
}

/// The signal is pending no longer for the thread, where it is one of the process.
#[tactic(auto, using(crate::proofs::RowsPassed::put_same, crate::proofs::Rows::cut_none))]
fn unpend_one(threads: &mut ThreadTable<Does>, t: Tid, p: Pid, signal: u32)
    requires least { 1 ≤ signal }
    requires most { signal ≤ 64 }
    ensures threads { threads.new.threads ≡ record threads.old.threads { rows = passed (without_pending p.0 signal) threads.old.threads.rows t.0 } }
    ensures room { threads.old.spare ≤ threads.new.spare }
{
    match threads.thread(t) {
        Some(x) => {
            if x.pid.0 == p.0 {
                unpend(threads, t, signal);
            }
        }
        None => {}
    }
}

/// The signal is pending no longer for the threads of the process.
pub fn unpend_all(threads: &mut ThreadTable<Does>, p: Pid, signal: u32)
    requires least { 1 ≤ signal }
    requires most { signal ≤ 64 }
    ensures threads { threads.new.threads ≡ record threads.old.threads { rows = collect (λ (t : ℕ) (x : Thread KernelDoes). without_pending p.0 signal x) threads.old.threads.rows } }
    ensures room { threads.old.spare ≤ threads.new.spare }
{
    let mut from = 0;
    // No number is above the next, which fits.
    let _end = threads.fresh();
    'pass: while let Some(t) = threads.next(Tid(from)) {
        unpend_one(threads, t, p, signal);
        from = t.0 + 1;
    }
}

//! The thread table of a node: its live threads by number, with their places in their processes.
//!
//! Promises: the table is the next number and a finite map from numbers to threads, beside `spare`, the number of threads that
//! there is room for; each call is a word of specs/Threads on it. A thread is found by halving and changed in place, and
//! a process's threads are counted and placed by a row that is kept for it, without going through the others. What a clone gets of
//! its caller is clone's of Linux (man-pages section 2); numbers, places and the limit of sixteen are this project's own.
#![tactic(auto)]

pub mod clone_values;
pub mod member_rows;

ghost use Rattle.std.specs.Prelude.{◌≡◌, ◌≤◌, ◌<◌, ◌+◌, ◌-◌, ◌^◌, ◌%◌, OnOk, IsTrue, IsSome, None, Some, option_map, length, filter, max, MatchOption, List, ℕ, slice_index};
ghost use Rattle.std.specs.Option.{option_copied};
ghost use Rattle.kernel_model.specs.Nodes.{most_threads};
ghost use Rattle.key_rows.specs.Table.{key_from};
ghost use Rattle.mck_word.specs.Maps.{at, entries, values};
ghost use Rattle.lwk_threads.specs.Threads.{Threads, changed, cloned, first_thread, is_of, live_threads, lives, lowest_free_place, no_threads, peers_of, stands_at, with_clone, with_thread, without_thread};
ghost use Rattle.kernel_model.specs.CloneCalls.{cloned_thread};
ghost use Rattle.kernel_model.specs.Nodes.{Node};
ghost use Rattle.kernel_model.specs.declared.Does.{Does};
ghost use Rattle.kernel_model.specs.declared.Does.TheVariants.{Ready};
ghost use Rattle.lwk_threads.specs.Shown.{shown, shown_threads};
ghost use Rattle.lwk_threads.specs.declared.Thread.{Thread as ThreadOf};

pub use clone_values::child_registers;
use clone_values::clear_of_clone;
use key_rows::Rows;
use mck_flags::SigSet;
use mck_word::{NoMemory, Pid, Regs, Tid};
use member_rows::{Peers, join, part, place_among};
use std::alloc::Global;
use std::marker::Model;

/// A live thread. `place` is one of sixteen in its process, `clear` the address that is cleared when it ends, or 0, and `back` says
/// that it stands back on an interrupted ecall.
#[derive(Drop)]
pub struct Thread<S> {
    pub tid: Tid,
    pub pid: Pid,
    pub place: u32,
    pub regs: Regs,
    pub mask: SigSet,
    pub pending: SigSet,
    pub clear: u64,
    pub back: bool,
    pub state: S,
}

/// The threads of a node, seen as the next number and the map from numbers to live threads, beside the room for more.
#[derive(Drop)]
pub struct ThreadTable<S> {
    next_tid: u32,
    rows: Rows<Thread<S>>,
    groups: Rows<Peers>,
}

impl<S> Model for ThreadTable<S> {
    ghost use Rattle.std.specs.Prelude.{min};
    ghost use Rattle.std.specs.Coded.{codes};
    ghost use Rattle.lwk_threads.specs.Threads.{IsTable, Spared, spared_code};

    ghost Value = { Spared S };

    ghost coded = { spared_code (Prim.hlevel (codes, S.code)) };

    ghost view = { λ t. record { threads = record { next = t.next_tid; rows = t.rows.map }; spare = min t.rows.spare t.groups.spare } };

    ghost invariant = { λ t. IsTable (record { next = t.next_tid; rows = t.rows.map }) t.groups.map };
}

impl<S: Drop> ThreadTable<S> {
    /// No threads. Can't fail.
    pub fn new(alloc: Global) -> Self
        ensures { result ≡ record { threads = no_threads; spare = 0 } }
    {
        ThreadTable {
            next_tid: 17,
            rows: Rows::new(alloc),
            groups: Rows::new(alloc),
        }
    }

    /// The next number: 17, or one above the greatest given.
    pub fn fresh(&self) -> Tid
        ensures next { result.0 ≡ self.now.threads.next }
        ensures unused { at self.now.threads.rows result.0 ≡ None }
        ensures nobody { live_threads result.0 self.now.threads ≡ 0 }
    {
        Tid(self.next_tid)
    }

    /// The thread of that number: None exactly where it doesn't live.
    pub fn thread(&self, t: Tid) -> Option<&Thread<S>>
        ensures { option_copied result ≡ at self.now.threads.rows t.0 }
    {
        self.rows.get(t.0 as u64)
    }

    /// How many threads of the process live.
    pub fn live(&self, pid: Pid) -> u32
        ensures value { result ≡ live_threads pid.0 self.now.threads }
        ensures most { result ≤ most_threads }
    {
        match self.groups.get(pid.0 as u64) {
            Some(group) => group.live,
            None => 0,
        }
    }

    /// Makes room for one thread. The contents stay, also where memory lacks.
    pub fn reserve(&mut self) -> Result<(), NoMemory>
        ensures same { self.new.threads ≡ self.old.threads }
        ensures grows { self.old.spare ≤ self.new.spare }
        ensures room { OnOk result (1 ≤ self.new.spare) }
    {
        if self.rows.reserve(1).is_err() || self.groups.reserve(1).is_err() {
            return Err(NoMemory);
        }
        Ok(())
    }

    /// Puts a thread in at a place that no thread of its process has.
    fn enter(&mut self, thread: Thread<S>)
        requires room { 1 ≤ self.old.spare }
        requires absent { at self.old.threads.rows thread.tid.0 ≡ None }
        requires below { thread.tid.0 < 2 ^ 32 - 1 }
        requires few { live_threads thread.pid.0 self.old.threads < most_threads }
        requires within { thread.place < most_threads }
        requires known { thread.pid.0 < max self.old.threads.next (thread.tid.0 + 1) }
        requires free { length (filter (stands_at thread.pid.0 thread.place) (values self.old.threads.rows)) ≡ 0 }
        ensures threads { self.new.threads ≡ with_thread thread self.old.threads }
        ensures takes { self.old.spare ≤ self.new.spare + 1 }
    {
        self.next_tid = self.next_tid.max(thread.tid.0 + 1);
        join(&mut self.groups, thread.pid, thread.place);
        self.rows.insert(thread.tid.0 as u64, thread);
    }

    /// The first thread of a process that has none: its place is 0, and nothing is pending.
    pub fn first(&mut self, pid: Pid, tid: Tid, regs: Regs, mask: SigSet, state: S)
        requires room { 1 ≤ self.old.spare }
        requires alone { live_threads pid.0 self.old.threads ≡ 0 }
        requires known { pid.0 ≤ tid.0 }
        requires below { tid.0 < 2 ^ 32 - 1 }
        requires unused { at self.old.threads.rows tid.0 ≡ None }
        ensures threads { self.new.threads ≡ with_thread (first_thread pid tid regs mask state) self.old.threads }
        ensures takes { self.old.spare ≤ self.new.spare + 1 }
    {
        self.enter(Thread {
            tid,
            pid,
            place: 0,
            regs,
            mask,
            pending: SigSet(0),
            clear: 0,
            back: false,
            state,
        });
    }

    /// The lowest place that no live thread of the process has.
    fn free_place(&self, pid: Pid) -> u32
        requires few { live_threads pid.0 self.now.threads < most_threads }
        ensures lowest { result ≡ lowest_free_place pid.0 self.now.threads }
        ensures within { result < most_threads }
        ensures free { length (filter (stands_at pid.0 result) (values self.now.threads.rows)) ≡ 0 }
        ensures known { 1 ≤ live_threads pid.0 self.now.threads → pid.0 < self.now.threads.next }
    {
        place_among(&self.groups, pid)
    }

    /// A thread beside the caller, by the arguments of its clone call: with the caller's registers and mask, where the arguments
    /// don't ask for others, at the lowest free place of its process, and with nothing pending. Answers its number, which is `fresh`.
    pub fn clone_thread(&mut self, caller: Tid, args: &[u64; 6], state: S) -> Tid
        requires room { 1 ≤ self.old.spare }
        requires lives { IsTrue (lives self.old.threads caller.0) }
        requires few { peers_of (at self.old.threads.rows caller.0) self.old.threads < most_threads }
        requires below { self.old.threads.next < 2 ^ 32 - 1 }
        ensures number { result.0 ≡ self.old.threads.next }
        ensures threads { self.new.threads ≡ with_clone args.now state (at self.old.threads.rows caller.0) self.old.threads }
        ensures takes { self.old.spare ≤ self.new.spare + 1 }
    {
        let tid = self.fresh();
        let (pid, regs, mask) = match self.thread(caller) {
            Some(x) => (x.pid, child_registers(&x.regs, args), x.mask),
            None => return tid,
        };
        let place = self.free_place(pid);
        self.enter(Thread {
            tid,
            pid,
            place,
            regs,
            mask,
            pending: SigSet(0),
            clear: clear_of_clone(args),
            back: false,
            state,
        });
        tid
    }

    /// Gives the thread other registers.
    pub fn set_regs(&mut self, t: Tid, v: Regs)
        requires { IsTrue (lives self.old.threads t.0) }
        ensures { self.new ≡ record self.old { threads = changed t.0 (λ x. record x { regs = v }) self.old.threads } }
    {
        self.rows.row_mut(t.0 as u64).regs = v;
    }

    /// Gives the thread another mask.
    pub fn set_mask(&mut self, t: Tid, v: SigSet)
        requires { IsTrue (lives self.old.threads t.0) }
        ensures { self.new ≡ record self.old { threads = changed t.0 (λ x. record x { mask = v }) self.old.threads } }
    {
        self.rows.row_mut(t.0 as u64).mask = v;
    }

    /// Gives the thread another pending set.
    pub fn set_pending(&mut self, t: Tid, v: SigSet)
        requires { IsTrue (lives self.old.threads t.0) }
        ensures { self.new ≡ record self.old { threads = changed t.0 (λ x. record x { pending = v }) self.old.threads } }
    {
        self.rows.row_mut(t.0 as u64).pending = v;
    }

    /// Gives the thread another address to clear, or 0.
    pub fn set_clear(&mut self, t: Tid, v: u64)
        requires { IsTrue (lives self.old.threads t.0) }
        ensures { self.new ≡ record self.old { threads = changed t.0 (λ x. record x { clear = v }) self.old.threads } }
    {
        self.rows.row_mut(t.0 as u64).clear = v;
    }

    /// Gives the thread the note whether it stands back on an interrupted ecall.
    pub fn set_back(&mut self, t: Tid, v: bool)
        requires { IsTrue (lives self.old.threads t.0) }
        ensures { self.new ≡ record self.old { threads = changed t.0 (λ x. record x { back = v }) self.old.threads } }
    {
        self.rows.row_mut(t.0 as u64).back = v;
    }

    /// Gives the thread another state.
    pub fn set_state(&mut self, t: Tid, v: S)
        requires { IsTrue (lives self.old.threads t.0) }
        ensures { self.new ≡ record self.old { threads = changed t.0 (λ x. record x { state = v }) self.old.threads } }
    {
        self.rows.row_mut(t.0 as u64).state = v;
    }

    /// Gives the thread other registers, the note whether it stands back on an interrupted ecall, and another state.
    pub fn set_stand(&mut self, t: Tid, regs: Regs, back: bool, state: S)
        requires { IsTrue (lives self.old.threads t.0) }
        ensures { self.new ≡ record self.old { threads = changed t.0 (λ x. record x { regs = regs; back = back; state = state }) self.old.threads } }
    {
        let row = self.rows.row_mut(t.0 as u64);
        row.regs = regs;
        row.back = back;
        row.state = state;
    }

    /// The thread lives no longer.
    pub fn gone(&mut self, t: Tid)
        requires { IsTrue (lives self.old.threads t.0) }
        ensures threads { self.new.threads ≡ without_thread t.0 self.old.threads }
        ensures room { self.old.spare ≤ self.new.spare }
    {
        let x = self.rows.remove(t.0 as u64);
        part(&mut self.groups, x.pid, x.place);
    }

    /// The live threads in the order of their numbers.
    pub fn rows(&self) -> &[(u64, Thread<S>)]
        ensures { result.now ≡ entries self.now.threads.rows }
    {
        self.rows.as_slice()
    }

    /// The lowest live thread from there on: None exactly where there is none.
    pub fn next(&self, from: Tid) -> Option<Tid>
        ensures is { option_map (λ t. t.0) result ≡ key_from self.now.threads.rows from.0 }
        ensures below { MatchOption result (Unit {0}) (λ t. t.0 < self.now.threads.next) }
    {
        // No key is above the next number, which fits.
        let _limit = self.fresh();
        match self.rows.next(from.0 as u64) {
            Some(key) => Some(Tid(key as u32)),
            None => None,
        }
    }
}

/// The core to which the thread is bound.
pub fn core_of(tid: Tid, cores: u32) -> u32
    requires { 1 ≤ cores }
    ensures { result ≡ tid.0 % cores }
{
    tid.0 % cores
}

/// A thread that is cloned is the one that the clone call of the two kernels makes, in each node that shows the table, where the new
/// state is Ready.
pub fn clone_is_the_call<S>()
    ensures { (does : S → Does) (node : Node) (t : Threads S) (x : ThreadOf S) (args : List ℕ) (state : S) → node.threads ≡ shown_threads does t → does state ≡ Ready → cloned_thread node (shown does x) (slice_index args 0) (slice_index args 1) (slice_index args 3) (slice_index args 4) ≡ shown does (cloned args state x t) }
{}

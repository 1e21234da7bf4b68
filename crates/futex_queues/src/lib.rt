//! The threads that sleep at futex addresses, in the order in which they began to sleep.
//!
//! Promises: the sleepers are a list of process, address and thread, in which a thread stands once, beside `spare`, the number of
//! sleepers that there is room for. `wait` adds one at the end, `wake` takes out the first at an address (specs/Sleep).
//! FUTEX_WAIT and FUTEX_WAKE are after man-pages section 2, futex; that waiters wake in order is this project's own.
#![tactic(auto)]

ghost use Rattle.std.specs.Prelude.{◌≡◌, ◌≤◌, ◌<◌, ◌+◌, ◌-◌, [], ◌∷◌, ◌++◌, OnOk, false, length, map, min, not, position, take, ◌&&◌, ◌==◌};
ghost use Rattle.std.specs.List.{list_any};
ghost use Rattle.kernel_model.specs.Nodes.{most_threads};
ghost use Rattle.mck_word.specs.Lists.{without};
ghost use Rattle.futex_queues.specs.Sleep.{is_of, is_thread, left, shown, sleeps_at, thread_of, waiters};

use mck_word::{NoMemory, Pid, Tid};
use std::alloc::Global;
use std::marker::Model;

/// A thread that sleeps at an address of its process.
#[derive(Clone, Copy, PartialEq, Eq, Debug)]
pub struct Waiter {
    pub pid: Pid,
    pub addr: u64,
    pub tid: Tid,
}

/// A list of at most sixteen threads, which never takes memory.
#[derive(Drop)]
pub struct Woken {
    tids: [Tid; 16],
    len: usize,
}

impl Model for Woken {
    ghost use Rattle.std.specs.Prelude.{List, take, ◌≤◌};
    ghost use Rattle.mck_word.specs.declared.Tid.{Tid};

    ghost Value = { List Tid };

    ghost view = { λ w. take w.len w.tids };

    ghost invariant = { λ w. w.len ≤ 16 };
}

impl Woken {
    /// No threads.
    pub fn new() -> Woken
        ensures { result ≡ [] }
    {
        Woken {
            tids: [Tid(0); 16],
            len: 0,
        }
    }

    fn clear(&mut self)
        ensures { self.new ≡ [] }
    {
        self.len = 0;
    }

    fn push(&mut self, t: Tid)
        requires { length self.old < 16 }
        ensures { self.new ≡ self.old ++ t ∷ [] }
    {
        self.tids[self.len] = t;
        self.len += 1;
    }

    /// The threads, in the order in which they began to sleep.
    pub fn as_slice(&self) -> &[Tid]
        ensures { result.now ≡ self.now }
    {
        &self.tids[..self.len]
    }
}

/// The place of the first that sleeps there.
fn first_at(rows: &[Waiter], pid: Pid, addr: u64) -> Option<usize>
    ensures { result ≡ position (λ w. sleeps_at pid.0 addr (shown w)) rows.now }
{
    rows.iter().position(|w| w.pid.0 == pid.0 && w.addr == addr)
}

/// The sleepers of a node, seen as the list of process, address and thread in order, beside the room for more.
#[derive(Drop)]
pub struct Sleepers {
    rows: Vec<Waiter>,
}

impl Model for Sleepers {
    ghost use Rattle.std.specs.Prelude.{◌-◌, map, vec_len};
    ghost use Rattle.std.specs.Vec.{vec_capacity};
    ghost use Rattle.futex_queues.specs.Sleep.{IsQueue, Queue, queue_code, shown};

    ghost Value = { Queue };

    ghost coded = { queue_code };

    ghost view = { λ q. record { list = map shown q.rows.items; spare = vec_capacity q.rows - vec_len q.rows } };

    ghost invariant = { λ q. IsQueue (map shown q.rows.items) };
}

impl Sleepers {
    /// No sleepers. Can't fail.
    pub fn new(alloc: Global) -> Sleepers
        ensures { result ≡ record { list = []; spare = 0 } }
    {
        Sleepers {
            rows: Vec::new(alloc),
        }
    }

    /// Makes room for one sleeper. The contents stay, also where memory lacks.
    pub fn reserve(&mut self) -> Result<(), NoMemory>
        ensures same { self.new.list ≡ self.old.list }
        ensures grows { self.old.spare ≤ self.new.spare }
        ensures room { OnOk result (1 ≤ self.new.spare) }
    {
        self.rows.reserve(1)?;
        Ok(())
    }

    /// The thread, which doesn't sleep, sleeps at the address from now on.
    pub fn wait(&mut self, pid: Pid, addr: u64, tid: Tid)
        requires room { 1 ≤ self.old.spare }
        requires awake { list_any (is_thread tid.0) self.old.list ≡ false }
        requires few { length (waiters pid.0 addr self.old.list) < most_threads }
        ensures { self.new ≡ record { list = self.old.list ++ record { process = pid.0; address = addr; thread = tid.0 } ∷ []; spare = self.old.spare - 1 } }
    {
        self.rows.push_reserved(Waiter { pid, addr, tid });
    }

    /// Takes out the first `n` that sleep there, hands them out in order, and answers their number.
    pub fn wake(&mut self, pid: Pid, addr: u64, n: u32, out: &mut Woken) -> u32
        ensures count { result ≡ min n (length (waiters pid.0 addr self.old.list)) }
        ensures woken { out.new ≡ map thread_of (take n (waiters pid.0 addr self.old.list)) }
        ensures left { self.new.list ≡ left pid.0 addr n self.old.list }
        ensures room { self.old.spare ≤ self.new.spare }
    {
        out.clear();
        let mut count: u32 = 0;
        while count < n {
            let Some(i) = first_at(&self.rows, pid, addr) else {
                break;
            };
            let w = self.rows.remove(i);
            out.push(w.tid);
            count += 1;
        }
        count
    }

    /// Takes the threads of the process out.
    pub fn leave_process(&mut self, pid: Pid)
        ensures list { self.new.list ≡ without (is_of pid.0) self.old.list }
        ensures room { self.old.spare ≤ self.new.spare }
    {
        self.rows.retain(|w| w.pid.0 != pid.0);
    }

    /// Takes the thread out, where it sleeps.
    pub fn leave(&mut self, tid: Tid)
        ensures list { self.new.list ≡ without (is_thread tid.0) self.old.list }
        ensures room { self.old.spare ≤ self.new.spare }
    {
        self.rows.retain(|w| w.tid.0 != tid.0);
    }
}

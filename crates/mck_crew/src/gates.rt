// Places where a test may hold a thread.
ghost use Rattle.std.specs.Prelude.{◌≡◌, IfOk};

use mck_word::{NoMemory, Pid};
use std::alloc::Global;
use std::sync::atomic::{AtomicBool, Ordering};
use std::thread::yield_now;

/// Where a thread is, outside the lock: before a core's run, behind a worker's pin, behind a reply that a process's kernel took in.
#[derive(Clone, Copy, PartialEq, Eq, Debug)]
pub enum Place {
    QuantumOut(u32),
    Pinned(Pid, u32),
    Replied(Pid),
}

/// What each thread passes at its places.
pub trait Gate {
    fn at(&self, place: Place);
}

/// A gate that holds nobody.
pub struct OpenGate;

impl Gate for OpenGate {
    #[inline(always)]
    fn at(&self, _place: Place) {}
}

/// A gate that holds a thread at the first place of a pair until some thread was at the second, or until it has looked for that so often.
#[derive(Drop)]
pub struct HoldGate {
    pairs: Vec<(Place, Place)>,
    looks: u32,
    reached: Vec<AtomicBool>,
    ran_out: AtomicBool,
}

impl HoldGate {
    /// The gate of these pairs, with so many looks at most.
    pub fn new(alloc: Global, pairs: &[(Place, Place)], looks: u32) -> Result<HoldGate, NoMemory>
        ensures pairs { IfOk result (λ gate. gate.pairs.items ≡ pairs.now) }
        ensures looks { IfOk result (λ gate. gate.looks ≡ looks) }
    {
        let mut reached = Vec::new(alloc);
        for _ in pairs {
            reached.push(AtomicBool::new(false))?;
        }
        Ok(HoldGate {
            pairs: Vec::from_slice(alloc, pairs)?,
            looks,
            reached,
            ran_out: AtomicBool::new(false),
        })
    }

    /// Whether a thread went on though the other place was not reached.
    pub fn has_run_out(&self) -> bool {
        self.ran_out.load(Ordering::SeqCst)
    }

    fn note(&self, place: Place) {
        for (pair, is_reached) in self.pairs.iter().zip(&self.reached) {
            if pair.1 == place {
                is_reached.store(true, Ordering::SeqCst);
            }
        }
    }

    // True once it is reached, false where that is not seen in time.
    fn is_seen(&self, is_reached: &AtomicBool) -> bool {
        for _ in 0..self.looks {
            if is_reached.load(Ordering::SeqCst) {
                return true;
            }
            yield_now();
        }
        is_reached.load(Ordering::SeqCst)
    }
}

impl Gate for HoldGate {
    fn at(&self, place: Place) {
        self.note(place);
        for (pair, is_reached) in self.pairs.iter().zip(&self.reached) {
            if pair.0 == place && !self.is_seen(is_reached) {
                self.ran_out.store(true, Ordering::SeqCst);
            }
        }
    }
}

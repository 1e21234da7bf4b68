// Bells: a thread sleeps at its own.
use std::sync::{Condvar, Mutex, Wait};

/// What wakes one thread. Once rung, it is so until that thread has waited.
#[derive(Drop)]
pub struct Bell {
    rung: Mutex<bool>,
    moved: Condvar,
}

impl Bell {
    /// A bell that is not rung.
    pub fn new() -> Bell {
        Bell {
            rung: Mutex::new(false),
            moved: Condvar::new(),
        }
    }

    /// Rings it.
    pub fn ring<R: Wait>(&self, rt: &R) {
        let mut rung = self.rung.lock(rt);
        *rung = true;
        self.moved.notify_all();
    }

    /// Sleeps until it is rung.
    pub fn wait<R: Wait>(&self, rt: &R) {
        let mut rung = self
            .moved
            .wait_while(rt, self.rung.lock(rt), |is_rung| !*is_rung);
        *rung = false;
    }
}

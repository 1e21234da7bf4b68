// Which seats sleep, and which of them have something to do.
ghost use Rattle.std.specs.Prelude.{◌<◌};

use crate::seats::{SeatSet, Seating};
use mck_word::Pid;
use node_machine::Machine;

/// The seats that sleep, by their numbers, of all that there are.
#[derive(Clone, Copy)]
pub struct Sleepers {
    seating: Seating,
    all: SeatSet,
    asleep: SeatSet,
    with_caller: SeatSet,
}

impl Sleepers {
    /// All seats are awake.
    pub fn new(seating: Seating) -> Sleepers {
        Sleepers {
            seating,
            all: seating.all(),
            asleep: SeatSet::none(),
            with_caller: SeatSet::none(),
        }
    }

    /// Which seats there are.
    pub fn seating(&self) -> &Seating {
        &self.seating
    }

    /// The seat has no thread of its own: the caller serves it, who sleeps at the first seat's bell.
    pub fn leave_to_caller(&mut self, number: u32)
        requires { number < 72 }
    {
        self.with_caller.add(number);
    }

    /// The seat sleeps. True where all seats do.
    pub fn sleep(&mut self, number: u32) -> bool
        requires { number < 72 }
    {
        self.asleep.add(number);
        self.asleep == self.all
    }

    /// The seat is awake, whether it slept or not.
    pub fn stay_awake(&mut self, number: u32)
        requires { number < 72 }
    {
        self.asleep.remove(number);
    }

    /// Wakes all seats. The answer is the bells to be rung.
    pub fn wake_all(&mut self) -> SeatSet {
        self.asleep = SeatSet::none();
        self.all
    }

    // Wakes a seat that sleeps.
    fn wake(&mut self, number: u32, bells: &mut SeatSet)
        requires { number < 72 }
    {
        self.asleep.remove(number);
        if self.with_caller.has(number) {
            bells.add(0);
        } else {
            bells.add(number);
        }
    }

    /// Wakes the first seat where it sleeps and the script has a line to send.
    pub fn wake_for_script<M: Machine>(&mut self, machine: &M, bells: &mut SeatSet) {
        if self.asleep.has(0) && machine.script_offer().is_some() {
            self.wake(0, bells);
        }
    }

    fn wake_cores<M: Machine>(&mut self, machine: &M, bells: &mut SeatSet) {
        for core in 0..self.seating.cores() {
            if self.asleep.has(core) && machine.core_offer(core).is_some() {
                self.wake(core, bells);
            }
        }
    }

    fn wake_kernel<M: Machine>(&mut self, machine: &M, p: Pid, bells: &mut SeatSet) {
        let number = self.seating.of_kernel(p);
        if self.asleep.has(number) && machine.kernel_offer(p).is_some() {
            self.wake(number, bells);
        }
    }

    fn wake_workers<M: Machine>(&mut self, machine: &M, p: Pid, bells: &mut SeatSet) {
        for worker in 0..self.seating.workers() {
            let number = self.seating.of_worker(p, worker);
            if self.asleep.has(number) && worker_has_work(machine, p, worker) {
                self.wake(number, bells);
            }
        }
    }

    /// Wakes each seat that sleeps and has an offer now. The answer is the bells to be rung.
    pub fn wake_those_with_work<M: Machine>(&mut self, machine: &M) -> SeatSet {
        let mut bells = SeatSet::none();
        if self.asleep.is_empty() {
            return bells;
        }
        self.wake_cores(machine, &mut bells);
        self.wake_for_script(machine, &mut bells);
        for p in machine.processes() {
            self.wake_kernel(machine, *p, &mut bells);
            self.wake_workers(machine, *p, &mut bells);
        }
        bells
    }
}

// Whether the worker has an offer, or the Linux side that the first worker's thread serves.
fn worker_has_work<M: Machine>(machine: &M, p: Pid, worker: u32) -> bool {
    worker == 0 && machine.linux_offer(p).is_some() || machine.worker_offer(p, worker).is_some()
}

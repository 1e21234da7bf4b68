// Seats: each is a thread's list of actors.
ghost use Rattle.std.specs.Prelude.{◌<◌, ◌≤◌};

use mck_word::Pid;
use node_machine::Machine;

/// More than the number of any seat.
pub const SEATS: u32 = 72;

/// Whose actors a thread serves: a core and the kernels of its processes, the first one also the script; or the workers of one number
/// of a guest and of its children, the first one also their Linux sides.
#[derive(Clone, Copy, PartialEq, Eq, Debug)]
pub enum Seat {
    Core(u32),
    Worker(u32, u32),
}

/// Which seats there are: of so many cores, guests and workers of each proxy.
#[derive(Clone, Copy)]
pub struct Seating {
    cores: u32,
    guests: u32,
    workers: u32,
    ghost some_core: { 1 ≤ cores },
    ghost few_cores: { cores ≤ 8 },
    ghost some_guest: { 1 ≤ guests },
    ghost few_guests: { guests ≤ 16 },
    ghost few_workers: { workers ≤ 4 },
}

impl Seating {
    /// The seats of a machine at its boot, when the processes are the guests.
    pub fn of<M: Machine>(machine: &M) -> Seating {
        let processes = machine.processes().len() as u32;
        Seating {
            cores: machine.cores(),
            guests: processes.max(1).min(16),
            workers: machine.workers(),
        }
    }

    /// How many cores there are.
    pub fn cores(&self) -> u32
        ensures { result ≤ 8 }
    {
        self.cores
    }

    /// How many workers each proxy has.
    pub fn workers(&self) -> u32
        ensures { result ≤ 4 }
    {
        self.workers
    }

    /// The number of the seat that serves the kernel of the process: the one of the core on which its first thread runs.
    pub fn of_kernel(&self, p: Pid) -> u32
        ensures { result < 8 }
    {
        p.0 % self.cores
    }

    /// The guest that the process is, or whose seats serve it.
    pub fn guest_of(&self, p: Pid) -> u32
        ensures { result < 16 }
    {
        p.0.saturating_sub(1) % self.guests
    }

    /// The number of the seat that serves the worker of the process.
    pub fn of_worker(&self, p: Pid, worker: u32) -> u32
        requires { worker < 4 }
        ensures { result < 72 }
    {
        8 + self.guest_of(p) * 4 + worker
    }

    /// The seat of that number, where there is one.
    pub fn seat(&self, number: u32) -> Option<Seat> {
        if number < 8 {
            return (number < self.cores).then_some(Seat::Core(number));
        }
        let (guest, worker) = ((number - 8) / 4, (number - 8) % 4);
        (guest < self.guests && worker < self.workers).then_some(Seat::Worker(guest, worker))
    }

    /// All seats.
    pub fn all(&self) -> SeatSet {
        let mut all = SeatSet::none();
        for number in 0..SEATS {
            if self.seat(number).is_some() {
                all.add(number);
            }
        }
        all
    }
}

/// A set of seats, by their numbers.
#[derive(Clone, Copy, PartialEq, Eq)]
pub struct SeatSet {
    bits: u128,
}

impl SeatSet {
    /// No seats.
    pub fn none() -> SeatSet {
        SeatSet { bits: 0 }
    }

    /// Whether the seat of that number is in it.
    pub fn has(&self, number: u32) -> bool
        requires { number < 72 }
    {
        self.bits & (1 << number) != 0
    }

    /// Puts the seat of that number in.
    pub fn add(&mut self, number: u32)
        requires { number < 72 }
    {
        self.bits |= 1 << number;
    }

    /// Takes the seat of that number out.
    pub fn remove(&mut self, number: u32)
        requires { number < 72 }
    {
        self.bits &= !(1 << number);
    }

    /// Whether it is empty.
    pub fn is_empty(&self) -> bool {
        self.bits == 0
    }
}
